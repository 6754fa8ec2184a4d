// All entries for k met, from the space that the targets span.
ghost use Rattle.catalogue.specs.meeting.Meeting.{Rooted, Met};
ghost use Rattle.catalogue.specs.meeting.Cheapest.{CheapestAsked, CheapestFrom};

use super::noting::Aim;
use bases::Basis;
use records::{Chain, Tally};

// The walk from the space of `b`: the entries for `k` are met, each noted as `aim` says.
pub fn meet_all(
    gens: &[u64],
    b: Basis,
    k: usize,
    aim: Aim,
    order: &[u64],
    prices: &[u64],
    out: &mut [u64],
) -> Tally
    requires { Rooted gens.now b k aim order.now prices.now out.old }
    ensures { Met gens.now b k aim order.now prices.now out.old out.new result }
{
    let mut h = [0u64; residues::SEARCH_ROOM];
    residues::residues(gens, b, &mut h);
    let n = gens.len();
    let missing = k - b.len;
    let c = Chain {
        numbers: [0u64; 8],
        len: 0,
    };
    let t = Tally {
        found: 0,
        shown: 0,
        at: 0,
    };
    let mut rows = [0u64; weights::ROW_ROOM];
    super::walk::walk(
        gens,
        &h[..n],
        0,
        missing,
        k,
        b,
        c,
        t,
        aim,
        order,
        prices,
        &mut rows,
        out,
    )
}

// Whether there is an entry for `k`; then the cheapest formula of all of them, the dictionary-first among equals: its cost and its numbers from the start of
// `held`.
pub fn cheapest_formula(
    gens: &[u64],
    b: Basis,
    k: usize,
    order: &[u64],
    prices: &[u64],
    held: &mut [u64],
) -> bool
    requires { CheapestAsked gens.now b k order.now prices.now held.old }
    ensures { CheapestFrom gens.now b k order.now prices.now result held.new }
{
    let t = meet_all(gens, b, k, Aim::Cheapest, order, prices, held);
    t.found != 0
}

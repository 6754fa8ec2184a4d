// What becomes of an entry that the walk meets.
ghost use Rattle.std.specs.Prelude.{◌≡◌};
ghost use Rattle.bases.specs.Basis.{rows_of};
ghost use Rattle.records.specs.Keep.{chain_of, state_of};
ghost use Rattle.catalogue.specs.noting.Noting.{is_full, met, Meeting};

use bases::Basis;
use records::{Chain, Tally};

// Its record is kept, where fewer than that many are; or the cheapest formula of its space is offered against the one held.
#[derive(Clone, Copy)]
pub enum Aim {
    Records(u64),
    Cheapest,
}

// Whether no further entry changes anything.
pub fn is_full(aim: Aim, t: Tally) -> bool
    ensures { result ≡ is_full aim t.found }
{
    match aim {
        Aim::Records(limit) => t.found == limit,
        Aim::Cheapest => false,
    }
}

// The entry with the numbers of `c` and the space of `b` is met; `h` holds the residues of the generators, `order` their numbers by price.
pub fn note(
    gens: &[u64],
    h: &[u64],
    b: Basis,
    c: Chain,
    t: Tally,
    aim: Aim,
    order: &[u64],
    prices: &[u64],
    out: &mut [u64],
) -> Tally
    requires { Meeting gens.now h.now b c t aim order.now prices.now out.old }
    ensures { state_of result out.new ≡ met gens.now order.now prices.now aim
        (state_of t out.old) (chain_of c, rows_of b) }
{
    match aim {
        Aim::Records(limit) => records::keep(b, c, t, limit, out),
        Aim::Cheapest => {
            cheapest::keep(gens, h, order, prices, t.found == 0, out);
            Tally { found: 1, ..t }
        }
    }
}

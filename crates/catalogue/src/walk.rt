// The walk over the spaces that the targets and some generators span: it finds every entry, each once, in order.
ghost use Rattle.std.specs.Prelude.{◌≡◌, ◌-◌, length};
ghost use Rattle.bases.specs.Basis.{rows_of};
ghost use Rattle.records.specs.Records.{runs};
ghost use Rattle.records.specs.Keep.{chain_of, state_of};
ghost use Rattle.catalogue.specs.noting.Noting.{met};
ghost use Rattle.catalogue.specs.walk.Walk.{search, Node};
ghost use Rattle.weights.specs.rank_rows.Stretch.{row_room};

use super::noting::Aim;
use bases::Basis;
use records::{Chain, Tally};

// Goes on from the space of `b`, reached with the numbers of `c`, by `missing` numbers from `start` on, and notes each entry as `aim` says. `h` holds the
// residues of the generators. What the lent `rows` hold plays no part.
pub fn walk(
    gens: &[u64],
    h: &[u64],
    start: usize,
    missing: usize,
    k: usize,
    b: Basis,
    c: Chain,
    t: Tally,
    aim: Aim,
    order: &[u64],
    prices: &[u64],
    rows: &mut [u64],
    out: &mut [u64],
) -> Tally
    requires { Node gens.now h.now start missing b c t aim order.now prices.now out.old × (length rows.old ≡ row_room) }
    ensures { state_of result out.new ≡ runs (met gens.now order.now prices.now aim)
        (state_of t out.old) (search gens.now k (rows_of b) (chain_of c) (length gens.now - start) start missing) }
{
    if missing == 0 {
        if residues::spanned(gens, h, k) {
            return super::noting::note(gens, h, b, c, t, aim, order, prices, out);
        }
        return t;
    }
    let n = gens.len();
    let mut marks = [0u8; residues::SEARCH_ROOM];
    sieve::sieve(gens, h, start, k, missing, rows, &mut marks);
    let mut j = sieve::marked_numbers::next_marked(&marks, start, n);
    if j == n {
        return t;
    }
    let mut mine = [0u64; residues::SEARCH_ROOM];
    let mut counts = t;
    while j < n {
        if super::noting::is_full(aim, counts) {
            return counts;
        }
        let x = h[j];
        residues::child(h, x, &mut mine);
        counts = walk(
            gens,
            &mine[..n],
            j + 1,
            missing - 1,
            k,
            b.insert(x),
            records::push(c, j),
            counts,
            aim,
            order,
            prices,
            rows,
            out,
        );
        j = sieve::marked_numbers::next_marked(&marks, j + 1, n);
    }
    counts
}

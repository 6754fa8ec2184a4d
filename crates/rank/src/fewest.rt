// The fewest products, on forms.
ghost use Rattle.std.specs.Prelude.{◌≡◌};
ghost use Rattle.rank.specs.fewest.Fewest.{written, ranking, seen_ranked, lent_ranking, Asking, LeastFrom, Finishing, RankAsked};
ghost use Rattle.linear.specs.Formulae.{formula};
ghost use Rattle.catalogue.specs.meeting.Cheapest.{CheapestAsked, CheapestFrom};
ghost use Rattle.rank.specs.matrix_rank.Matrix.{Bound};

use super::matrix_rank::least_products;
use bases::Basis;
use words::first_words;

// What Rank says: refused by 9, a number of products, above or beyond.
#[derive(Clone, Copy)]
pub enum Ranked {
    Refused(u64),
    Is(usize),
    Above,
    Beyond,
}

// Whether there is an entry for `k`; then from the start of `held` the cost and the numbers of the cheapest formula of all of them. Below `bound` there is
// none, and nothing is searched.
fn meet(
    gens: &[u64],
    b: Basis,
    bound: usize,
    k: usize,
    order: &[u64],
    prices: &[u64],
    held: &mut [u64],
) -> bool
    requires { CheapestAsked gens.now b k order.now prices.now held.old × Bound gens.now b bound }
    ensures { CheapestFrom gens.now b k order.now prices.now result held.new }
{
    if k < bound {
        return false;
    }
    catalogue::meeting::cheapest_formula(gens, b, k, order, prices, held)
}

// The least number of dimensions, from that of the targets' basis `b` to 6 more, that has an entry; from the start of `held` the cost and the numbers of the
// cheapest formula of all of its entries.
fn least_formula(
    gens: &[u64],
    b: Basis,
    order: &[u64],
    prices: &[u64],
    held: &mut [u64],
) -> Option<usize>
    requires { Asking gens.now b order.now prices.now held.old }
    ensures { LeastFrom gens.now b prices.now result held.new }
{
    let bound = least_products(gens, b);
    for k in b.len..b.len + 7 {
        if meet(gens, b, bound, k, order, prices, held) {
            return Some(k);
        }
    }
    None
}

// The formula with these numbers, if there is room for it.
fn finish(gens: &[u64], targets: &[u64], numbers: &[u64], out: &mut [u64]) -> Ranked
    requires { Finishing gens.now targets.now numbers.now }
    ensures { (written gens.now targets.now out.old (formula numbers.now) ≡ seen_ranked result out.new)
        × (out.new ≡ lent_ranking (written gens.now targets.now out.old (formula numbers.now))
        out.old) }
{
    let n = numbers.len();
    if out.len() < n + targets.len() {
        return Ranked::Refused(9);
    }
    choices::write_formula(choices::pick(gens, numbers), targets, out, 0);
    Ranked::Is(n)
}

// The fewest generators that compute the targets, whose basis is `b`, with the cheapest formula in `out`.
pub fn rank_of(gens: &[u64], targets: &[u64], prices: &[u64], b: Basis, out: &mut [u64]) -> Ranked
    requires { RankAsked gens.now targets.now prices.now b }
    ensures { (ranking gens.now targets.now prices.now out.old ≡ seen_ranked result out.new)
        × (out.new
        ≡ lent_ranking (ranking gens.now targets.now prices.now out.old) out.old) }
{
    let all = bases::basis_of(gens);
    if bases::spans::misses(all, targets) {
        return Ranked::Beyond;
    }
    let n = gens.len();
    let mut by_price = [0u64; kinds::GENERATORS];
    cheapest::ordering::order(prices, &mut by_price);
    let mut held = [0u64; cheapest::FORMULA];
    let Some(k) = least_formula(gens, b, first_words(&by_price, n), prices, &mut held) else {
        return Ranked::Above;
    };
    finish(gens, targets, first_words(&held[1..], k), out)
}

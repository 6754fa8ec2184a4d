// Rank on numbers: refusals 2 to 8, the fewest products, and the cheapest formula with so many.
// fewest        the same where the problem is made
// matrix_rank   a number of products below which there is none, by the matrices of the forms
// What it means beside Catalogue: `theorems`. The reply as text: `rank_text`.
#![tactic(auto)]

ghost use Rattle.std.specs.Prelude.{◌≡◌};
ghost use Rattle.kinds.specs.Numbers.{reply_numbers};
ghost use Rattle.problems.specs.Problem.{problem};
ghost use Rattle.rank.specs.Rank.{rank_for, rank};
ghost use Rattle.rank.specs.fewest.Fewest.{seen_ranked, lent_ranking, rank_numbers, rank_values, RankAsked};

use bases::Basis;
use fewest::Ranked;
use problems::Posed;
use words::first_words;

pub mod fewest;
pub mod matrix_rank;

// Rank of a posed problem, the basis of whose targets is `b`; refusal 8.
pub fn rank_posed(
    gens: &[u64],
    targets: &[u64],
    prices: &[u64],
    b: Basis,
    k: u64,
    out: &mut [u64],
) -> Ranked
    requires { RankAsked gens.now targets.now prices.now b }
    ensures { (rank_for (problem gens.now targets.now) prices.now k out.old ≡ seen_ranked result out.new)
        × (out.new
        ≡ lent_ranking (rank_for (problem gens.now targets.now) prices.now k out.old) out.old) }
{
    if k != 0 {
        return Ranked::Refused(8);
    }
    fewest::rank_of(gens, targets, prices, b, out)
}

// The fewest generators that compute the targets, with the cheapest formula of so many in `out`; `gs`, `ts` and `costs` are the generators, targets and
// costs of a
// list.
pub fn rank(
    number: u64,
    p: u64,
    q: u64,
    r: u64,
    k: u64,
    gs: &[u64],
    ts: &[u64],
    costs: &[u64],
    out: &mut [u64],
) -> Ranked
    ensures { (rank number p q r k gs.now ts.now costs.now out.old ≡ seen_ranked result out.new)
        × (out.new ≡ lent_ranking (rank number p q r k gs.now ts.now costs.now out.old) out.old)
        × (rank_numbers result
        ≡ reply_numbers 2 rank_values (rank number p q r k gs.now ts.now costs.now out.old)) }
{
    let mut g = [0u64; kinds::GENERATORS];
    let mut t = [0u64; kinds::TARGETS];
    let mut v = [0u64; kinds::GENERATORS];
    match problems::prices::pose_priced(number, p, q, r, gs, ts, costs, &mut g, &mut t, &mut v) {
        Posed::Refused(e) => Ranked::Refused(e),
        Posed::Are(n, u) => {
            let generators = first_words(&g, n);
            let targets = first_words(&t, u);
            let b = bases::basis_of(targets);
            rank_posed(generators, targets, first_words(&v, n), b, k, out)
        }
    }
}

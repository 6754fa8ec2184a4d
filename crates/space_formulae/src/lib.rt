// The formulae of a space, on numbers: refusals 2 to 8 and 10, and the records that fit.
// spaces            the same where the problem is made, and what the reply means
// enumeration       the recursion over the formulae of a space, which yields one at every call
// formula_records   a formula counted and written
// The reply as text: `formulae_text`.
#![tactic(auto)]

ghost use Rattle.std.specs.Prelude.{◌≡◌};
ghost use Rattle.kinds.specs.Numbers.{reply_numbers};
ghost use Rattle.space_formulae.specs.spaces.Spaces.{formulae_for, formulae_of, seen_formulae, lent_formulae, formulae_numbers, formulae_values};
ghost use Rattle.space_formulae.specs.Replies.{Some};
ghost use Rattle.problems.specs.Problem.{problem};

use problems::Posed;
use spaces::Listed;
use words::first_words;

pub mod enumeration;
pub mod formula_records;
pub mod spaces;

// The formulae of the space with these rows, for a posed problem; refusals 8 and 10. The records that fit go to `out`, from its start.
pub fn formulae_for(gens: &[u64], targets: &[u64], rows: &[u64], out: &mut [u64]) -> Listed
    requires { Some targets.now }
    ensures { (formulae_for (problem gens.now targets.now) rows.now out.old ≡ seen_formulae result out.new)
        × (out.new ≡ lent_formulae (formulae_for (problem gens.now targets.now) rows.now out.old)
        out.old) }
{
    let ell = bases::basis_of(targets).len;
    if rows.len() > ell + 6 {
        return Listed::Refused(8);
    }
    if !spaces::is_entry(gens, targets, rows) {
        return Listed::Refused(10);
    }
    spaces::list_space(gens, targets, rows, out)
}

// The formulae of the space with these rows, for the problem of the kind with that number and its sizes; `gs` and `ts` are the generators and targets of
// a list. The records that fit go to `out`, from its start.
pub fn formulae(
    number: u64,
    p: u64,
    q: u64,
    r: u64,
    gs: &[u64],
    ts: &[u64],
    rows: &[u64],
    out: &mut [u64],
) -> Listed
    ensures { (formulae_of number p q r gs.now ts.now rows.now out.old ≡ seen_formulae result out.new)
        × (out.new ≡ lent_formulae (formulae_of number p q r gs.now ts.now rows.now out.old)
        out.old)
        × (formulae_numbers result ≡ reply_numbers 2 formulae_values (formulae_of number p q r gs.now ts.now rows.now out.old)) }
{
    let mut g = [0u64; kinds::GENERATORS];
    let mut t = [0u64; kinds::TARGETS];
    match problems::pose(number, p, q, r, gs, ts, rows, &mut g, &mut t) {
        Posed::Refused(e) => Listed::Refused(e),
        Posed::Are(n, u) => formulae_for(first_words(&g, n), first_words(&t, u), rows, out),
    }
}

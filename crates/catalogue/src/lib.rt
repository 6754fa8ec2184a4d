// Catalogue on numbers: refusals 2 to 8, the entries counted, and the records that fit.
// walk       the recursion that meets every entry, once and in order
// noting     what becomes of an entry: its record is kept, or its cheapest formula is offered
// meeting    all entries for k met; the cheapest formula of all of them
// listing    the entries for k, counted up to a limit, and their records
// Which children the walk visits: `sieve`. The reply as text: `catalogue_text`.
#![tactic(auto)]

ghost use Rattle.std.specs.Prelude.{◌≡◌, ◌≤◌, length};
ghost use Rattle.kinds.specs.Numbers.{reply_numbers};
ghost use Rattle.catalogue.specs.Catalogue.{catalogue_of, catalogue, seen_catalogue, lent_catalogue, catalogue_numbers, catalogue_values};
ghost use Rattle.problems.specs.Problem.{problem};
ghost use Rattle.kinds.specs.Limits.{most_generators};

use problems::Posed;
use words::first_words;

pub mod listing;
pub mod meeting;
pub mod noting;
pub mod walk;

// What Catalogue says: a refusal's number, or the targets' dimension, how many entries there are and how many are shown.
#[derive(Clone, Copy)]
pub enum Catalogued {
    Refused(u64),
    Entries(usize, u64, usize),
}

// The entries for `k` of a posed problem; refusal 8. The records that fit go to `out`, from its start.
pub fn catalogue_of(gens: &[u64], targets: &[u64], k: u64, out: &mut [u64]) -> Catalogued
    requires { length gens.now ≤ most_generators }
    ensures { (catalogue_of (problem gens.now targets.now) k out.old ≡ seen_catalogue result out.new)
        × (out.new ≡ lent_catalogue (catalogue_of (problem gens.now targets.now) k out.old) out.old) }
{
    let b = bases::basis_of(targets);
    let ell = b.len;
    if k > ell as u64 + 6 {
        return Catalogued::Refused(8);
    }
    let l = listing::list_entries(gens, b, k as usize, words::LARGEST, out);
    Catalogued::Entries(l.ell, l.found, l.shown)
}

// The entries for `k` of the problem of the kind with that number and its sizes; `gs` and `ts` are the generators and targets of a list. The records that
// fit go to `out`, from its start.
pub fn catalogue(
    number: u64,
    p: u64,
    q: u64,
    r: u64,
    k: u64,
    gs: &[u64],
    ts: &[u64],
    out: &mut [u64],
) -> Catalogued
    ensures { (catalogue number p q r k gs.now ts.now out.old ≡ seen_catalogue result out.new)
        × (out.new ≡ lent_catalogue (catalogue number p q r k gs.now ts.now out.old) out.old)
        × (catalogue_numbers result ≡ reply_numbers 3 catalogue_values (catalogue number p q r k gs.now ts.now out.old)) }
{
    let mut g = [0u64; kinds::GENERATORS];
    let mut t = [0u64; kinds::TARGETS];
    match problems::pose(number, p, q, r, gs, ts, &gs[..0], &mut g, &mut t) {
        Posed::Refused(e) => Catalogued::Refused(e),
        Posed::Are(n, u) => catalogue_of(first_words(&g, n), first_words(&t, u), k, out),
    }
}

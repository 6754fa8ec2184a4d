// Two questions on a selection of a problem's generators, on numbers: of which of them a form is the sum, is one of them redundant. Refusals 2 to 7, 9
// and 11.
// on_forms   the same where the problem is made
#![tactic(auto)]

ghost use Rattle.std.specs.Prelude.{◌≡◌};
ghost use Rattle.kinds.specs.Numbers.{reply_numbers};
ghost use Rattle.selections.specs.on_forms.Selected.{seen_said, said_numbers, said_values};
ghost use Rattle.selections.specs.on_forms.Shown.{seen_summed, lent_summed, summed_numbers, summed_values};
ghost use Rattle.selections.specs.Selections.{is_sum, is_redundant};

use on_forms::{Said, Summed};
use problems::Posed;
use words::first_words;

pub mod on_forms;

// Is the form a sum of the generators with the numbers `sel`, and of which? The problem is handed in as to Catalogue. The numbers of the terms go to
// `out`, from its start, ascending.
pub fn is_sum(
    number: u64,
    p: u64,
    q: u64,
    r: u64,
    gs: &[u64],
    ts: &[u64],
    sel: &[u64],
    form: u64,
    out: &mut [u64],
) -> Summed
    ensures { (is_sum number p q r gs.now ts.now sel.now form out.old ≡ seen_summed result out.new)
        × (out.new ≡ lent_summed (is_sum number p q r gs.now ts.now sel.now form out.old) out.old)
        × (summed_numbers result ≡ reply_numbers 2 summed_values
        (is_sum number p q r gs.now ts.now sel.now form out.old)) }
{
    let mut g = [0u64; kinds::GENERATORS];
    let mut t = [0u64; kinds::TARGETS];
    let one = [form];
    match problems::pose(number, p, q, r, gs, ts, &one, &mut g, &mut t) {
        Posed::Refused(e) => Summed::Refused(e),
        Posed::Are(n, u) => on_forms::say_sum(
            first_words(&g, n),
            first_words(&t, u),
            sel,
            form,
            out,
        ),
    }
}

// Is the selected product with the generator number j redundant (document 01: spare), the others still spanning the targets?
pub fn is_redundant(
    number: u64,
    p: u64,
    q: u64,
    r: u64,
    gs: &[u64],
    ts: &[u64],
    sel: &[u64],
    j: u64,
) -> Said
    ensures { (is_redundant number p q r gs.now ts.now sel.now j ≡ seen_said result)
        × (said_numbers result ≡ reply_numbers 1 said_values (is_redundant number p q r gs.now ts.now sel.now j)) }
{
    let mut g = [0u64; kinds::GENERATORS];
    let mut t = [0u64; kinds::TARGETS];
    match problems::pose(number, p, q, r, gs, ts, &gs[..0], &mut g, &mut t) {
        Posed::Refused(e) => Said::Refused(e),
        Posed::Are(n, u) => on_forms::say_redundant(first_words(&g, n), first_words(&t, u), sel, j),
    }
}

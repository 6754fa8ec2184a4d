// Questions on a selection of a problem's generators: of which of them a form is the sum, and is one of them redundant.
ghost use Rattle.std.specs.Prelude.{◌≡◌, false, ◌≤◌, length};
ghost use Rattle.linear.specs.Part.{part};
ghost use Rattle.linear.specs.Word.{word};
ghost use Rattle.kinds.specs.Limits.{most_generators};
ghost use Rattle.words.specs.Buffers.{filled};
ghost use Rattle.bases.specs.rows.Terms.{named};
ghost use Rattle.choices.specs.Choice.{Chose};
ghost use Rattle.problems.specs.Problem.{problem};
ghost use Rattle.selections.specs.on_forms.Selected.{misfit, without, missed_by, redundant_answer, seen_said, NumbersBelow, Marked};
ghost use Rattle.selections.specs.on_forms.Shown.{sum_answer, shown_over, seen_summed, lent_summed, Shows, RestOver};

use bases::rows::Rest;
use choices::Choice;

// A refusal's number, or yes or no.
#[derive(Clone, Copy)]
pub enum Said {
    Refused(u64),
    Yes,
    No,
}

// A refusal's number; the form is the sum of so many selected generators; or it is no sum of them.
#[derive(Clone, Copy)]
pub enum Summed {
    Refused(u64),
    Yes(usize),
    No,
}

// Whether a selection out of n generators has a number outside, or one twice.
fn misfits(sel: &[u64], n: usize) -> bool
    ensures { result ≡ misfit n sel.now }
{
    words::lists::any_outside(sel, n) || words::lists::repeats(sel)
}

// Marks the selected numbers but `skip`.
fn mark(sel: &[u64], skip: u64, marks: &mut [u8])
    requires { NumbersBelow (length marks.old) sel.now }
    ensures { Marked (without skip sel.now) marks.old marks.new }
{
    for e in sel {
        if *e != skip {
            marks[*e as usize] = 1;
        }
    }
}

// Of the selected generators but the one with the number `skip`: the part, first in dictionary order, that is independent and spans all of them.
fn part_without(gens: &[u64], sel: &[u64], skip: u64) -> Choice
    requires { (length gens.now ≤ most_generators) × (misfit (length gens.now) sel.now ≡ false) }
    ensures { Chose gens.now (part word gens.now (without skip sel.now)) result }
{
    let mut marks = [0u8; kinds::GENERATORS];
    mark(sel, skip, &mut marks);
    choices::choose(gens, &marks)
}

// The numbers that the mask names, from the start of `out`; how many they are.
fn put_named(numbers: &[u64], mask: u64, out: &mut [u64]) -> usize
    requires { length numbers.now ≤ length out.old }
    ensures { (out.new ≡ filled (named numbers.now mask 0) out.old)
        × (result ≡ length (named numbers.now mask 0)) }
{
    let mut m = 0;
    for (i, number) in numbers.iter().enumerate() {
        if forms::coordinate(mask, i) {
            out[m] = *number;
            m += 1;
        }
    }
    m
}

// What is left of the form by the chosen generators, which are independent, and the mask of those that sum to what was taken away.
fn rest_over(c: Choice, form: u64) -> Rest
    requires { Shows c }
    ensures { RestOver c form result }
{
    let k = c.len;
    let e = bases::rows::echelon_of(&c.forms[..k]);
    bases::rows::rest_of(&e.rows[..k], &e.masks[..k], form)
}

// Of which of the chosen generators, which are independent, the form is the sum: their numbers from the start of `out`; refusal 9.
fn show_sum(c: Choice, form: u64, out: &mut [u64]) -> Summed
    requires { Shows c }
    ensures { (shown_over c form out.old ≡ seen_summed result out.new)
        × (out.new ≡ lent_summed (shown_over c form out.old) out.old) }
{
    let rest = rest_over(c, form);
    if rest.form != 0 {
        return Summed::No;
    }
    let k = c.len;
    let mut terms = [0u64; kinds::PRODUCTS];
    let m = put_named(&c.numbers[..k], rest.mask, &mut terms);
    if out.len() < m {
        return Summed::Refused(9);
    }
    words::copy(&terms[..m], out, 0);
    Summed::Yes(m)
}

// Of which of the selected generators the form is the sum; refusals 11 and 9.
pub fn say_sum(gens: &[u64], targets: &[u64], sel: &[u64], form: u64, out: &mut [u64]) -> Summed
    requires { length gens.now ≤ most_generators }
    ensures { (sum_answer (problem gens.now targets.now) sel.now form out.old
        ≡ seen_summed result out.new)
        × (out.new ≡ lent_summed (sum_answer (problem gens.now targets.now) sel.now form out.old)
        out.old) }
{
    let n = gens.len();
    if misfits(sel, n) {
        return Summed::Refused(11);
    }
    // no selected number is n
    show_sum(part_without(gens, sel, n as u64), form, out)
}

// Whether some target is no sum of the selected generators but the one with the number `skip`.
fn misses_without(gens: &[u64], targets: &[u64], sel: &[u64], skip: u64) -> bool
    requires { (length gens.now ≤ most_generators) × (misfit (length gens.now) sel.now ≡ false) }
    ensures { result ≡ missed_by gens.now targets.now (without skip sel.now) }
{
    let c = part_without(gens, sel, skip);
    bases::spans::misses(bases::basis_of(&c.forms[..c.len]), targets)
}

// Whether the selected generators but number j still span the targets; refusal 11.
pub fn say_redundant(gens: &[u64], targets: &[u64], sel: &[u64], j: u64) -> Said
    requires { length gens.now ≤ most_generators }
    ensures { redundant_answer (problem gens.now targets.now) sel.now j ≡ seen_said result }
{
    let n = gens.len();
    if misfits(sel, n) {
        return Said::Refused(11);
    }
    // no selected number is n
    if misses_without(gens, targets, sel, n as u64) {
        return Said::Refused(11);
    }
    if !words::lists::stands_from(j, sel, 0) {
        return Said::Refused(11);
    }
    if misses_without(gens, targets, sel, j) {
        Said::No
    } else {
        Said::Yes
    }
}

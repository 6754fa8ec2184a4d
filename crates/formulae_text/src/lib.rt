// The formulae of an entry as text on a page.
// lines      their lines, from the numbers
// The program: `formulae_program`.
#![tactic(auto)]

ghost use Rattle.std.specs.Prelude.{◌≡◌, ◌≤◌, length, take};
ghost use Rattle.problems.specs.Problem.{problem};
ghost use Rattle.space_formulae.specs.Replies.{Some};
ghost use Rattle.formulae_text.specs.FormulaAnswers.{entry_formulae};
ghost use Rattle.printing.specs.refusals.Pages.{part_page};

use space_formulae::spaces::Listed;

pub mod lines;

// What the Formulae program prints of an entry of a posed problem, the entry with these rows, from the start of a page; its length.
pub fn entry_formulae(
    entry: u64,
    gens: &[u64],
    targets: &[u64],
    rows: &[u64],
    page: &mut [u8],
) -> usize
    requires { (length page.old ≡ part_page) × Some targets.now }
    ensures { (take result page.new ≡ entry_formulae entry (problem gens.now targets.now) rows.now) × (result ≤ part_page) }
{
    let mut listing = [0u64; text::PROGRAM_WORDS];
    let said = space_formulae::formulae_for(gens, targets, rows, &mut listing);
    let k = rows.len();
    let t = targets.len();
    match said {
        Listed::Refused(e) => printing::refusals::refused_page(e, page),
        Listed::All(n) => lines::formulae_text(entry, &listing, k, t, n, true, page),
        Listed::More(n) => lines::formulae_text(entry, &listing, k, t, n, false, page),
    }
}

// What the Formulae program prints of an entry, on a page.
ghost use Rattle.std.specs.Prelude.{◌≡◌, ◌≤◌, length, take};
ghost use Rattle.problems.specs.Problem.{problem};
ghost use Rattle.formulae_program.specs.entry_parts.EntryPages.{entry_told, plan_text};
ghost use Rattle.printing.specs.fields.Written.{written_in};
ghost use Rattle.printing.specs.pages.Printed.{page_answer, seen_printed};
ghost use Rattle.printing.specs.refusals.Pages.{part_page};

use super::plan::Plan;
use printing::pages::Printed;
use words::first_words;

// What is printed of an entry with these rows, from the start of a page; its length. Targets that no problem has, none or more than 64, are refused by 5.
fn put_entry(entry: u64, gens: &[u64], targets: &[u64], rows: &[u64], page: &mut [u8]) -> usize
    requires { length page.old ≡ part_page }
    ensures { (take result page.new ≡ entry_told entry (problem gens.now targets.now) rows.now) × (result ≤ part_page) }
{
    if targets.len() == 0 {
        return printing::refusals::refused_page(5, page);
    }
    if targets.len() > kinds::TARGETS {
        return printing::refusals::refused_page(5, page);
    }
    formulae_text::entry_formulae(entry, gens, targets, rows, page)
}

// What is printed of entry i goes to a lent page, the rest of which stays as it was; a page that is too short is refused by 9. 278,528 bytes are
// always enough. The entry is what the look-up of i gives: one that the plan does not show has no rows.
pub fn entry_page(
    plan: Plan,
    i: usize,
    gs: &[u64],
    ts: &[u64],
    listing: &[u64],
    page: &mut [u8],
) -> Printed
    ensures { (page_answer (plan_text plan gs.now ts.now listing.now i) page.old ≡ seen_printed result)
        × (page.new ≡ written_in (plan_text plan gs.now ts.now listing.now i) page.old)
        × (length (plan_text plan gs.now ts.now listing.now i) ≤ part_page) }
{
    let rows = records::lookup::rows(listing, plan.ell, plan.k, plan.shown as u64, i as u64);
    let mut whole = printing::pages::part_page();
    let n = put_entry(
        i as u64,
        first_words(gs, plan.generators),
        first_words(ts, plan.targets),
        rows,
        &mut whole,
    );
    printing::pages::print_page(&whole[..n], page)
}

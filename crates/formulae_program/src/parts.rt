// What the Formulae program prints, part by part: the first lines, then the entries.
ghost use Rattle.std.specs.Prelude.{◌≡◌, ◌≤◌, length, ltb};
ghost use Rattle.formulae_program.specs.parts.Parts.{part_count, part_text};
ghost use Rattle.printing.specs.fields.Written.{written_in};
ghost use Rattle.printing.specs.pages.Printed.{page_answer, seen_printed};
ghost use Rattle.printing.specs.refusals.Pages.{part_page};

use super::plan::Started;
use printing::pages::Printed;

// Whether there is a part i of what is printed after `start` has said `said`.
pub fn is_part(said: Started, i: usize) -> bool
    ensures { result ≡ ltb i (part_count said) }
{
    match said {
        Started::Refused(e) => i == 0,
        Started::Listed(plan) => i <= plan.shown,
    }
}

// Part i goes to a lent page, the rest of which stays as it was; a page that is too short is refused by 9. 278,528 bytes are always enough. Behind the
// last part there is nothing to print.
pub fn part_page(
    said: Started,
    i: usize,
    gs: &[u64],
    ts: &[u64],
    listing: &[u64],
    page: &mut [u8],
) -> Printed
    ensures { (page_answer (part_text said gs.now ts.now listing.now i) page.old ≡ seen_printed result)
        × (page.new ≡ written_in (part_text said gs.now ts.now listing.now i) page.old)
        × (length (part_text said gs.now ts.now listing.now i) ≤ part_page) }
{
    if i == 0 {
        return super::first_part::first_page(said, page);
    }
    match said {
        Started::Refused(e) => printing::pages::print_page(&[], page),
        Started::Listed(plan) => super::entry_parts::entry_page(plan, i - 1, gs, ts, listing, page),
    }
}

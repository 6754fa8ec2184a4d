// A problem's Catalogue as text on a page.
// report     its lines, from the numbers
// The program: `programs`.
#![tactic(auto)]

ghost use Rattle.std.specs.Prelude.{◌≡◌, ◌≤◌, length, take};
ghost use Rattle.problems.specs.Problem.{problem};
ghost use Rattle.problems.proofs.Theorems.{Few};
ghost use Rattle.catalogue_text.specs.CatalogueAnswers.{catalogue_reply};
ghost use Rattle.printing.specs.refusals.Pages.{reply_page};

use catalogue::Catalogued;
use kinds::Shape;

pub mod report;

// What the Catalogue program prints of a posed problem of that kind and sizes, from the start of a page; its length.
pub fn catalogue_reply(
    shape: Shape,
    k: u64,
    gens: &[u64],
    targets: &[u64],
    page: &mut [u8],
) -> usize
    requires { (length page.old ≡ reply_page) × Few (problem gens.now targets.now) }
    ensures { (take result page.new ≡ catalogue_reply shape k (problem gens.now targets.now)) × (result ≤ reply_page) }
{
    let mut listing = [0u64; text::PROGRAM_WORDS];
    let said = catalogue::catalogue_of(gens, targets, k, &mut listing);
    match said {
        Catalogued::Refused(e) => printing::refusals::refused_page(e, page),
        Catalogued::Entries(ell, found, shown) => report::catalogue_text(
            shape, k, ell as u64, found, shown, &listing, page,
        ),
    }
}

// What the Formulae program prints of an input first, and the plan of what is left.
ghost use Rattle.std.specs.Prelude.{◌≡◌, ◌≤◌, length, take, ◌||◌, ltb};
ghost use Rattle.printing.specs.fields.Piece.{Piece};
ghost use Rattle.printing.specs.fields.Written.{written_in};
ghost use Rattle.printing.specs.pages.Printed.{page_answer, seen_printed};
ghost use Rattle.printing.specs.refusals.Pages.{part_page};
ghost use Rattle.kinds.specs.Limits.{most_generators, most_targets};
ghost use Rattle.problems.specs.Problem.{problem};
ghost use Rattle.problems.proofs.Theorems.{Few};
ghost use Rattle.formulae_program.specs.first_part.Listed.{formulae_head};
ghost use Rattle.formulae_program.specs.first_part.Starts.{Planned, Starts, first_text};

use super::plan::{Plan, Started};
use catalogue::Catalogued;
use kinds::Shape;
use printing::pages::Printed;
use problem_files::posing::PosedRead;
use words::first_words;

// The plan of a posed problem: its Catalogue goes to the listing, its forms to the start of gs and ts, which are 0 where it is refused.
fn plan_problem(
    shape: Shape,
    k: u64,
    gens: &[u64],
    targets: &[u64],
    gs: &mut [u64],
    ts: &mut [u64],
    listing: &mut [u64],
) -> Started
    requires { Few (problem gens.now targets.now) × (most_generators ≤ length gs.old) × (most_targets ≤ length ts.old) }
    ensures { Planned shape k (problem gens.now targets.now) gs.old ts.old listing.old
        result gs.new ts.new listing.new }
{
    match catalogue::catalogue_of(gens, targets, k, listing) {
        Catalogued::Refused(e) => {
            words::clear(gs);
            words::clear(ts);
            Started::Refused(e)
        }
        Catalogued::Entries(ell, found, shown) => {
            words::copy(gens, gs, 0);
            words::copy(targets, ts, 0);
            Started::Listed(Plan {
                shape: shape,
                k: k,
                ell: ell as u64,
                found: found,
                shown: shown,
                generators: gens.len(),
                targets: targets.len(),
            })
        }
    }
}

// Whether buffers of c and u words are too short for the generators and targets of some problem.
fn too_short(c: usize, u: usize) -> bool
    ensures { result ≡ (ltb c most_generators || ltb u most_targets) }
{
    if c < kinds::GENERATORS {
        return true;
    }
    u < kinds::TARGETS
}

// Reads an input and lists its problem's entries: the plan, with the problem's generators and targets in gs and ts and its Catalogue in the listing, or a
// refusal. Fewer than 4,095 words for the generators, or 64 for the targets, are refused by 9.
pub fn start(file: &[u8], gs: &mut [u64], ts: &mut [u64], listing: &mut [u64]) -> Started
    ensures { Starts file.now gs.old ts.old listing.old
        result gs.new ts.new listing.new }
{
    if too_short(gs.len(), ts.len()) {
        words::clear(gs);
        words::clear(ts);
        return Started::Refused(9);
    }
    let mut costs = [0u64; kinds::GENERATORS];
    let mut g = [0u64; kinds::GENERATORS];
    let mut t = [0u64; kinds::TARGETS];
    match problem_files::inputs::pose_input(file, &mut costs, &mut g, &mut t) {
        PosedRead::Refused(e) => {
            words::clear(gs);
            words::clear(ts);
            Started::Refused(e)
        }
        PosedRead::Problem(shape, k, c, u) => plan_problem(
            shape,
            k,
            first_words(&g, c),
            first_words(&t, u),
            gs,
            ts,
            listing,
        ),
    }
}

// Catalogue's first two lines and the names of a formula's line, from the start of a buffer, as far as there is room; their length.
fn put_head(shape: Shape, k: u64, ell: u64, found: u64, shown: u64, out: &mut [u8]) -> usize
    ensures { Piece out.old 0 (formulae_head shape k ell found shown) 210 out.new result }
{
    let a = catalogue_text::report::put_counts(shape, k, ell, found, shown, out);
    printing::put_bytes(b"entry,formula,products,rows\n", out, a)
}

// What is printed first of what `start` said, from the start of a buffer; its length.
fn put_first(said: Started, out: &mut [u8]) -> usize
    requires { length out.old ≡ 256 }
    ensures { (take result out.new ≡ first_text said) × (result ≤ 210) }
{
    match said {
        Started::Refused(e) => printing::refusals::refused_page(e, out),
        Started::Listed(x) => {
            let shape = x.shape;
            put_head(shape, x.k, x.ell, x.found, x.shown as u64, out)
        }
    }
}

// What is printed first goes to a lent page, the rest of which stays as it was; a page that is too short is refused by 9. 278,528 bytes are always
// enough.
pub fn first_page(said: Started, page: &mut [u8]) -> Printed
    ensures { (page_answer (first_text said) page.old ≡ seen_printed result) × (page.new ≡ written_in (first_text said) page.old)
        × (length (first_text said) ≤ part_page) }
{
    let mut first = [0u8; 256];
    let n = put_first(said, &mut first);
    printing::pages::print_page(&first[..n], page)
}

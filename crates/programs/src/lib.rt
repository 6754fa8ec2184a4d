// What the Catalogue and Rank programs print of an input.
// meaning    (specs) an accepted input is answered, and what the answer means. Start at Theorems.antt
// Reading and writing is left to the programs, `bilinear_catalogue` and `bilinear_rank`.
#![tactic(auto)]

ghost use Rattle.std.specs.Prelude.{◌≡◌, ◌≤◌, length, take};
ghost use Rattle.problems.specs.Problem.{problem};
ghost use Rattle.problems.proofs.Theorems.{Few};
ghost use Rattle.problems.specs.prices.Prices.{prices};
ghost use Rattle.rank_text.specs.RankAnswers.{rank_reply};
ghost use Rattle.programs.specs.Programs.{Pricing, reply_on, problem_program, catalogue_program, rank_program};
ghost use Rattle.printing.specs.refusals.Pages.{reply_page};
ghost use Rattle.printing.specs.fields.Written.{written_in};
ghost use Rattle.printing.specs.pages.Printed.{page_answer, seen_printed};

use kinds::Shape;
use printing::pages::Printed;
use problem_files::judging::Purpose;
use problem_files::posing::PosedRead;
use words::first_words;

// What Rank prints of a posed problem of that kind and sizes, its generators priced first, from the start of a page; its length.
fn priced_reply(
    shape: Shape,
    k: u64,
    gens: &[u64],
    targets: &[u64],
    costs: &[u64],
    page: &mut [u8],
) -> usize
    requires { (length page.old ≡ reply_page) × Few (problem gens.now targets.now) × Pricing shape costs.now gens.now }
    ensures { (take result page.new ≡ rank_reply shape k (problem gens.now targets.now) (prices shape costs.now))
        × (result ≤ reply_page) }
{
    let n = gens.len();
    let mut v = [0u64; kinds::GENERATORS];
    problems::prices::fill_prices(shape, costs, n, &mut v);
    rank_text::rank_reply(shape, k, gens, targets, first_words(&v, n), page)
}

// What is printed of a posed problem of that kind and sizes, from the start of a page; its length.
fn reply(
    purpose: Purpose,
    shape: Shape,
    k: u64,
    gens: &[u64],
    targets: &[u64],
    costs: &[u64],
    page: &mut [u8],
) -> usize
    requires { (length page.old ≡ reply_page) × Few (problem gens.now targets.now) × Pricing shape costs.now gens.now }
    ensures { (take result page.new ≡ reply_on purpose shape k (problem gens.now targets.now) costs.now)
        × (result ≤ reply_page) }
{
    match purpose {
        Purpose::Catalogue => catalogue_text::catalogue_reply(shape, k, gens, targets, page),
        Purpose::Rank => priced_reply(shape, k, gens, targets, costs, page),
    }
}

// What is printed of an input, from the start of a page that takes every reply; its length.
fn problem_program(purpose: Purpose, file: &[u8], page: &mut [u8]) -> usize
    requires { length page.old ≡ reply_page }
    ensures { (take result page.new ≡ problem_program purpose file.now) × (result ≤ reply_page) }
{
    let mut costs = [0u64; kinds::GENERATORS];
    let mut g = [0u64; kinds::GENERATORS];
    let mut t = [0u64; kinds::TARGETS];
    match problem_files::inputs::pose_input(file, &mut costs, &mut g, &mut t) {
        PosedRead::Refused(e) => printing::refusals::refused_page(e, page),
        PosedRead::Problem(shape, k, c, u) => {
            let kind = shape.kind;
            let handed = kinds::handed(kind, shape.q) as usize;
            reply(
                purpose,
                shape,
                k,
                first_words(&g, c),
                first_words(&t, u),
                first_words(&costs, handed),
                page,
            )
        }
    }
}

// What is printed of an input goes to a lent page, the rest of which stays as it was; a page that is too short is refused by 9. 196,608 bytes
// are always enough.
fn print_program(purpose: Purpose, file: &[u8], page: &mut [u8]) -> Printed
    ensures { (page_answer (problem_program purpose file.now) page.old ≡ seen_printed result)
        × (page.new ≡ written_in (problem_program purpose file.now) page.old)
        × (length (problem_program purpose file.now) ≤ reply_page) }
{
    let mut whole = printing::pages::reply_page();
    let n = problem_program(purpose, file, &mut whole);
    printing::pages::print_page(&whole[..n], page)
}

// What the Catalogue program prints of an input goes to a lent page, likewise.
pub fn catalogue_program(file: &[u8], page: &mut [u8]) -> Printed
    ensures { (page_answer (catalogue_program file.now) page.old ≡ seen_printed result)
        × (page.new ≡ written_in (catalogue_program file.now) page.old)
        × (length (catalogue_program file.now) ≤ reply_page) }
{
    print_program(Purpose::Catalogue, file, page)
}

// What the Rank program prints of an input goes to a lent page, likewise.
pub fn rank_program(file: &[u8], page: &mut [u8]) -> Printed
    ensures { (page_answer (rank_program file.now) page.old ≡ seen_printed result)
        × (page.new ≡ written_in (rank_program file.now) page.old)
        × (length (rank_program file.now) ≤ reply_page) }
{
    print_program(Purpose::Rank, file, page)
}

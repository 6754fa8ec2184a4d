// A problem's Rank as text on a page.
// report     its lines, from the numbers
// The program: `programs`.
#![tactic(auto)]

ghost use Rattle.std.specs.Prelude.{◌≡◌, false, ◌+◌, ◌≤◌, length, take, drop};
ghost use Rattle.printing.specs.fields.Piece.{Piece};
ghost use Rattle.rank_text.specs.report.RankReports.{rank_text};
ghost use Rattle.rank_text.specs.RankAnswers.{rank_reply};
ghost use Rattle.text.specs.Limits.{program_words};
ghost use Rattle.kinds.specs.Limits.{cost_bits};
ghost use Rattle.words.specs.Masks.{wide};
ghost use Rattle.printing.specs.refusals.Pages.{reply_page};
ghost use Rattle.problems.specs.Problem.{problem};
ghost use Rattle.problems.proofs.Theorems.{Few};

use kinds::Shape;
use rank::fewest::Ranked;

pub mod report;

// What Rank prints with a number n, whose formula's numbers and rows for t targets stand at the start of a buffer.
fn put_formula(
    shape: Shape,
    k: u64,
    ell: u64,
    n: usize,
    t: usize,
    formula: &[u64],
    page: &mut [u8],
) -> usize
    requires { (length formula.now ≡ program_words) × (n + t ≤ program_words) }
    ensures { Piece page.old 0 (rank_text shape k ell (take n formula.now) (take t (drop n formula.now))) 86188
        page.new result }
{
    report::rank_text(shape, k, ell, &formula[..n], &formula[n..n + t], page)
}

// What the Rank program prints of a posed problem of that kind and sizes, from the start of a page; its length.
pub fn rank_reply(
    shape: Shape,
    k: u64,
    gens: &[u64],
    targets: &[u64],
    prices: &[u64],
    page: &mut [u8],
) -> usize
    requires { (length page.old ≡ reply_page) × Few (problem gens.now targets.now) × (length prices.now ≡ length gens.now)
        × (wide cost_bits prices.now ≡ false) }
    ensures { (take result page.new ≡ rank_reply shape k (problem gens.now targets.now) prices.now)
        × (result ≤ reply_page) }
{
    let mut formula = [0u64; text::PROGRAM_WORDS];
    let b = bases::basis_of(targets);
    let ell = b.len as u64;
    let said = rank::rank_posed(gens, targets, prices, b, k, &mut formula);
    match said {
        Ranked::Refused(e) => printing::refusals::refused_page(e, page),
        Ranked::Is(n) => put_formula(shape, k, ell, n, targets.len(), &formula, page),
        Ranked::Above => report::far_rank_text(shape, k, ell, true, page),
        Ranked::Beyond => report::far_rank_text(shape, k, ell, false, page),
    }
}

// Reading a problem's file into lent buffers: the outcome for every byte string.
// list_lines     the lines of a list's file under the first two
// handed_forms   the forms and costs that the lines hand in
// posing         the problem that they pose: refusals 1 to 7
// judging        the problem judged for what is asked of it: refusals 8 and 9
// inputs         the input of a program that answers a problem
// The first two lines: `text::heads`. The problem itself: `problems`.
#![tactic(auto)]

ghost use Rattle.std.specs.Prelude.{◌≡◌, length};
ghost use Rattle.problem_files.specs.ProblemFile.{problem_file};
ghost use Rattle.problem_files.specs.Lent.{problem_reply, problem_read_numbers, problem_read_values, generators_of, targets_of, costs_of};
ghost use Rattle.kinds.specs.Numbers.{reply_numbers};

use judging::{ProblemRead, Purpose};
use words::first_words;

pub mod handed_forms;
pub mod inputs;
pub mod judging;
pub mod list_lines;
pub mod posing;

// Reads a problem's file: the first refusal that applies, and all three buffers 0; or the problem, with the forms of a list, generators in gs and
// targets in ts, and the generators' costs in cs, each from the buffer's start.
pub fn read_problem(
    file: &[u8],
    purpose: Purpose,
    gs: &mut [u64],
    ts: &mut [u64],
    cs: &mut [u64],
) -> ProblemRead
    ensures { let o = problem_file purpose file.now (length gs.old) (length ts.old) (length cs.old) in
        (result ≡ problem_reply o) × (gs.new ≡ generators_of o gs.old) × (ts.new ≡ targets_of o ts.old)
        × (cs.new ≡ costs_of o cs.old) × (problem_read_numbers result ≡ reply_numbers 5 problem_read_values o) }
{
    let mut a = [0u64; kinds::GENERATORS];
    let mut b = [0u64; kinds::TARGETS];
    let mut costs = [0u64; kinds::GENERATORS];
    let mut g = [0u64; kinds::GENERATORS];
    let mut t = [0u64; kinds::TARGETS];
    let said = posing::pose_file(file, &mut a, &mut b, &mut costs, &mut g, &mut t);
    match judging::settle(purpose, gs.len(), ts.len(), cs.len(), said, &t) {
        ProblemRead::Refused(e) => {
            words::clear(gs);
            words::clear(ts);
            words::clear(cs);
            ProblemRead::Refused(e)
        }
        ProblemRead::Problem(shape, k) => {
            let kind = shape.kind;
            let c = kinds::handed(kind, shape.q) as usize;
            let d = kinds::handed(kind, shape.r) as usize;
            words::copy(first_words(&a, c), gs, 0);
            words::copy(first_words(&b, d), ts, 0);
            words::copy(first_words(&costs, c), cs, 0);
            ProblemRead::Problem(shape, k)
        }
    }
}

// The input of a program that answers a problem.
ghost use Rattle.std.specs.Prelude.{◌≡◌, length, ◌≤◌};
ghost use Rattle.problem_files.specs.inputs.Inputs.{input_file};
ghost use Rattle.problem_files.specs.Lent.{problem_reply, problem_read_numbers, problem_read_values, generators_of, targets_of, costs_of};
ghost use Rattle.kinds.specs.Limits.{most_generators, most_targets};
ghost use Rattle.problem_files.specs.inputs.Inputs.{posed_input};
ghost use Rattle.problem_files.specs.posing.Views.{PosesIn};
ghost use Rattle.kinds.specs.Numbers.{reply_numbers};

use super::judging::{ProblemRead, Purpose};
use super::posing::PosedRead;

// Reads the problem of an input of at most 65,536 bytes: the first refusal that applies, and all three buffers 0; or the problem, with the forms of a
// list and its generators' costs from the buffers' start.
pub fn read_input(
    file: &[u8],
    purpose: Purpose,
    gs: &mut [u64],
    ts: &mut [u64],
    cs: &mut [u64],
) -> ProblemRead
    ensures { let o = input_file purpose file.now (length gs.old) (length ts.old) (length cs.old) in
        (result ≡ problem_reply o) × (gs.new ≡ generators_of o gs.old) × (ts.new ≡ targets_of o ts.old)
        × (cs.new ≡ costs_of o cs.old) × (problem_read_numbers result ≡ reply_numbers 5 problem_read_values o) }
{
    if text::FILE_BYTES < file.len() {
        words::clear(gs);
        words::clear(ts);
        words::clear(cs);
        return ProblemRead::Refused(1);
    }
    super::read_problem(file, purpose, gs, ts, cs)
}

// The problem of an input of at most 65,536 bytes: refusals 1 to 7, or its generators and targets from the start of g and t, and the costs that it hands
// in from the start of cs.
pub fn pose_input(file: &[u8], cs: &mut [u64], g: &mut [u64], t: &mut [u64]) -> PosedRead
    requires { (most_generators ≤ length cs.old) × (most_generators ≤ length g.old) × (most_targets ≤ length t.old) }
    ensures { PosesIn (posed_input file.now) cs.new g.new t.new result }
{
    if text::FILE_BYTES < file.len() {
        return PosedRead::Refused(1);
    }
    let mut a = [0u64; kinds::GENERATORS];
    let mut b = [0u64; kinds::TARGETS];
    super::posing::pose_file(file, &mut a, &mut b, cs, g, t)
}

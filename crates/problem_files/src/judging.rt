// A file's problem, judged for what is asked of it: refusals 8 and 9.
ghost use Rattle.std.specs.Prelude.{◌≡◌};
ghost use Rattle.problem_files.specs.judging.Judged.{beyond, short};
ghost use Rattle.problem_files.specs.Lent.{Settled};

use super::posing::PosedRead;
use kinds::Shape;
use words::first_words;

// What is asked of the problem: its Catalogue, or its Rank.
#[derive(Clone, Copy)]
pub enum Purpose {
    Catalogue,
    Rank,
}

// Refusal 8.
fn beyond(purpose: Purpose, k: u64, targets: &[u64]) -> bool
    ensures { result ≡ beyond purpose k targets.now }
{
    match purpose {
        Purpose::Catalogue => bases::basis_of(targets).len as u64 + 6 < k,
        Purpose::Rank => k != 0,
    }
}

// Whether buffers of `first`, `second` and `third` words are too short for the forms and costs handed in, refusal 9.
fn too_short(shape: Shape, first: usize, second: usize, third: usize) -> bool
    ensures { result ≡ short shape first second third }
{
    let kind = shape.kind;
    let n = kinds::handed(kind, shape.q);
    if (first as u64) < n {
        return true;
    }
    if (second as u64) < kinds::handed(kind, shape.r) {
        return true;
    }
    (third as u64) < n
}

// The reply of reading a problem: a refusal's number, or the kind and sizes, and k.
#[derive(Clone, Copy)]
pub enum ProblemRead {
    Refused(u64),
    Problem(Shape, u64),
}

// The reply on a file's problem, whose targets stand at the start of t: refused before, by 8, or by 9, or the problem.
pub fn settle(
    purpose: Purpose,
    first: usize,
    second: usize,
    third: usize,
    said: PosedRead,
    t: &[u64],
) -> ProblemRead
    ensures { Settled purpose first second third said t.now result }
{
    match said {
        PosedRead::Refused(e) => ProblemRead::Refused(e),
        PosedRead::Problem(shape, k, c, u) => {
            if beyond(purpose, k, first_words(t, u)) {
                return ProblemRead::Refused(8);
            }
            if too_short(shape, first, second, third) {
                return ProblemRead::Refused(9);
            }
            ProblemRead::Problem(shape, k)
        }
    }
}

// The problem of a file: refusals 1 to 7, its generators and targets made once.
ghost use Rattle.std.specs.Prelude.{◌≤◌, length};
ghost use Rattle.kinds.specs.Limits.{most_generators, most_targets};
ghost use Rattle.problem_files.specs.handed_forms.ProblemLines.{FormRoom};
ghost use Rattle.problem_files.specs.posing.Posing.{posed_lines, posed_file};
ghost use Rattle.problem_files.specs.posing.Views.{Handed, Poses};

use kinds::Shape;
use problems::Posed;
use words::first_words;

// A refusal's number; or the kind and sizes, k, and the numbers of generators and of targets.
#[derive(Clone, Copy)]
pub enum PosedRead {
    Refused(u64),
    Problem(Shape, u64, usize, usize),
}

// The forms handed in: refusals 3 to 7, or the problem that they pose from the start of g and t.
fn pose_handed(
    shape: Shape,
    k: u64,
    gs: &[u64],
    ts: &[u64],
    g: &mut [u64],
    t: &mut [u64],
) -> PosedRead
    requires { (most_generators ≤ length g.old) × (most_targets ≤ length t.old) }
    ensures { Handed shape k gs.now ts.now g.new t.new result }
{
    match problems::pose_shape(shape, gs, ts, &gs[..0], g, t) {
        Posed::Refused(e) => PosedRead::Refused(e),
        Posed::Are(c, u) => PosedRead::Problem(shape, k, c, u),
    }
}

// The lines under the first two: refusals 4 to 7, or the forms handed in from the start of gs and ts, the costs from the start of cs and the problem from
// the start of g and t.
fn pose_lines(
    shape: Shape,
    k: u64,
    n: u64,
    m: u64,
    s: &[u8],
    gs: &mut [u64],
    ts: &mut [u64],
    cs: &mut [u64],
    g: &mut [u64],
    t: &mut [u64],
) -> PosedRead
    requires { FormRoom shape gs.old ts.old cs.old × (most_generators ≤ length g.old) × (most_targets ≤ length t.old) }
    ensures { Poses (posed_lines shape k n m s.now)
        gs.new ts.new cs.new g.new t.new result }
{
    let e = super::handed_forms::read_lines(shape, n, m, s, gs, ts, cs);
    if e != 0 {
        return PosedRead::Refused(e);
    }
    let kind = shape.kind;
    let c = kinds::handed(kind, shape.q) as usize;
    let d = kinds::handed(kind, shape.r) as usize;
    pose_handed(shape, k, first_words(gs, c), first_words(ts, d), g, t)
}

// The whole file: refusals 1 to 7, or the forms and costs handed in and the problem, likewise.
pub fn pose_file(
    file: &[u8],
    gs: &mut [u64],
    ts: &mut [u64],
    cs: &mut [u64],
    g: &mut [u64],
    t: &mut [u64],
) -> PosedRead
    requires { (most_generators ≤ length gs.old) × (most_targets ≤ length ts.old) × (most_generators ≤ length cs.old)
        × (most_generators ≤ length g.old) × (most_targets ≤ length t.old) }
    ensures { Poses (posed_file file.now) gs.new ts.new cs.new g.new t.new result }
{
    let Some(head) = text::heads::head_lines(file) else {
        return PosedRead::Refused(1);
    };
    let Some(kind) = head.kind else {
        return PosedRead::Refused(2);
    };
    let shape = Shape {
        kind,
        p: head.p,
        q: head.q,
        r: head.r,
    };
    let Some((n, m, _)) = kinds::sizes_of(shape) else {
        return PosedRead::Refused(3);
    };
    pose_lines(shape, head.k, n, m, &file[head.used..], gs, ts, cs, g, t)
}

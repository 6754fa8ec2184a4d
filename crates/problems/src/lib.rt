// A problem on numbers: refusals 2 to 7, then its generators and targets in lent buffers, in the same way for a list and for a map.
// prices   the prices of its generators, in a third buffer
// What is asked of a problem: `selections`, `catalogue`, `rank`, `space_formulae`. Reading one from a file: `problem_files`.
#![tactic(auto)]

ghost use Rattle.std.specs.Prelude.{◌≤◌, length};
ghost use Rattle.maps.specs.form_lists.Fills.{Mapping};
ghost use Rattle.problems.specs.Problem.{listed, mapped, shaped, posed};
ghost use Rattle.problems.specs.Replies.{Laid, PoseAsked};
ghost use Rattle.kinds.specs.Limits.{most_generators, most_targets};

use kinds::Shape;

pub mod prices;

// A refusal's number, or the numbers of generators and of targets.
#[derive(Clone, Copy)]
pub enum Posed {
    Refused(u64),
    Are(usize, usize),
}

// A list of p bits, with 1 to 64 targets: refusals 4 to 7, or its forms copied.
fn pose_list(
    p: u64,
    q: u64,
    r: u64,
    gs: &[u64],
    ts: &[u64],
    others: &[u64],
    g: &mut [u64],
    t: &mut [u64],
) -> Posed
    requires { PoseAsked r g.old t.old }
    ensures { Laid (listed p q r gs.now ts.now others.now) result g.new t.new }
{
    let e = words::lists::list_refusal(p, q, r, gs, ts, others);
    if e != 0 {
        return Posed::Refused(e);
    }
    maps::form_lists::copy_forms(gs, g);
    maps::form_lists::copy_forms(ts, t);
    Posed::Are(gs.len(), ts.len())
}

// A map in n and m variables with u outputs: refusals 4 to 6, or its generators and targets made.
fn pose_map(
    shape: Shape,
    n: u64,
    m: u64,
    u: u64,
    gs: &[u64],
    ts: &[u64],
    others: &[u64],
    g: &mut [u64],
    t: &mut [u64],
) -> Posed
    requires { (most_generators ≤ length g.old) × Mapping shape n m u t.old }
    ensures { Laid (mapped shape n m u gs.now ts.now others.now) result g.new t.new }
{
    let Some(c) = maps::generator_count(n, m) else {
        return Posed::Refused(4);
    };
    let e = words::lists::map_refusal(n * m, gs, ts, others);
    if e != 0 {
        return Posed::Refused(e);
    }
    maps::form_lists::fill_generators(n, m, c, g);
    maps::form_lists::fill_targets(shape, n, m, u, t);
    Posed::Are(c as usize, u as usize)
}

// The problem of that kind and sizes, with the forms of a list and further forms of the same call; its generators and targets from the start of g
// and t. After a refusal nothing is said of what g and t hold.
pub fn pose_shape(
    shape: Shape,
    gs: &[u64],
    ts: &[u64],
    others: &[u64],
    g: &mut [u64],
    t: &mut [u64],
) -> Posed
    requires { (most_generators ≤ length g.old) × (most_targets ≤ length t.old) }
    ensures { Laid (shaped shape gs.now ts.now others.now) result g.new t.new }
{
    let Some((n, m, u)) = kinds::sizes_of(shape) else {
        return Posed::Refused(3);
    };
    let kind = shape.kind;
    if kinds::is_list(kind) {
        return pose_list(shape.p, shape.q, shape.r, gs, ts, others, g, t);
    }
    pose_map(shape, n, m, u, gs, ts, others, g, t)
}

// The problem of the kind with that number and its sizes, likewise.
pub fn pose(
    number: u64,
    p: u64,
    q: u64,
    r: u64,
    gs: &[u64],
    ts: &[u64],
    others: &[u64],
    g: &mut [u64],
    t: &mut [u64],
) -> Posed
    requires { (most_generators ≤ length g.old) × (most_targets ≤ length t.old) }
    ensures { Laid (posed number p q r gs.now ts.now others.now) result g.new t.new }
{
    let Some(kind) = kinds::kind_numbered(number) else {
        return Posed::Refused(2);
    };
    let shape = Shape { kind, p, q, r };
    pose_shape(shape, gs, ts, others, g, t)
}

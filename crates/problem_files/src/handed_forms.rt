// The lines of a problem's file under the first two: the forms and costs handed in.
ghost use Rattle.std.specs.Prelude.{◌≡◌, [], ◌≤◌, length, take};
ghost use Rattle.kinds.specs.Refusal.{refused_by};
ghost use Rattle.problem_files.specs.handed_forms.ProblemLines.{handed_in, list_lines, map_lines, body_of, FormRoom};
ghost use Rattle.kinds.specs.Limits.{most_generators, most_targets};

use kinds::Shape;

// The lines of a list: refusal 4 or 5, or 0 and the forms from the start of g and t, the generators' costs from the start of c.
fn list_lines(q: u64, r: u64, s: &[u8], g: &mut [u64], t: &mut [u64], c: &mut [u64]) -> u64
    requires { (most_generators ≤ length g.old) × (r ≤ length t.old) × (most_generators ≤ length c.old) × (r ≤ most_targets) }
    ensures { list_lines q r s.now ≡ refused_by result (take q g.new, take r t.new, take q c.new) }
{
    if q > kinds::GENERATORS as u64 {
        return 4;
    }
    if super::list_lines::read_list(s, q as usize, r as usize, g, t, c) {
        return 0;
    }
    5
}

// The lines of a map, none: refusal 4 or 5, or 0.
fn map_lines(n: u64, m: u64, s: &[u8]) -> u64
    ensures { map_lines n m s.now ≡ refused_by result ([], [], []) }
{
    let Some(c) = maps::generator_count(n, m) else {
        return 4;
    };
    if 0 < s.len() {
        return 5;
    }
    0
}

// The lines under the first two: refusal 4 or 5, or 0 and the forms handed in from the start of g and t, the costs from the start of c.
pub fn read_lines(
    shape: Shape,
    n: u64,
    m: u64,
    s: &[u8],
    g: &mut [u64],
    t: &mut [u64],
    c: &mut [u64],
) -> u64
    requires { FormRoom shape g.old t.old c.old }
    ensures { body_of shape n m s.now ≡ refused_by result (handed_in shape g.new t.new c.new) }
{
    let kind = shape.kind;
    if kinds::is_list(kind) {
        return list_lines(shape.q, shape.r, s, g, t, c);
    }
    map_lines(n, m, s)
}

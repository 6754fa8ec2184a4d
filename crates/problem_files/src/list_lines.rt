// The lines of a list under the first two, read into lent buffers.
ghost use Rattle.std.specs.Prelude.{◌≡◌, ◌≤◌, length, take};
ghost use Rattle.kinds.specs.Limits.{most_targets};
ghost use Rattle.kinds.specs.Sizes.{given};
ghost use Rattle.text.specs.Views.{bytes_used};
ghost use Rattle.problem_files.specs.list_lines.Roles.{form_and_cost, role_line, role_lines, list_body};
ghost use Rattle.problem_files.specs.list_lines.Views.{seen_role, bytes_role, seen_roles};

// A form that a comma ends and a cost of at most `most` that LF ends, at the front of s: the form, its cost, and the bytes used.
fn form_and_cost(s: &[u8], most: u64) -> Option<(u64, u64, usize)>
    ensures { (form_and_cost most s.now ≡ seen_role s.now result) × (bytes_role result ≤ length s.now) }
{
    let (form, used) = text::field_at(s, b',', 16, 16)?;
    let (cost, v) = text::field_at(&s[used..], b'\n', 10, 5)?;
    if most < cost {
        return None;
    }
    Some((form, cost, used + v))
}

// A line of that role at the front of s, likewise.
fn role_line(s: &[u8], role: u8, most: u64) -> Option<(u64, u64, usize)>
    ensures { (role_line role most s.now ≡ seen_role s.now result) × (bytes_role result ≤ length s.now) }
{
    if s.len() < 2 || s[0] != role || s[1] != b',' {
        return None;
    }
    let (form, cost, used) = form_and_cost(&s[2..], most)?;
    Some((form, cost, 2 + used))
}

// n lines of that role at the front of s, their forms from the start of d and their costs from the start of c: the bytes used.
fn read_roles(
    s: &[u8],
    role: u8,
    most: u64,
    n: usize,
    d: &mut [u64],
    c: &mut [u64],
) -> Option<usize>
    requires { (n ≤ length d.old) × (n ≤ length c.old) }
    ensures { (role_lines role most n s.now ≡ seen_roles s.now (take n d.new) (take n c.new) result)
        × (bytes_used result ≤ length s.now) }
{
    let mut at = 0;
    for i in 0..n {
        let (form, cost, used) = role_line(&s[at..], role, most)?;
        d[i] = form;
        c[i] = cost;
        at += used;
    }
    Some(at)
}

// The lines of a list of q generators and r targets, all of s: their forms from the start of g and t, the generators' costs from the start of c. Where
// the answer is no, that is refusal 5, and nothing is said of what g, t and c hold.
pub fn read_list(s: &[u8], q: usize, r: usize, g: &mut [u64], t: &mut [u64], c: &mut [u64]) -> bool
    requires { (q ≤ length g.old) × (r ≤ length t.old) × (q ≤ length c.old) × (r ≤ most_targets) }
    ensures { list_body q r s.now ≡ given result (take q g.new, take r t.new, take q c.new) }
{
    let Some(used) = text::name_line(s, b"role,form,cost") else {
        return false;
    };
    let Some(v) = read_roles(&s[used..], b'g', kinds::COST, q, g, c) else {
        return false;
    };
    let e = used + v;
    let mut costs = [0u64; kinds::TARGETS];
    let Some(w) = read_roles(&s[e..], b't', 0, r, t, &mut costs) else {
        return false;
    };
    e + w == s.len()
}

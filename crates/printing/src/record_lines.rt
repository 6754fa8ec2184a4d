// The lines of records, numbers and forms, in a lent buffer.
ghost use Rattle.std.specs.Prelude.{◌+◌, ◌*◌, ◌≤◌, length};
ghost use Rattle.printing.specs.fields.Piece.{Piece};
ghost use Rattle.printing.specs.record_lines.RecordLines.{lead_text, lists_text, entry_text, Short};

// Two inner lists, numbers and forms, and the line's end, from place `at` on, as far as there is room; the place after them.
pub fn put_lists(xs: &[u64], ys: &[u64], out: &mut [u8], at: usize) -> usize
    requires { Short xs.now ys.now at 4000000000 }
    ensures { Piece out.old at (lists_text xs.now ys.now) (21 * length xs.now + 21 * length
        ys.now + 4) out.new result }
{
    let a = super::field_lists::put_inner(xs, 10, 20, out, at);
    super::put_byte(out, a, b',');
    let b = super::field_lists::put_inner(ys, 16, 16, out, a + 1);
    super::put_bytes(b"\n", out, b)
}

// A number and a comma, likewise.
pub fn put_lead(n: u64, out: &mut [u8], at: usize) -> usize
    requires { at ≤ 3000000000 }
    ensures { Piece out.old at (lead_text n) 21 out.new result }
{
    let a = super::put_number(n, 10, 20, out, at);
    super::put_byte(out, a, b',');
    a + 1
}

// The line of entry i, likewise.
pub fn put_entry(i: u64, xs: &[u64], ys: &[u64], out: &mut [u8], at: usize) -> usize
    requires { Short xs.now ys.now at 3000000000 }
    ensures { Piece out.old at (entry_text i xs.now ys.now) (21 * length xs.now + 21 * length
        ys.now + 25) out.new result }
{
    let a = put_lead(i, out, at);
    put_lists(xs, ys, out, a)
}

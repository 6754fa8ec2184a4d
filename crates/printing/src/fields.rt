// Pieces of a text in a lent buffer, and a text handed over whole.
ghost use Rattle.std.specs.Prelude.{◌≡◌, ◌≤◌};
ghost use Rattle.printing.specs.fields.Fields.{field_text, sizes_text};
ghost use Rattle.printing.specs.fields.RefusedText.{refused_text};
ghost use Rattle.printing.specs.fields.Piece.{Piece};
ghost use Rattle.printing.specs.fields.Written.{bytes_in, written_in};

use kinds::Shape;

// A comma and a number from place `at` on, as far as there is room; the place after them.
pub fn put_field(n: u64, out: &mut [u8], at: usize) -> usize
    requires { at ≤ 8589934592 }
    ensures { Piece out.old at (field_text n) 21 out.new result }
{
    super::put_byte(out, at, b',');
    super::put_number(n, 10, 20, out, at + 1)
}

// The kind and the four counts, likewise.
pub fn put_sizes(shape: Shape, k: u64, out: &mut [u8], at: usize) -> usize
    requires { at ≤ 4294967296 }
    ensures { Piece out.old at (sizes_text shape k) 89 out.new result }
{
    let a = super::put_kind(shape.kind, out, at);
    let b = put_field(shape.p, out, a);
    let c = put_field(shape.q, out, b);
    let d = put_field(shape.r, out, c);
    put_field(k, out, d)
}

// All of s from the start of a buffer, and its length; nothing and 0 where there is no room.
pub fn deliver(s: &[u8], out: &mut [u8]) -> usize
    ensures { (result ≡ bytes_in s.now out.old) × (out.new ≡ written_in s.now out.old) }
{
    if out.len() < s.len() {
        return 0;
    }
    super::put_bytes(s, out, 0)
}

// A refusal's line from the start of a buffer, as far as there is room; its length.
fn put_refused(n: u64, out: &mut [u8]) -> usize
    ensures { Piece out.old 0 (refused_text n) 29 out.new result }
{
    let a = super::put_bytes(b"refused ", out, 0);
    let b = super::put_number(n, 10, 20, out, a);
    super::put_bytes(b"\n", out, b)
}

// The line of a refusal from the start of `out`, and its length; nothing and 0 where `out` is too short.
pub fn refused_text(n: u64, out: &mut [u8]) -> usize
    ensures { (result ≡ bytes_in (refused_text n) out.old) × (out.new ≡ written_in (refused_text n) out.old) }
{
    let mut page = [0u8; 32];
    let e = put_refused(n, &mut page);
    deliver(&page[..e], out)
}

// Inner lists of a line: numbers separated by spaces.
ghost use Rattle.std.specs.Prelude.{◌≡◌, ◌+◌, ◌*◌, ◌≤◌, length};
ghost use Rattle.printing.specs.fields.Piece.{Piece};
ghost use Rattle.printing.specs.field_lists.Inner.{spaced_text, inner_text, InnerAsked};

// Each number with a space before it, from place `at` on, as far as there is room; the place after them.
fn put_spaced(xs: &[u64], base: u64, most: usize, out: &mut [u8], at: usize) -> usize
    requires { InnerAsked xs.now base most at }
    ensures { Piece out.old at (spaced_text base most xs.now) (21 * length xs.now) out.new result }
{
    let mut e = at;
    for x in xs {
        super::put_byte(out, e, b' ');
        e = super::put_number(*x, base, most, out, e + 1);
    }
    e
}

// The numbers separated by spaces, or `-` where there are none, likewise.
pub fn put_inner(xs: &[u64], base: u64, most: usize, out: &mut [u8], at: usize) -> usize
    requires { InnerAsked xs.now base most (at + 20) }
    ensures { Piece out.old at (inner_text base most xs.now) (21 * length xs.now + 1) out.new result }
{
    let [x, rest @ ..] = xs else {
        return super::put_bytes(b"-", out, at);
    };
    let a = super::put_number(*x, base, most, out, at);
    put_spaced(rest, base, most, out, a)
}

// Printing the reply of a Check.
ghost use Rattle.std.specs.Prelude.{◌≡◌, ◌≤◌};
ghost use Rattle.check_text.specs.replies.CheckText.{verdict_text, check_text};
ghost use Rattle.printing.specs.fields.Piece.{Piece};
ghost use Rattle.printing.specs.fields.Written.{bytes_in, written_in};

use formula_check::verdicts::Verdict;
use kinds::Shape;

// The verdict and the output, likewise.
fn put_verdict(v: Verdict, out: &mut [u8], at: usize) -> usize
    requires { at ≤ 500 }
    ensures { Piece out.old at (verdict_text v) 27 out.new result }
{
    match v {
        Verdict::Right => printing::put_bytes(b",right,-", out, at),
        Verdict::Wrong(t) => {
            let a = printing::put_bytes(b",wrong", out, at);
            printing::fields::put_field(t, out, a)
        }
    }
}

// The two lines of a Check from the start of a buffer, as far as there is room; their length.
fn put_check(shape: Shape, k: u64, v: Verdict, adders: u64, out: &mut [u8]) -> usize
    ensures { Piece out.old 0 (check_text shape k v adders) 173 out.new result }
{
    let a = printing::put_bytes(b"kind,p,q,r,k,verdict,output,adders\n", out, 0);
    let b = printing::fields::put_sizes(shape, k, out, a);
    let c = put_verdict(v, out, b);
    let d = printing::fields::put_field(adders, out, c);
    printing::put_bytes(b"\n", out, d)
}

// The text of a Check's reply from the start of `out`, and its length; nothing and 0 where `out` is too short.
pub fn check_text(shape: Shape, k: u64, v: Verdict, adders: u64, out: &mut [u8]) -> usize
    ensures { (result ≡ bytes_in (check_text shape k v adders) out.old)
        × (out.new ≡ written_in (check_text shape k v adders) out.old) }
{
    let mut page = [0u8; 192];
    let n = put_check(shape, k, v, adders, &mut page);
    printing::fields::deliver(&page[..n], out)
}

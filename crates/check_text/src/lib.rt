// The verdict on a formula that was read, as text in a lent buffer.
// replies    the line of a reply
// For C and for the Check program: `service`.
#![tactic(auto)]

ghost use Rattle.std.specs.Prelude.{◌≡◌};
ghost use Rattle.kinds.specs.Refusal.{accepted};
ghost use Rattle.check_text.specs.CheckAnswers.{admitted_text, reply_of, bytes_of};
ghost use Rattle.formula_check.specs.Buffers.{formula_in, FormulaBuffers};

use kinds::Shape;
use words::first_words;

pub mod replies;

// The reply to a formula that was read: the first k words of a and b are its masks, and rows starts with a row for each output. The bytes of its text,
// written to out, or refusal 9.
pub fn check_reply(
    shape: Shape,
    k: u64,
    a: &[u64],
    b: &[u64],
    rows: &[u64],
    out: &mut [u8],
) -> usize
    requires { FormulaBuffers shape k a.now b.now rows.now }
    ensures { (result ≡ reply_of (accepted (admitted_text (formula_in shape k a.now b.now rows.now))) out.old)
        × (out.new ≡ bytes_of (accepted (admitted_text (formula_in shape k a.now b.now rows.now)))
        out.old) }
{
    let Some((n, m, outputs)) = kinds::sizes_of(shape) else {
        return 3;
    };
    let firsts = first_words(a, k as usize);
    let seconds = first_words(b, k as usize);
    let said = formula_check::judge(
        shape,
        n,
        m,
        firsts,
        seconds,
        first_words(rows, outputs as usize),
    );
    let n = replies::check_text(shape, k, said.verdict, said.adders, out);
    if n == 0 { 9 } else { n }
}

// The calls of `service` for callers in C, under the same names and contracts; include/gijpsando.h describes them.
#![tactic(auto)]

ghost use Rattle.std.specs.Prelude.{◌≡◌};
ghost use Rattle.formula_check.specs.Formula.{check};
ghost use Rattle.check_text.specs.CheckAnswers.{reply_of, bytes_of};
ghost use Rattle.service.specs.Service.{check_file, numbers_reply, numbers_lent};

// Check of a file: what the Check program would print goes to out, and the reply is its length (above 35); or the refusal's number, and out
// is as it was. Too short an out is refused by 9.
#[unsafe(no_mangle)]
pub extern "C" fn gijpsando_check(file: &[u8], out: &mut [u8]) -> usize
    ensures { (result ≡ reply_of (check_file file.now) out.old)
        × (out.new ≡ bytes_of (check_file file.now) out.old) }
{
    service::gijpsando_check(file, out)
}

// Check on numbers and slices: 0 and in reply the verdict (0 right, 1 wrong), the output and the adders; or the refusal's number, and reply
// is as it was. Fewer than 3 words for the reply are refused by 9.
#[unsafe(no_mangle)]
pub extern "C" fn gijpsando_check_numbers(
    kind: u64,
    p: u64,
    q: u64,
    r: u64,
    k: u64,
    a: &[u64],
    b: &[u64],
    rows: &[u64],
    reply: &mut [u64],
) -> u64
    ensures { (result ≡ numbers_reply (check kind p q r k a.now b.now rows.now) reply.old)
        × (reply.new ≡ numbers_lent (check kind p q r k a.now b.now rows.now) reply.old) }
{
    service::gijpsando_check_numbers(kind, p, q, r, k, a, b, rows, reply)
}

// Check for callers in C (`service_c` exports it): one call on a file's bytes, one on numbers. All refusals are made inside; include/gijpsando.h describes them.
// check_program   what the Check program prints of an input
#![tactic(auto)]

ghost use Rattle.std.specs.Prelude.{◌≡◌, length, [], ◌∷◌, ◌≤◌};
ghost use Rattle.formula_check.specs.Formula.{check};
ghost use Rattle.check_text.specs.CheckAnswers.{reply_of, bytes_of};
ghost use Rattle.service.specs.Service.{check_file, numbers_reply, numbers_lent};
ghost use Rattle.words.specs.Buffers.{filled};

use formula_check::Reply;
use formula_check::verdicts::Verdict;
use formula_files::Read;

pub mod check_program;

// Check of a file: what the Check program would print goes to out, and the reply is its length (above 35); or the refusal's number, and out
// is as it was. Too short an out is refused by 9.
pub fn gijpsando_check(file: &[u8], out: &mut [u8]) -> usize
    ensures { (result ≡ reply_of (check_file file.now) out.old)
        × (out.new ≡ bytes_of (check_file file.now) out.old) }
{
    let mut a = [0u64; kinds::PRODUCTS];
    let mut b = [0u64; kinds::PRODUCTS];
    let mut rows = [0u64; kinds::TARGETS];
    match formula_files::read_formula(file, &mut a, &mut b, &mut rows) {
        Read::Refused(e) => e as usize,
        Read::Formula(shape, k) => check_text::check_reply(shape, k, &a, &b, &rows, out),
    }
}

// Three words from the start.
fn put_three(words: &mut [u64], x: u64, y: u64, z: u64)
    requires { 3 ≤ length words.old }
    ensures { words.new ≡ filled (x ∷ y ∷ z ∷ []) words.old }
{
    words[0] = x;
    words[1] = y;
    words[2] = z;
}

// Check on numbers and slices: 0 and in reply the verdict (0 right, 1 wrong), the output and the adders; or the refusal's number, and reply
// is as it was. Fewer than 3 words for the reply are refused by 9.
pub fn gijpsando_check_numbers(
    kind: u64,
    p: u64,
    q: u64,
    r: u64,
    k: u64,
    a: &[u64],
    b: &[u64],
    rows: &[u64],
    reply: &mut [u64],
) -> u64
    ensures { (result ≡ numbers_reply (check kind p q r k a.now b.now rows.now) reply.old)
        × (reply.new ≡ numbers_lent (check kind p q r k a.now b.now rows.now) reply.old) }
{
    match formula_check::check(kind, p, q, r, k, a, b, rows) {
        Reply::Refused(e) => e,
        Reply::Judged(v, w) => {
            if reply.len() < 3 {
                return 9;
            }
            match v {
                Verdict::Right => put_three(reply, 0, 0, w),
                Verdict::Wrong(t) => put_three(reply, 1, t, w),
            }
            0
        }
    }
}

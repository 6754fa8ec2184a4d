// Check on numbers: a formula is admitted (refusals 2, 3 and 5 to 8), then judged: its verdict and its adders.
// sums       the parts of a formula: the forms of its products, the sum that a row names, adders
// sides      the adders of one side's masks, equal ones counted once
// verdicts   what Check finds: right, or the first wrong output
// meaning    (specs) what the reply means, for every choice of input bits
// Reading a formula's file: `formula_files`. The reply as text: `check_text`.
#![tactic(auto)]

ghost use Rattle.std.specs.Prelude.{◌≡◌, ◌||◌, length, ltb};
ghost use Rattle.formula_check.specs.Formula.{first_wrong, formula_of, admit, lists_handed, verdict, check};
ghost use Rattle.formula_check.specs.Refusals.{refusal_of};
ghost use Rattle.words.specs.Masks.{wide, zero_in};
ghost use Rattle.formula_check.specs.sums.Sums.{product_forms};
ghost use Rattle.kinds.specs.Kinds.{kind_numbered};
ghost use Rattle.kinds.specs.Numbers.{reply_numbers};
ghost use Rattle.formula_check.specs.Replies.{seen_admission, seen_reply, check_numbers, check_values, Judging, Fitting};
ghost use Rattle.formula_check.specs.verdicts.Verdicts.{seen_verdict};

use kinds::Shape;
use verdicts::Verdict;

pub mod sides;
pub mod sums;
pub mod verdicts;

// Looks at each row of a map with n and m variables, whose products have the forms handed in.
fn first_wrong(shape: Shape, n: u64, m: u64, forms: &[u64], rows: &[u64]) -> Verdict
    requires { Judging shape n m forms.now rows.now }
    ensures { first_wrong shape n m forms.now rows.now 0 ≡ seen_verdict result }
{
    for (t, row) in rows.iter().enumerate() {
        if sums::row_form(forms, *row) != maps::target(shape, n, m, t as u64) {
            return Verdict::Wrong(t as u64);
        }
    }
    Verdict::Right
}

// The verdict on a formula whose masks and rows fit.
fn verdict_on(shape: Shape, n: u64, m: u64, a: &[u64], b: &[u64], rows: &[u64]) -> Verdict
    requires { Fitting shape n m a.now b.now rows.now }
    ensures { first_wrong shape n m (product_forms n m a.now b.now) rows.now 0 ≡ seen_verdict result }
{
    let mut products = [0u64; kinds::PRODUCTS];
    sums::product_forms(n as usize, m as usize, a, b, &mut products);
    first_wrong(shape, n, m, &products[..a.len()], rows)
}

// What is found of an admitted formula: the verdict and the adders.
#[derive(Clone, Copy)]
pub struct Judgement {
    pub verdict: Verdict,
    pub adders: u64,
}

// The verdict on an admitted formula, and its adders.
pub fn judge(shape: Shape, n: u64, m: u64, a: &[u64], b: &[u64], rows: &[u64]) -> Judgement
    requires { Fitting shape n m a.now b.now rows.now }
    ensures { verdict (formula_of shape n m a.now b.now rows.now) ≡ (seen_verdict result.verdict, result.adders) }
{
    let adders = sides::side_adders(a) + sides::side_adders(b) + sums::adders_of(rows);
    Judgement {
        verdict: verdict_on(shape, n, m, a, b, rows),
        adders,
    }
}

// Whether a mask of a product, or a row, has a bit outside its width.
fn too_wide(n: u64, m: u64, a: &[u64], b: &[u64], rows: &[u64]) -> bool
    ensures { result ≡ (wide n a.now || (wide m b.now || wide (length a.now) rows.now)) }
{
    words::any_wide(a, n) || words::any_wide(b, m) || words::any_wide(rows, a.len() as u64)
}

// Whether a factor is zero.
fn zero_factor(a: &[u64], b: &[u64]) -> bool
    ensures { result ≡ (zero_in a.now || zero_in b.now) }
{
    words::any_zero(a) || words::any_zero(b)
}

// The refusal of a formula with k products whose lists have the right lengths, 6 to 8, or 0: whether a mask or row is too wide, whether a factor is zero.
pub fn refusal(wide: bool, zero: bool, k: usize) -> u64
    ensures { result ≡ refusal_of wide zero k }
{
    if wide {
        6
    } else if zero {
        7
    } else if k > kinds::PRODUCTS {
        8
    } else {
        0
    }
}

// Whether a buffer of la, lb or lr words is too short for k products and u rows.
pub fn too_short(k: usize, u: usize, la: usize, lb: usize, lr: usize) -> bool
    ensures { result ≡ (ltb la k || (ltb lb k || ltb lr u)) }
{
    la < k || lb < k || lr < u
}

// A formula on numbers: a refusal's number, or the kind and sizes, n and m.
#[derive(Clone, Copy)]
pub enum Admission {
    Refused(u64),
    Admitted(Shape, u64, u64),
}

// A formula on numbers and slices, admitted or refused by 2, 3 or 5 to 8: the kind by its number, its sizes, k products by their masks, and a row for each
// output.
pub fn admit(
    number: u64,
    p: u64,
    q: u64,
    r: u64,
    k: u64,
    a: &[u64],
    b: &[u64],
    rows: &[u64],
) -> Admission
    ensures { admit (kind_numbered number) p q r k (lists_handed k a.now b.now rows.now)
        ≡ seen_admission result a.now b.now rows.now }
{
    let Some(kind) = kinds::known_map(kinds::kind_numbered(number)) else {
        return Admission::Refused(2);
    };
    let shape = Shape { kind, p, q, r };
    let Some((n, m, u)) = kinds::sizes_of(shape) else {
        return Admission::Refused(3);
    };
    if a.len() as u64 != k || b.len() as u64 != k || rows.len() as u64 != u {
        return Admission::Refused(5);
    }
    let e = refusal(too_wide(n, m, a, b, rows), zero_factor(a, b), a.len());
    if e != 0 {
        return Admission::Refused(e);
    }
    Admission::Admitted(shape, n, m)
}

// What Check replies: a refusal's number, or the verdict and the adders.
#[derive(Clone, Copy)]
pub enum Reply {
    Refused(u64),
    Judged(Verdict, u64),
}

// Check of a formula on numbers and slices: it is admitted, then judged.
pub fn check(
    number: u64,
    p: u64,
    q: u64,
    r: u64,
    k: u64,
    a: &[u64],
    b: &[u64],
    rows: &[u64],
) -> Reply
    ensures { (check number p q r k a.now b.now rows.now ≡ seen_reply result)
        × (check_numbers result ≡ reply_numbers 3 check_values (check number p q r k a.now b.now rows.now)) }
{
    match admit(number, p, q, r, k, a, b, rows) {
        Admission::Refused(e) => Reply::Refused(e),
        Admission::Admitted(shape, n, m) => {
            let said = judge(shape, n, m, a, b, rows);
            let verdict = said.verdict;
            Reply::Judged(verdict, said.adders)
        }
    }
}

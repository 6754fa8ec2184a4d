// A full product formula turned into a middle product formula.
// turn_refusal    refusals 2 and 3: of which kinds and sizes a formula is turned
// turn_admitted   refusals 12 and 9, and the turned formula in three buffers
// turn            the call on numbers: those of Check between the two
// What the turned formula is, and that it is right exactly if the old one is: specs/.
#![tactic(auto)]

ghost use Rattle.std.specs.Prelude.{◌≡◌, map, ◌≤◌, length};
ghost use Rattle.kinds.specs.Refusal.{refused_by};
ghost use Rattle.kinds.specs.Numbers.{reply_numbers};
ghost use Rattle.words.specs.Masks.{zero_in};
ghost use Rattle.words.specs.Buffers.{filled};
ghost use Rattle.formula_check.specs.Replies.{formula_values};
ghost use Rattle.turning.specs.Turning.{reversed, column, columns, middle_of, turned, turnable, turned_into, turning};
ghost use Rattle.turning.specs.Lent.{turned_reply, turned_numbers, full_of, Words, Lent};

use formula_check::Admission;
use kinds::{Kind, Shape};

// The middle product of n variables a.
pub fn middle(n: u64) -> Shape
    requires { (1 ≤ n) × (n ≤ 64) }
    ensures { result ≡ middle_of n }
{
    Shape {
        kind: Kind::Mid,
        p: n,
        q: 2 * n - 1,
        r: 0,
    }
}

// The refusal of a formula of that kind and those sizes, whatever its products: 2, 3, or 0.
pub fn turn_refusal(known: Option<Kind>, p: u64, q: u64, r: u64) -> u64
    ensures { turnable known p q r ≡ refused_by result tt }
{
    if known != Some(Kind::Poly) {
        return 2;
    }
    let full = Shape {
        kind: Kind::Poly,
        p,
        q,
        r,
    };
    let Some(_) = kinds::sizes_of(full) else {
        return 3;
    };
    if p != q {
        return 3;
    }
    let Some(_) = kinds::sizes_of(middle(p)) else {
        return 3;
    };
    0
}

// The mask reversed in its n bits.
fn reversed(n: usize, x: u64) -> u64
    requires { n ≤ 64 }
    ensures { result ≡ reversed n x }
{
    let mut form = 0u64;
    for i in 0..n {
        if forms::coordinate(x, n - 1 - i) {
            form ^= 1u64 << i;
        }
    }
    form
}

// The column of some masks at place l: bit t from mask t.
fn column(masks: &[u64], l: usize) -> u64
    requires { length masks.now ≤ 64 }
    ensures { result ≡ column masks.now l }
{
    let mut form = 0u64;
    for (t, mask) in masks.iter().enumerate() {
        if forms::coordinate(*mask, l) {
            form ^= 1u64 << t;
        }
    }
    form
}

// Each mask reversed, from the buffer's start.
fn put_reversed(n: usize, masks: &[u64], out: &mut [u64])
    requires { (n ≤ 64) × (length masks.now ≤ length out.old) }
    ensures { out.new ≡ filled (map (reversed n) masks.now) out.old }
{
    for (l, mask) in masks.iter().enumerate() {
        out[l] = reversed(n, *mask);
    }
}

// The columns at the places below c, from the buffer's start.
fn put_columns(masks: &[u64], c: usize, out: &mut [u64])
    requires { (length masks.now ≤ 64) × (c ≤ length out.old) }
    ensures { out.new ≡ filled (columns masks.now c) out.old }
{
    for l in 0..c {
        out[l] = column(masks, l);
    }
}

// Whether some product below k is used by no row.
fn any_unused(rows: &[u64], k: usize) -> bool
    requires { length rows.now ≤ 64 }
    ensures { result ≡ zero_in (columns rows.now k) }
{
    (0..k).any(|l| column(rows, l) == 0)
}

// An admitted full product formula of n by n variables, turned: 12 or 9, and the buffers as they were; or 0, and the turned formula's masks and rows from the
// buffers' start.
pub fn turn_admitted(
    n: usize,
    a: &[u64],
    b: &[u64],
    rows: &[u64],
    u: &mut [u64],
    v: &mut [u64],
    w: &mut [u64],
) -> u64
    requires { Words n a.now b.now rows.now }
    ensures { (turned_into (length u.old) (length v.old) (length w.old)
        (full_of n a.now b.now rows.now)
        ≡ refused_by result (turned (full_of n a.now b.now rows.now)))
        × Lent (turned_into (length u.old) (length v.old) (length w.old)
        (full_of n a.now b.now rows.now)) u.old v.old w.old
        u.new v.new w.new }
{
    let k = a.len();
    if any_unused(rows, k) {
        return 12;
    }
    if formula_check::too_short(k, n, u.len(), v.len(), w.len()) {
        return 9;
    }
    put_reversed(n, a, u);
    put_columns(rows, k, v);
    put_columns(b, n, w);
    0
}

// The reply of the turning: a refusal's number, or the kind and sizes of the turned formula, and k.
#[derive(Clone, Copy)]
pub enum Turned {
    Refused(u64),
    Formula(Shape, u64),
}

// The turning of a formula on numbers and slices, handed in as to Check: refused, and the buffers as they were, or the turned formula's masks and rows
// from the buffers' start.
pub fn turn(
    number: u64,
    p: u64,
    q: u64,
    r: u64,
    k: u64,
    a: &[u64],
    b: &[u64],
    rows: &[u64],
    u: &mut [u64],
    v: &mut [u64],
    w: &mut [u64],
) -> Turned
    ensures { (result ≡ turned_reply (turning number p q r k a.now b.now rows.now
        (length u.old) (length v.old) (length w.old)))
        × Lent (turning number p q r k a.now b.now rows.now
        (length u.old) (length v.old) (length w.old))
        u.old v.old w.old u.new v.new w.new
        × (turned_numbers result ≡ reply_numbers 5 formula_values (turning number p q r k a.now b.now rows.now
        (length u.old) (length v.old) (length w.old))) }
{
    let unfit = turn_refusal(kinds::kind_numbered(number), p, q, r);
    if unfit != 0 {
        return Turned::Refused(unfit);
    }
    match formula_check::admit(number, p, q, r, k, a, b, rows) {
        Admission::Refused(e) => Turned::Refused(e),
        Admission::Admitted(_, n, _) => {
            let e = turn_admitted(n as usize, a, b, rows, u, v, w);
            if e != 0 {
                return Turned::Refused(e);
            }
            Turned::Formula(middle(n), k)
        }
    }
}

// Reading a formula's file into lent buffers: what it gives for every byte string.
// lines      the lines under the first two: products and rows
// refusals   refusals 6 to 9 of a formula that is read
// The first two lines: `text::heads`. Check of what was read: `formula_check`.
#![tactic(auto)]

ghost use Rattle.std.specs.Prelude.{◌≡◌, length};
ghost use Rattle.formula_files.specs.FormulaFile.{formula_file};
ghost use Rattle.formula_files.specs.Lent.{formula_reply, formula_read_numbers, first_of, second_of, rows_lent, Left, Under};
ghost use Rattle.kinds.specs.Numbers.{reply_numbers};
ghost use Rattle.formula_check.specs.Replies.{formula_values};

use kinds::Shape;
use lines::Body;
use text::heads::Head;

pub mod lines;
pub mod refusals;

// Reads the lines of a formula under the first two: the refusal, 5 to 9, or 0, and the buffers are filled.
fn read_under(
    s: &[u8],
    k: usize,
    n: usize,
    m: usize,
    t: usize,
    a: &mut [u64],
    b: &mut [u64],
    d: &mut [u64],
) -> u64
    ensures { Under k n m t s.now a.old b.old d.old a.new b.new d.new result }
{
    let Some(Body { wide, zero }) = lines::read_body(s, k, n, m, t, a, b, d) else {
        return 5;
    };
    refusals::refusal(wide, zero, k, t, a.len(), b.len(), d.len())
}

// The reply of reading a formula: a refusal's number, or the kind and sizes, and k.
#[derive(Clone, Copy)]
pub enum Read {
    Refused(u64),
    Formula(Shape, u64),
}

// The reply; where it is a formula, the buffers are filled.
fn read_whole(s: &[u8], a: &mut [u64], b: &mut [u64], d: &mut [u64]) -> Read
    ensures { (result ≡ formula_reply (formula_file s.now (length a.old) (length b.old) (length d.old)))
        × Left (formula_file s.now (length a.old) (length b.old) (length d.old)) a.old
        b.old d.old a.new b.new d.new }
{
    let Some(head) = text::heads::head_lines(s) else {
        return Read::Refused(1);
    };
    let Some(kind) = kinds::known_map(head.kind) else {
        return Read::Refused(2);
    };
    let Head {
        p,
        q,
        r,
        k,
        used,
        ..
    } = head;
    let shape = Shape { kind, p, q, r };
    let Some((n, m, t)) = kinds::sizes_of(shape) else {
        return Read::Refused(3);
    };
    let e = read_under(
        &s[used..],
        k as usize,
        n as usize,
        m as usize,
        t as usize,
        a,
        b,
        d,
    );
    if e != 0 {
        return Read::Refused(e);
    }
    Read::Formula(shape, k)
}

// Reads a formula's file: the first refusal that applies, and all three buffers 0; or the formula, with its factors and rows from the
// buffers' start.
pub fn read_formula(s: &[u8], a: &mut [u64], b: &mut [u64], rows: &mut [u64]) -> Read
    ensures { (result ≡ formula_reply (formula_file s.now (length a.old) (length b.old) (length rows.old)))
        × (a.new ≡ first_of (formula_file s.now (length a.old) (length b.old) (length rows.old))
        a.old)
        × (b.new ≡ second_of (formula_file s.now (length a.old) (length b.old) (length rows.old))
        b.old)
        × (rows.new ≡ rows_lent (formula_file s.now (length a.old) (length b.old) (length rows.old))
        rows.old)
        × (formula_read_numbers result ≡ reply_numbers 5 formula_values
        (formula_file s.now (length a.old) (length b.old) (length rows.old))) }
{
    let got = read_whole(s, a, b, rows);
    if let Read::Refused(_) = got {
        words::clear(a);
        words::clear(b);
        words::clear(rows);
    }
    got
}

// A formula printed as a file, which `formula_files` reads back (`round_trips`).
// put_formula     from a place of a lent buffer on
// print_formula   from the start of a page, of a formula that buffers hold
#![tactic(auto)]

ghost use Rattle.std.specs.Prelude.{◌≡◌, ◌*◌, ◌≤◌, [], ◌∷◌, length, take};
ghost use Rattle.kinds.specs.Limits.{most_products, most_targets};
ghost use Rattle.text.specs.Line.{comma};
ghost use Rattle.printing.specs.Print.{count_text};
ghost use Rattle.printing.specs.fields.Piece.{Piece};
ghost use Rattle.printing.specs.refusals.Pages.{formula_page};
ghost use Rattle.formula_text.specs.HeadText.{shape_text, file_head};
ghost use Rattle.formula_text.specs.BodyText.{products_text, rows_text};
ghost use Rattle.formula_text.specs.FileText.{formula_text, file_text, FormulaAsked};
ghost use Rattle.formula_check.specs.Buffers.{formula_in, FormulaBuffers};

use kinds::Shape;
use words::first_words;

// A comma and a count of up to four digits from place `at` on, as far as there is room; the place after them.
fn put_count(n: u64, out: &mut [u8], at: usize) -> usize
    requires { at ≤ 4000000 }
    ensures { Piece out.old at (comma ∷ count_text n) 5 out.new result }
{
    printing::put_byte(out, at, b',');
    printing::put_number(n, 10, 4, out, at + 1)
}

// The kind and the four counts of the second line, likewise.
fn put_shape(shape: Shape, k: u64, out: &mut [u8], at: usize) -> usize
    requires { at ≤ 3000000 }
    ensures { Piece out.old at (shape_text shape k) 25 out.new result }
{
    let a = printing::put_kind(shape.kind, out, at);
    let b = put_count(shape.p, out, a);
    let c = put_count(shape.q, out, b);
    let d = put_count(shape.r, out, c);
    put_count(k, out, d)
}

// The first two lines, likewise.
fn put_head(shape: Shape, k: u64, out: &mut [u8], at: usize) -> usize
    requires { at ≤ 2000000 }
    ensures { Piece out.old at (file_head shape k []) 39 out.new result }
{
    let a = printing::put_bytes(b"kind,p,q,r,k\n", out, at);
    let b = put_shape(shape, k, out, a);
    printing::put_bytes(b"\n", out, b)
}

// The line of a product, likewise.
fn put_product(x: u64, y: u64, out: &mut [u8], at: usize) -> usize
    requires { at ≤ 3000000 }
    ensures { Piece out.old at (products_text (x ∷ []) (y ∷ []) []) 34 out.new result }
{
    let a = printing::put_number(x, 16, 16, out, at);
    printing::put_byte(out, a, b',');
    let b = printing::put_number(y, 16, 16, out, a + 1);
    printing::put_bytes(b"\n", out, b)
}

// A line for each product, likewise.
fn put_products(xs: &[u64], ys: &[u64], out: &mut [u8], at: usize) -> usize
    requires { (length xs.now ≡ length ys.now) × (length xs.now ≤ most_products) × (at ≤ 2000000) }
    ensures { Piece out.old at (products_text xs.now ys.now []) (34 * length xs.now) out.new result }
{
    let mut e = at;
    for (x, y) in xs.iter().zip(ys) {
        e = put_product(*x, *y, out, e);
    }
    e
}

// The line of a row, likewise.
fn put_row(z: u64, out: &mut [u8], at: usize) -> usize
    requires { at ≤ 3000000 }
    ensures { Piece out.old at (rows_text (z ∷ []) []) 17 out.new result }
{
    let a = printing::put_number(z, 16, 16, out, at);
    printing::put_bytes(b"\n", out, a)
}

// A line for each row, likewise.
fn put_rows(zs: &[u64], out: &mut [u8], at: usize) -> usize
    requires { (length zs.now ≤ most_targets) × (at ≤ 2000000) }
    ensures { Piece out.old at (rows_text zs.now []) (17 * length zs.now) out.new result }
{
    let mut e = at;
    for z in zs {
        e = put_row(*z, out, e);
    }
    e
}

// The file of a formula with these products and rows, likewise.
pub fn put_formula(
    shape: Shape,
    a: &[u64],
    b: &[u64],
    rows: &[u64],
    out: &mut [u8],
    at: usize,
) -> usize
    requires { FormulaAsked a.now b.now rows.now at }
    ensures { Piece out.old at (formula_text shape a.now b.now rows.now) formula_page out.new result }
{
    let c = put_head(shape, a.len() as u64, out, at);
    let d = printing::put_bytes(b"a,b\n", out, c);
    let e = put_products(a, b, out, d);
    let f = printing::put_bytes(b"row\n", out, e);
    put_rows(rows, out, f)
}

// The file of a formula that buffers hold, from the start of a page that takes it; its length. The first k words of a and b are its masks, and rows starts with
// a row for each output.
pub fn print_formula(
    shape: Shape,
    k: u64,
    a: &[u64],
    b: &[u64],
    rows: &[u64],
    page: &mut [u8],
) -> usize
    requires { FormulaBuffers shape k a.now b.now rows.now × (length page.old ≡ formula_page) }
    ensures { (take result page.new ≡ file_text (formula_in shape k a.now b.now rows.now)) × (result ≤ formula_page) }
{
    let Some((_, _, outputs)) = kinds::sizes_of(shape) else {
        return 0;
    };
    put_formula(
        shape,
        first_words(a, k as usize),
        first_words(b, k as usize),
        first_words(rows, outputs as usize),
        page,
        0,
    )
}

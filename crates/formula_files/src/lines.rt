// Reading the lines of a formula under the first two, into lent buffers.
ghost use Rattle.std.specs.Prelude.{◌≡◌, ◌≤◌, false, length};
ghost use Rattle.formula_files.specs.lines.Formula.{product_line};
ghost use Rattle.formula_files.specs.lines.Views.{seen_product, bytes_product, seen_products, bytes_products, seen_rows, bytes_rows, seen_last, seen_body};
ghost use Rattle.formula_files.specs.lines.Buffered.{products_from, rows_from, products_part, rows_part, run_of_body};

// A line of two masks at the front of s: the masks and the bytes used.
fn product_line(s: &[u8]) -> Option<(u64, u64, usize)>
    ensures { (product_line s.now ≡ seen_product s.now result) × (bytes_product result ≤ length s.now) }
{
    let (x, used) = text::field_at(s, b',', 16, 16)?;
    let (y, v) = text::field_at(&s[used..], b'\n', 16, 16)?;
    Some((x, y, used + v))
}

// Bytes used, whether a factor is too wide, whether one is zero.
#[derive(Clone, Copy)]
pub struct Products {
    pub used: usize,
    pub wide: bool,
    pub zero: bool,
}

// k product lines at the front of s, written to a and b as far as these reach.
fn read_products(
    s: &[u8],
    k: usize,
    n: usize,
    m: usize,
    a: &mut [u64],
    b: &mut [u64],
) -> Option<Products>
    ensures { (products_from n m k s.now 0 a.old b.old false false
        ≡ seen_products s.now a.new b.new result) × (bytes_products result ≤ length s.now) }
{
    let mut at: usize = 0;
    let mut wide = false;
    let mut zero = false;
    for i in 0..k {
        let (x, y, used) = product_line(&s[at..])?;
        words::put_word(a, i, x);
        words::put_word(b, i, y);
        wide = words::wider(words::wider(wide, x, n), y, m);
        zero = words::nil(words::nil(zero, x), y);
        at += used;
    }
    Some(Products {
        used: at,
        wide,
        zero,
    })
}

// The line of the products' names and the k product lines, at the front of s.
fn products_part(
    s: &[u8],
    k: usize,
    n: usize,
    m: usize,
    a: &mut [u64],
    b: &mut [u64],
) -> Option<Products>
    ensures { (products_part n m k s.now a.old b.old
        ≡ seen_products s.now a.new b.new result) × (bytes_products result ≤ length s.now) }
{
    let used = text::name_line(s, b"a,b")?;
    let products = read_products(&s[used..], k, n, m, a, b)?;
    Some(Products {
        used: used + products.used,
        ..products
    })
}

// Bytes used, whether a row is too wide.
#[derive(Clone, Copy)]
pub struct Rows {
    pub used: usize,
    pub wide: bool,
}

// t rows of k bits at the front of s, written to d as far as it reaches.
fn read_rows(s: &[u8], t: usize, k: usize, d: &mut [u64]) -> Option<Rows>
    ensures { (rows_from k t s.now 0 d.old false ≡ seen_rows s.now d.new result)
        × (bytes_rows result ≤ length s.now) }
{
    let mut at: usize = 0;
    let mut wide = false;
    for i in 0..t {
        let (x, used) = text::field_at(&s[at..], b'\n', 16, 16)?;
        words::put_word(d, i, x);
        wide = words::wider(wide, x, k);
        at += used;
    }
    Some(Rows { used: at, wide })
}

// The line of the rows' name and t rows of k bits, all of s: whether a row is too wide.
fn rows_part(s: &[u8], t: usize, k: usize, d: &mut [u64]) -> Option<bool>
    ensures { rows_part k t s.now d.old ≡ seen_last d.new result }
{
    let used = text::name_line(s, b"row")?;
    let rows = read_rows(&s[used..], t, k, d)?;
    let e = used + rows.used;
    if e < s.len() {
        return None;
    }
    Some(rows.wide)
}

// Whether a mask is too wide, whether a factor is zero.
#[derive(Clone, Copy)]
pub struct Body {
    pub wide: bool,
    pub zero: bool,
}

// The lines of a formula with k products and t outputs: all of s.
pub fn read_body(
    s: &[u8],
    k: usize,
    n: usize,
    m: usize,
    t: usize,
    a: &mut [u64],
    b: &mut [u64],
    d: &mut [u64],
) -> Option<Body>
    ensures { run_of_body n m k t s.now a.old b.old d.old
        ≡ seen_body a.new b.new d.new result }
{
    let products = products_part(s, k, n, m, a, b)?;
    let wide = rows_part(&s[products.used..], t, k, d)?;
    Some(Body {
        wide: products.wide || wide,
        zero: products.zero,
    })
}

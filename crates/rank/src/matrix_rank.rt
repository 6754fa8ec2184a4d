// The matrix of a form: its bits cut into rows. A product of a sum of a's and a sum of b's has a matrix of rank at most 1, so a form whose matrix has rank r
// is the sum of no fewer than r of them.
ghost use Rattle.std.specs.Prelude.{◌≡◌, true, [], ◌∷◌, ◌%◌, ◌^◌, ◌<◌};
ghost use Rattle.linear.specs.Span.{Span};
ghost use Rattle.linear.specs.Word.{word};
ghost use Rattle.bases.specs.Basis.{rows_of, Valid};
ghost use Rattle.rank.specs.matrix_rank.Matrix.{Width, Multiples, Product, Products, Ranked, Summed, Bound};

use bases::Basis;

// The lowest row of what is left of a form.
fn lowest(rest: u64, width: usize) -> u64
    requires { width < 64 }
    ensures { result ≡ rest % 2 ^ width }
{
    rest & ((1u64 << width) - 1)
}

// The rank of the form's matrix, with rows of `width` bits.
fn rank_at(form: u64, width: usize) -> usize
    requires { Width width }
    ensures { Ranked width form result }
{
    let mut b = Basis::empty();
    let mut rest = form;
    while rest != 0 {
        b = b.insert(lowest(rest, width));
        rest >>= width;
    }
    b.len
}

// The lowest row that is not 0; 0 if there is none.
fn first_row(form: u64, width: usize) -> u64
    requires { Width width }
{
    let mut rest = form;
    while rest != 0 {
        let row = lowest(rest, width);
        if row != 0 {
            return row;
        }
        rest >>= width;
    }
    0
}

// Whether a row is 0 or `u`.
fn is_multiple(row: u64, u: u64) -> bool
    ensures { result ≡ true → Span word (u ∷ []) row }
{
    row == 0 || row == u
}

// Whether every row of the form is 0 or `u`.
fn has_multiples(form: u64, width: usize, u: u64) -> bool
    requires { Width width }
    ensures { result ≡ true → Multiples width u form }
{
    let mut rest = form;
    while rest != 0 {
        if !is_multiple(lowest(rest, width), u) {
            return false;
        }
        rest >>= width;
    }
    true
}

// Whether the matrix of the form has rank at most 1.
fn is_product(form: u64, width: usize) -> bool
    requires { Width width }
    ensures { result ≡ true → Product width form }
{
    has_multiples(form, width, first_row(form, width))
}

// Whether the matrices of all generators have rank at most 1.
fn are_products(gens: &[u64], width: usize) -> bool
    requires { Width width }
    ensures { result ≡ true → Products width gens.now }
{
    for g in gens {
        if !is_product(*g, width) {
            return false;
        }
    }
    true
}

// A width at which every generator is a product, the least from 2 on; if there is none 1, at which each form is a column.
fn product_width(gens: &[u64]) -> usize
    ensures { Width result × Products result gens.now }
{
    for w in 2..64 {
        if are_products(gens, w) {
            return w;
        }
    }
    1
}

// The sum with row i of the basis, if it has one.
fn with_row(b: Basis, sum: u64, i: usize) -> u64
    requires { Valid b }
    ensures { Span word (rows_of b) sum → Span word (rows_of b) result }
{
    if i < b.len { sum ^ b.rows[i] } else { sum }
}

// The largest matrix rank of a form in the space of `b`. From one sum to the next one row is added or taken away, as in a Gray code.
fn largest_rank(b: Basis, width: usize) -> usize
    requires { Valid b × (b.len < 8) × Width width }
    ensures { Summed b width result }
{
    let end = 1u64 << b.len;
    let mut sum = 0u64;
    let mut best = 0;
    for t in 1..end {
        sum = with_row(b, sum, t.trailing_zeros() as usize);
        best = best.max(rank_at(sum, width));
    }
    best
}

// A number of products below which nothing is computed, for targets with the basis `b`; 0 where it would not exceed their dimension, from which on entries
// are sought: a matrix of 64 bits has rank at most 8, one of w columns at most w.
pub fn least_products(gens: &[u64], b: Basis) -> usize
    requires { Valid b }
    ensures { Bound gens.now b result }
{
    if b.len >= 8 {
        return 0;
    }
    let width = product_width(gens);
    if width <= b.len {
        return 0;
    }
    largest_rank(b, width)
}

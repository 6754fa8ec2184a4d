// Products of a sum of a's and a sum of b's, as forms of 64 coordinates.
ghost use Rattle.std.specs.Prelude.{◌≡◌, ◌-◌, ◌*◌, ◌^◌, min};
ghost use Rattle.forms.specs.products.Product.{product_form};

// The number of coordinates of a form in n and m variables, as far as a word holds them. The product itself could overflow.
fn width(n: usize, m: usize) -> usize
    ensures { result ≡ min (n * m) 64 }
{
    n.saturating_mul(m).min(64)
}

// The word with the lowest m coordinates 1, or with all 64.
fn mask(m: usize) -> u64
    ensures { result ≡ 2 ^ min m 64 - 1 }
{
    if m < 64 {
        (1u64 << m) - 1
    } else {
        0xffff_ffff_ffff_ffff
    }
}

// The product of the sum of those a_i that `a` masks and the sum of those b_j that `b` masks: a row of b's for each a_i, row i from
// coordinate i * m on. Of a form wider than a word the lowest 64 coordinates are kept.
pub fn product(n: usize, m: usize, a: u64, b: u64) -> u64
    ensures { result ≡ product_form n m a b }
{
    let end = width(n, m);
    let row = b & mask(m);
    let mut form = 0u64;
    let mut i = 0usize;
    let mut at = 0usize;
    // By hand: `step_by` may not be asked for steps of m where m is 0, and the test on `at` ends the loop there.
    while at < end {
        if (a >> i) & 1 == 1 {
            form ^= row << at;
        }
        i += 1;
        at += m;
    }
    form
}

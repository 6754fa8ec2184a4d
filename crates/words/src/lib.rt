// Words of 64 bits: lent buffers of them (put, copy, clear), then tests on masks (is a bit outside, is one zero).
// lists    lists handed in: does a form stand twice, which of refusals 4 to 7 applies, is a number outside
// tables   numbers by value: where a value is in a table with open addressing
// What the words mean is left to the callers.
#![tactic(auto)]

ghost use Rattle.std.specs.Prelude.{◌≡◌, ◌||◌, ◌+◌, ◌≤◌, length, set, replicate, take, eqb};
ghost use Rattle.std.proofs.Math.Seq.{paste};
ghost use Rattle.words.specs.Masks.{outside, wide, zero_in};

pub mod lists;
pub mod tables;

// The largest word (`largest_word`).
pub const LARGEST: u64 = 18446744073709551615;

// The word x at place i, where there is one.
pub fn put_word(a: &mut [u64], i: usize, x: u64)
    ensures { a.new ≡ set a.old i x }
{
    if i < a.len() {
        a[i] = x;
    }
}

// Copies `src` into `out`, from place `at` on.
pub fn copy(src: &[u64], out: &mut [u64], at: usize)
    requires { at + length src.now ≤ length out.old }
    ensures { out.new ≡ paste out.old at src.now (length src.now) }
{
    out[at..at + src.len()].copy_from_slice(src);
}

// The first n words; all of them where there are no more.
pub fn first_words(a: &[u64], n: usize) -> &[u64]
    ensures { result.now ≡ take n a.now }
{
    &a[..n.min(a.len())]
}

// The whole of a buffer 0.
pub fn clear(a: &mut [u64])
    ensures { a.new ≡ replicate (length a.old) 0 }
{
    a.fill(0);
}

// w, or x has a bit outside n bits.
pub fn wider(w: bool, x: u64, n: usize) -> bool
    ensures { result ≡ (w || outside n x) }
{
    w || n < 64 && x >> n != 0
}

// z, or x is zero.
pub fn nil(z: bool, x: u64) -> bool
    ensures { result ≡ (z || eqb x 0) }
{
    z || x == 0
}

// Whether some mask has a bit outside its n bits.
pub fn any_wide(masks: &[u64], n: u64) -> bool
    ensures { result ≡ wide n masks.now }
{
    masks.iter().any(|x| wider(false, *x, n as usize))
}

// Whether some mask is zero.
pub fn any_zero(masks: &[u64]) -> bool
    ensures { result ≡ zero_in masks.now }
{
    masks.contains(&0)
}

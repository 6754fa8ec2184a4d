// Along a row: the later pairs of one number with each number after it. The last of these is the number `n` of values, which has none: its value is 0.
ghost use Rattle.std.specs.Prelude.{◌≡◌, suc, ◌≤◌, length, get_or};
ghost use Rattle.std.specs.Int.Bits.{bit_xor};
ghost use Rattle.relations.specs.pairs.Bucket.{bucket_of};
ghost use Rattle.relations.specs.pairs.Pairs.{head_room};
ghost use Rattle.relations.specs.rows.Rows.{Valued, NextFilled};

// The form of the generator with the number `h`, 0 where there is none.
pub fn form_at(gens: &[u64], h: usize) -> u64
    ensures { result ≡ get_or gens.now h 0 }
{
    if h < gens.len() { gens[h] } else { 0 }
}

// The value of the number `h`, 0 from `n` on.
pub fn value_at(v: &[u64], n: usize, h: usize) -> u64
    requires { Valued v.now n }
    ensures { result ≡ get_or v.now h 0 }
{
    if h < n { v[h] } else { 0 }
}

// The head of the bucket of the sum of `x` and the value of `h`.
pub fn head_at(v: &[u64], n: usize, heads: &[u16], x: u64, h: usize) -> usize
    requires { Valued v.now n × (length heads.now ≡ head_room) }
    ensures { result ≡ get_or heads.now (bucket_of (bit_xor x (get_or v.now h 0))) 0 }
{
    heads[super::pairs::bucket(x ^ value_at(v, n, h))] as usize
}

// The first number from `from` on, with a value or `n` itself, where the bucket of its sum with `x` has a pair; `n + 1` where there is none. One short step
// a number: most numbers end here.
pub fn next_filled(v: &[u64], n: usize, heads: &[u16], x: u64, from: usize) -> usize
    requires { Valued v.now n × (length heads.now ≡ head_room) × (from ≤ suc n) }
    ensures { NextFilled v.now n heads.now x from result }
{
    for h in from..n {
        let y = v[h];
        if y != 0 && heads[super::pairs::bucket(x ^ y)] != 0 {
            return h;
        }
    }
    if from <= n && head_at(v, n, heads, x, n) != 0 {
        return n;
    }
    n + 1
}

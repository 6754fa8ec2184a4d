// The pairs of a block of numbers in a table by the sum of their values, with a chain for each bucket; and the numbers that have a value to be summed.
ghost use Rattle.std.specs.Prelude.{◌≡◌, ◌≢◌, true, false, ◌+◌, ◌-◌, ◌*◌, ◌<◌, ◌≤◌, length, replicate};
ghost use Rattle.relations.specs.pairs.Bucket.{bucket_of};
ghost use Rattle.relations.specs.pairs.Pairs.{second_of, link_room, head_room, Stored, Falling, Chained, Headed, Values, Match, MatchFrom};
ghost use Rattle.relations.specs.pairs.Linking.{Linking, Row, BlockEnd};
ghost use Rattle.residues.specs.Room.{search_room};

// The numbers of a block (`block_size`), the places of its pairs (`link_room`) and the buckets (`head_room`).
pub const BLOCK: usize = 8;

pub const LINKS: usize = 32768;

pub const HEADS: usize = 65536;

// The bucket of a sum.
pub fn bucket(v: u64) -> usize
    ensures { (result ≡ bucket_of v) × (result < head_room) }
{
    let lo = v % 262144 * 2654435769;
    let hi = v / 262144 % 262144 * 2246822519;
    ((lo + hi) / 16777216 % HEADS as u64) as usize
}

// The values of the numbers from `start` on that have the weight 1 and are not gone; `v` is all 0 before.
pub fn values(d: &[u64], start: usize, w: &[u8], gone: &[u8], v: &mut [u64])
    requires { (start ≤ length d.now) × (length d.now ≤ search_room) × (length w.now ≡ search_room) × (length gone.now ≡ search_room)
        × (v.old ≡ replicate search_room 0) }
    ensures { Values d.now start w.now gone.now v.new }
{
    for i in start..d.len() {
        if w[i] == 1 && gone[i] == 0 {
            v[i] = d[i];
        }
    }
}

// The pairs of the number `i` of the block with each later number, behind those of the block's earlier numbers.
fn link_row(v: &[u64], n: usize, base: usize, i: usize, heads: &mut [u16], links: &mut [u16])
    requires { Row v.now n base i × Linking v.now n base ((i - base) * 4096) heads.old links.old }
    ensures { Linking v.now n base ((i + 1 - base) * 4096) heads.new links.new }
{
    let z = v[i];
    let at = (i - base) * 4096;
    for j in i + 1..n {
        let y = v[j];
        if y != 0 {
            let q = bucket(z ^ y);
            links[at + j] = heads[q];
            heads[q] = (at + j + 1) as u16;
        }
    }
}

// The number behind the block from `base` on, of `n` numbers.
fn block_end(n: usize, base: usize) -> usize
    requires { (n ≤ search_room) × (base ≤ n) }
    ensures { BlockEnd n base result }
{
    n.min(base + BLOCK)
}

// The table of the pairs of the block from `base` on, of the first `n` values. What `heads` holds before plays no part.
pub fn link(v: &[u64], n: usize, base: usize, heads: &mut [u16], links: &mut [u16])
    requires { (n ≤ search_room) × (length v.now ≡ search_room) × (base ≤ n) × (length heads.old ≡ head_room) × (length links.old ≡ link_room)
        × Falling links.old }
    ensures { Headed v.now n base heads.new × Chained v.now n base links.new }
{
    heads.fill(0);
    let end = block_end(n, base);
    for i in base..end {
        if v[i] != 0 {
            link_row(v, n, base, i, heads, links);
        }
    }
}

// Whether the pair at the place `x` stands before `g` and has the sum `y`, where its generators' sum with the form `f` is not in the span of the rows `s`.
fn is_match(
    gens: &[u64],
    s: &[u64],
    v: &[u64],
    base: usize,
    g: usize,
    y: u64,
    f: u64,
    x: usize,
) -> bool
    requires { (length gens.now ≤ search_room) × (length v.now ≡ search_room) × Stored v.now (length gens.now) base (bucket_of y) x }
    ensures { (result ≡ false → ¬ Match gens.now s.now v.now base g y f x) × (result ≡ true → second_of x < g) }
{
    let i = base + x / 4096;
    let j = x % 4096;
    v[i] ^ v[j] == y && j < g && forms::reduce_rows(s, gens[i] ^ gens[j] ^ f) != 0
}

// The first pair, from the pointer `e` on along its chain, that stands before `g` and has the sum `y`, where its generators' sum with the form `f` is not in
// the span of the rows `s`: its pointer, or 0 where there is none.
pub fn next_match(
    gens: &[u64],
    s: &[u64],
    v: &[u64],
    base: usize,
    g: usize,
    y: u64,
    f: u64,
    e: usize,
    links: &[u16],
) -> usize
    requires { (length gens.now ≤ search_room) × (length v.now ≡ search_room) × (length links.now ≡ link_room)
        × Chained v.now (length gens.now) base links.now × (e ≢ 0 → Stored v.now (length gens.now) base (bucket_of y) (e - 1)) }
    ensures { MatchFrom gens.now s.now v.now base g y f e result }
{
    let mut p = e;
    while p != 0 {
        if is_match(gens, s, v, base, g, y, f, p - 1) {
            return p;
        }
        p = links[p - 1] as usize;
    }
    0
}

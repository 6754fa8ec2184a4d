// Where a search goes along short relations, and of how many values.
ghost use Rattle.std.specs.Prelude.{◌≤◌};
ghost use Rattle.sieve.specs.heavy_search.Relate.{RelationSize, Counting};

use bases::Basis;
use words::first_words;

// Of how many values a relation is sought where `missing` dimensions are missing and `n` of `k` dimensions are there: 3 or at most 4 where the generators
// that are needed are so many that every space has one, and 0 where heavy values are enough, or must do.
fn relation_size(k: usize, n: usize, missing: usize) -> usize
    requires { missing ≤ 8 }
    ensures { RelationSize k n missing result }
{
    if missing < 4 {
        return 0;
    }
    let c = super::heavy_search::needed(k, n);
    let all = 1usize << missing;
    if all <= c {
        return 0;
    }
    if all < c + c {
        return 3;
    }
    if all + all < 2 + c * (c + 1) {
        return 4;
    }
    0
}

// Whether there are no more relations of three values than twice the numbers from `start` on: else it is quicker to look at each number. No promise rests
// on it.
fn few_lines(gens: &[u64], d: &[u64], start: usize, s: Basis, dead: &[u8], w: &[u8]) -> bool
    requires { Counting gens.now d.now start s dead.now w.now }
{
    let n = gens.len();
    let mut v = [0u64; residues::SEARCH_ROOM];
    relations::pairs::values(d, start, w, dead, &mut v);
    let mut heads = [0u16; relations::pairs::HEADS];
    let mut links = [0u16; relations::pairs::LINKS];
    let mut u = relations::first_place(
        gens,
        first_words(&s.rows, s.len),
        &v,
        true,
        start,
        &mut heads,
        &mut links,
    );
    for _ in 0..2 * (n - start) {
        if n <= u.base {
            return true;
        }
        u = relations::next_place(
            gens,
            first_words(&s.rows, s.len),
            &v,
            true,
            u,
            &mut heads,
            &mut links,
        );
    }
    n <= u.base
}

// The same, but 0 where that is 3 and there are many relations of three values. `s` is the basis of the generators in the space of `d`.
pub fn chosen_size(
    gens: &[u64],
    d: &[u64],
    start: usize,
    k: usize,
    missing: usize,
    s: Basis,
    dead: &[u8],
    w: &[u8],
) -> usize
    requires { Counting gens.now d.now start s dead.now w.now × (missing ≤ 8) }
    ensures { RelationSize k s.len missing result }
{
    let size = relation_size(k, s.len, missing);
    if size == 3 && !few_lines(gens, d, start, s, dead, w) {
        0
    } else {
        size
    }
}

// The space beneath a relation: that of some residues with two numbers of three put in, or three of four.
ghost use Rattle.std.specs.Prelude.{◌≡◌, ◌<◌, ◌≤◌, length};
ghost use Rattle.sieve.specs.heavy_search.Relate.{third_row, Descending, Descended};

use bases::Basis;
use relations::Place;
use residues::Taken;

// The value that the third number of the relation at `u` has at the residues `d`, where there is a fourth; else 0.
fn third_row(d: &[u64], u: Place, n: usize) -> u64
    requires { u.g < length d.now }
    ensures { result ≡ third_row d.now u n }
{
    if u.h < n { d[u.g] } else { 0 }
}

// The residues at the space of `d` and the first two generators of the relation at `u`, or, where that has four, the first three, in `mine`; and the basis of
// the generators in it, or that a dead number's is. `s` is the basis of the generators in the space of `d`. What the lent `other` and `mine` hold before
// plays no part.
pub fn descend(
    gens: &[u64],
    d: &[u64],
    u: Place,
    s: Basis,
    gone: &[u8],
    other: &mut [u64],
    mine: &mut [u64],
) -> Taken
    requires { Descending gens.now d.now u s gone.now other.old mine.old }
    ensures { Descended gens.now d.now u gone.now mine.new result }
{
    let n = gens.len();
    let i = u.e - 1;
    residues::child(d, d[u.base + i / 4096], mine);
    let y = mine[i % 4096];
    residues::child(&mine[..n], y, other);
    let z = third_row(other, u, n);
    residues::child(&other[..n], z, mine);
    residues::take(gens, &mine[..n], 0, s, gone)
}

// How many dimensions the relation at `u` puts in.
pub fn depth(u: Place, n: usize) -> usize
    ensures { (u.h < n → result ≡ 3) × (n ≤ u.h → result ≡ 2) }
{
    if u.h < n { 3 } else { 2 }
}

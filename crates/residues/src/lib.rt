// The residues of the generators at a space, what is left of each when the leads of the space's basis are cleared in it: at a space, at its child, those
// with one residue, whether a number is known already, whether generators span the space. A residue is 0 exactly for a generator in the space.
// children   (specs) the spaces over a space, what a search for them gives, and when a child leads nowhere: the theory behind `weights` and `sieve`
#![tactic(auto)]

ghost use Rattle.std.specs.Prelude.{◌≡◌, ◌<◌, ◌≤◌, length, eqb};
ghost use Rattle.linear.specs.Basis.{clear, reduce, inserts, dim};
ghost use Rattle.linear.specs.Word.{word};
ghost use Rattle.bases.specs.Basis.{rows_of, Valid, Holds};
ghost use Rattle.residues.specs.children.Residues.{known, with_residue};
ghost use Rattle.residues.specs.Mapped.{Mapped};
ghost use Rattle.residues.specs.Taking.{Took};
ghost use Rattle.residues.specs.Room.{search_room};

use bases::Basis;

// The arrays of the search have a place for each generator's number (`search_room`).
pub const SEARCH_ROOM: usize = 4096;

// The residues of the generators for the basis `b`.
pub fn residues(gens: &[u64], b: Basis, out: &mut [u64; SEARCH_ROOM])
    requires { (Valid b) × (length gens.now ≤ search_room) × (length out.old ≡ search_room) }
    ensures { Mapped (reduce word (rows_of b)) gens.now out.new }
{
    for (i, g) in gens.iter().enumerate() {
        out[i] = b.reduce(*g);
    }
}

// The residues after a new row, `x`, from those before.
pub fn child(h: &[u64], x: u64, out: &mut [u64])
    requires { (length h.now ≤ search_room) × (length out.old ≡ search_room) }
    ensures { Mapped (clear word x) h.now out.new }
{
    for (i, v) in h.iter().enumerate() {
        out[i] = forms::clear(x, *v);
    }
}

// Whether the generator with the number `j` brings in nothing, or what an earlier one would.
pub fn known(h: &[u64], j: usize) -> bool
    requires { j < length h.now }
    ensures { result ≡ known h.now j }
{
    let v = h[j];
    v == 0 || h[..j].contains(&v)
}

// The basis `s` with the generators of residue `x` put in.
pub fn with_residue(gens: &[u64], h: &[u64], x: u64, s: Basis) -> Basis
    requires { (Valid s) × (length gens.now ≡ length h.now) }
    ensures { Holds (inserts word (rows_of s) (with_residue x gens.now h.now)) result }
{
    let mut b = s;
    for (i, g) in gens.iter().enumerate() {
        if h[i] == x {
            b = b.insert(*g);
        }
    }
    b
}

// Whether the generators in the space span `k` dimensions.
pub fn spanned(gens: &[u64], h: &[u64], k: usize) -> bool
    requires { length gens.now ≡ length h.now }
    ensures { result ≡ eqb (dim word (with_residue 0 gens.now h.now)) k }
{
    with_residue(gens, h, 0, Basis::empty()).len == k
}

// The basis with the generators of one residue put in, or that a flagged number has the residue.
#[derive(Clone, Copy)]
pub struct Taken {
    pub flagged: bool,
    pub basis: Basis,
}

// The basis `s` with the generators of residue `x` put in, unless a flagged number has this residue.
pub fn take(gens: &[u64], h: &[u64], x: u64, s: Basis, flags: &[u8]) -> Taken
    requires { (Valid s) × (length gens.now ≡ length h.now) × (length h.now ≤ length flags.now) }
    ensures { Took gens.now h.now x s flags.now result }
{
    let mut b = s;
    for (i, g) in gens.iter().enumerate() {
        if h[i] == x {
            if flags[i] != 0 {
                return Taken {
                    flagged: true,
                    basis: b,
                };
            }
            b = b.insert(*g);
        }
    }
    Taken {
        flagged: false,
        basis: b,
    }
}

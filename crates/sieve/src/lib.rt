// Which children of a space the walk visits: never one fewer than lead to a space.
// heavy_search     the search for the spaces over a space, along heavy values and short relations
// sizes            where it goes along relations, and of how many values
// descent          the space beneath a relation
// join             the numbers that matter beside a value, where two dimensions are missing
// dead_numbers     the numbers that a search leaves out from the first
// marked_numbers   the next marked number
// docs/SEARCH.md says why nothing is left out. Visiting the children: `catalogue::walk`.
#![tactic(auto)]

ghost use Rattle.std.specs.Prelude.{length};
ghost use Rattle.sieve.specs.Sieve.{Sieving, Sieved};

use bases::Basis;

pub mod dead_numbers;
pub mod descent;
pub mod heavy_search;
pub mod join;
pub mod marked_numbers;
pub mod sizes;

// Marks the numbers from `start` on whose children are to be visited, where `missing` more dimensions make `k`: those by which the walk goes on to
// the spaces that are found over this one. `rows` is lent, what it holds plays no part.
pub fn sieve(
    gens: &[u64],
    h: &[u64],
    start: usize,
    k: usize,
    missing: usize,
    rows: &mut [u64],
    marks: &mut [u8],
)
    requires { Sieving gens.now h.now start missing rows.old marks.old }
    ensures { Sieved gens.now h.now start (length gens.now) k missing marks.new }
{
    let mut flags = [0u8; residues::SEARCH_ROOM];
    dead_numbers::flag_before(h, start, &mut flags);
    let s = residues::with_residue(gens, h, 0, Basis::empty());
    heavy_search::find(gens, h, h, start, k, missing, s, flags, rows, marks);
}

// The formulae of a space, on forms.
ghost use Rattle.space_formulae.specs.spaces.Spaces.{SpaceAccepted, FormulaeTold, Rows};

use bases::Basis;
use choices::Choice;
use records::Tally;

// What is said of a space: a refusal's number; or how many formulae are listed, these being all, or more being left.
#[derive(Clone, Copy)]
pub enum Listed {
    Refused(u64),
    All(usize),
    More(usize),
}

// Whether the rows are the reduced basis of a solution space.
pub fn is_entry(gens: &[u64], targets: &[u64], rows: &[u64]) -> bool
    ensures { Rows gens.now targets.now rows.now result }
{
    let b = bases::basis_of(rows);
    if !bases::spans::has_rows(b, rows) {
        return false;
    }
    if !bases::spans::completes(gens, rows, Basis::empty(), 0) {
        return false;
    }
    !bases::spans::misses(b, targets)
}

// The formulae of a solution space. It stops after the first that does not fit.
pub fn list_space(gens: &[u64], targets: &[u64], rows: &[u64], out: &mut [u64]) -> Listed
    requires { SpaceAccepted gens.now targets.now rows.now }
    ensures { FormulaeTold gens.now targets.now rows.now out.old result out.new }
{
    let k = rows.len();
    let limit = out.len() / (k + targets.len()) + 1;
    let c = Choice {
        numbers: [0u64; kinds::PRODUCTS],
        forms: [0u64; kinds::PRODUCTS],
        len: 0,
    };
    let t = Tally {
        found: 0,
        shown: 0,
        at: 0,
    };
    let counts = super::enumeration::spread(
        gens,
        rows,
        targets,
        0,
        k,
        Basis::empty(),
        c,
        t,
        limit as u64,
        out,
    );
    if counts.found == counts.shown as u64 {
        return Listed::All(counts.shown);
    }
    Listed::More(counts.shown)
}

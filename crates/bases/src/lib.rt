// Reduced bases of forms: the struct `Basis`, by value, with reduction, membership, insertion of a row, and the basis of some forms.
// insertion   a new row among the rows of a reduced basis
// spans       tests on spans: is a target missed, is a generator wanted, does a generator complete a space, are there rows enough
// rows        the products of a formula reduced once, and by them which sum to a form: the rows of the formula
// The theory (one reduced basis for each space) is in `linear`.
#![tactic(auto)]

ghost use Rattle.std.specs.Prelude.{◌≡◌, []};
ghost use Rattle.linear.specs.Basis.{reduce, insert, basis_of};
ghost use Rattle.linear.specs.Entry.{inside};
ghost use Rattle.linear.specs.Word.{word};
ghost use Rattle.bases.specs.Basis.{rows_of, Valid, Holds};

pub mod insertion;
pub mod rows;
pub mod spans;

// The most rows of a basis (`most_rows`).
pub const ROWS: usize = 64;

// A reduced basis: its rows, leads falling, and their number. The words after the rows are 0.
#[derive(Clone, Copy)]
pub struct Basis {
    pub rows: [u64; ROWS],
    pub len: usize,
}

impl Basis {
    // The basis of the space that holds only zero.
    pub fn empty() -> Basis
        ensures { Holds [] result }
    {
        Basis {
            rows: [0u64; ROWS],
            len: 0,
        }
    }

    // What is left of `v` when the leads of the basis are cleared in it.
    pub fn reduce(self, v: u64) -> u64
        requires { Valid self }
        ensures { result ≡ reduce word (rows_of self) v }
    {
        forms::reduce_rows(&self.rows[..self.len], v)
    }

    // Whether `v` is in the span of the basis.
    pub fn contains(self, v: u64) -> bool
        requires { Valid self }
        ensures { result ≡ inside word (rows_of self) v }
    {
        self.reduce(v) == 0
    }

    // The reduced basis of the space that the basis and `v` span. What is left of `v` takes its place among the rows.
    pub fn insert(mut self, v: u64) -> Basis
        requires { Valid self }
        ensures { Holds (insert word (rows_of self) v) result }
    {
        // Not `self.reduce(v)`: that would copy the basis once more.
        let r = forms::reduce_rows(&self.rows[..self.len], v);
        if r != 0 {
            let n = self.len;
            insertion::place(&mut self.rows, n, r);
            self.len = n + 1;
        }
        self
    }
}

// The reduced basis of the space that `xs` span.
pub fn basis_of(xs: &[u64]) -> Basis
    ensures { Holds (basis_of word xs.now) result }
{
    let mut b = Basis::empty();
    for x in xs {
        b = b.insert(*x);
    }
    b
}

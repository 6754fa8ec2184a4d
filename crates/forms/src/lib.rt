// Forms over two elements as words of 64 coordinates: a coordinate, the number of ones, the lead, clearing a row, reduction by rows.
// products   the form of a product of two sums of variables, by their masks
// Bases of forms: `bases`. Which forms are a map's: `maps`.
#![tactic(auto)]

ghost use Rattle.std.specs.Prelude.{◌≡◌};
ghost use Rattle.linear.specs.Basis.{clear, reduce};
ghost use Rattle.linear.specs.Bit.{bit, top};
ghost use Rattle.linear.specs.Word.{word};
ghost use Rattle.forms.specs.Weight.{weight};

pub mod products;

// Coordinate t of a form: 1 is true. A form has no coordinate from 64 on.
pub fn coordinate(form: u64, t: usize) -> bool
    ensures { result ≡ bit form t }
{
    t < 64 && (form >> t) & 1 == 1
}

// How many coordinates of a form are 1.
pub fn ones(x: u64) -> usize
    ensures { result ≡ weight 64 x }
{
    x.count_ones() as usize
}

// The number of the highest coordinate that is 1; 0 for the zero form.
pub fn lead(x: u64) -> usize
    ensures { result ≡ top x }
{
    if x == 0 {
        0
    } else {
        63 - x.leading_zeros() as usize
    }
}

// `v` with the lead of `row` cleared: adding `row` makes `v` smaller exactly if `v` is 1 there.
pub fn clear(row: u64, v: u64) -> u64
    ensures { result ≡ clear word row v }
{
    let w = v ^ row;
    if w < v { w } else { v }
}

// What is left of `v` when the lead of each row is cleared in it, first row first. `clear` is written out: this is the innermost loop.
pub fn reduce_rows(rows: &[u64], v: u64) -> u64
    ensures { result ≡ reduce word rows.now v }
{
    let mut x = v;
    for row in rows {
        let w = x ^ *row;
        if w < x {
            x = w;
        }
    }
    x
}

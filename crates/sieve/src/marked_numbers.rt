// Marked numbers: those whose mark is not 0.
ghost use Rattle.std.specs.Prelude.{◌≤◌, length};
ghost use Rattle.sieve.specs.marked_numbers.Marks.{NextMarked, NextWith};

// The first marked number from `from` on, or `n` if none below it is.
pub fn next_marked(marks: &[u8], from: usize, n: usize) -> usize
    requires { (from ≤ n) × (n ≤ length marks.now) }
    ensures { NextMarked marks.now from n result }
{
    for j in from..n {
        if marks[j] != 0 {
            return j;
        }
    }
    n
}

// The first number from `from` on whose mark is `mark`, or `n` if none below it is.
pub fn next_with(marks: &[u8], mark: usize, from: usize, n: usize) -> usize
    requires { (from ≤ n) × (n ≤ length marks.now) }
    ensures { NextWith marks.now mark from n result }
{
    for i in from..n {
        if marks[i] as usize == mark {
            return i;
        }
    }
    n
}

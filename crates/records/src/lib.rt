// Records of what is found, one after the other in a lent buffer: the numbers of an entry, the count, and an entry kept.
// lookup     the record of an entry in a listing
// Records of formulae: `space_formulae`. What an entry is: `linear`.
#![tactic(auto)]

ghost use Rattle.std.specs.Prelude.{◌≡◌, ◌++◌};
ghost use Rattle.bases.specs.Basis.{rows_of};
ghost use Rattle.records.specs.Records.{note};
ghost use Rattle.records.specs.Keep.{chain_of, state_of, Tidy, Pushed, Counting, tallied, EntryKeeping};

use bases::Basis;

pub mod lookup;

// Generator numbers, ascending, and how many.
#[derive(Clone, Copy)]
pub struct Chain {
    pub numbers: [u64; 8],
    pub len: usize,
}

// How many entries were found and how many of them shown, and the first free place of the buffer.
#[derive(Clone, Copy)]
pub struct Tally {
    pub found: u64,
    pub shown: usize,
    pub at: usize,
}

// One number more.
pub fn push(c: Chain, j: usize) -> Chain
    requires { Tidy c 1 }
    ensures { Pushed c j result }
{
    let mut numbers = c.numbers;
    let n = c.len;
    numbers[n] = j as u64;
    Chain {
        numbers,
        len: n + 1,
    }
}

// The counts with one record more, of `size` words, in a buffer of `room` words: none where the limit is reached; it is shown where it fits.
pub fn count(t: Tally, limit: u64, size: usize, room: usize) -> Tally
    requires { Counting t limit room }
    ensures { result ≡ tallied limit t size room }
{
    if t.found == limit {
        return t;
    }
    if room - t.at < size {
        return Tally {
            found: t.found + 1,
            ..t
        };
    }
    Tally {
        found: t.found + 1,
        shown: t.shown + 1,
        at: t.at + size,
    }
}

// Counts the entry and writes its record where it fits: its numbers, then the rows of its basis.
pub fn keep(b: Basis, c: Chain, t: Tally, limit: u64, out: &mut [u64]) -> Tally
    requires { EntryKeeping b c t limit out.old }
    ensures { state_of result out.new ≡ note limit (state_of t out.old) (chain_of c ++ rows_of b) }
{
    let r = count(t, limit, c.len + b.len, out.len());
    if r.shown == t.shown {
        return r;
    }
    words::copy(&c.numbers[..c.len], out, t.at);
    words::copy(&b.rows[..b.len], out, t.at + c.len);
    r
}

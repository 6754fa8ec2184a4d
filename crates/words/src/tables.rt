// A table of numbers by value, with open addressing: a slot has 0, or a number and one.
ghost use Rattle.std.specs.Prelude.{◌≡◌, ◌<◌, ◌≤◌, length};
ghost use Rattle.words.specs.tables.Table.{following, slot_from, tries, Numbered};

// How many slots are tried (`tries`).
const TRIES: usize = 64;

// The slot after q in a table of n slots: after the last comes the first.
fn after(q: usize, n: usize) -> usize
    requires { q < n }
    ensures { result ≡ following n q }
{
    if q + 1 == n { 0 } else { q + 1 }
}

// The slot of the value `x`, looked for from the slot `from` on: the first that is free or has a number of this value in `d`; the number of slots where `TRIES`
// are tried in vain.
pub fn seek(slots: &[u16], d: &[u64], from: usize, x: u64) -> usize
    requires { Numbered slots.now d.now × (from < length slots.now) }
    ensures { (result ≡ slot_from (length slots.now) tries from slots.now d.now x)
        × (result ≤ length slots.now) }
{
    let mut q = from;
    for _t in 0..TRIES {
        let f = slots[q] as usize;
        if f == 0 || d[f - 1] == x {
            return q;
        }
        q = after(q, slots.len());
    }
    slots.len()
}

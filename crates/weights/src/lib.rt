// Weights of values: bounds on the ranks of the generators that have a value, in a table by value with open addressing.
// slots       where the slot of a value is sought first
// rank_rows   the rows that bound the rank of a value, eight for each number
// Which values are heavy enough to be looked at is left to `sieve`.
#![tactic(auto)]

ghost use Rattle.std.specs.Prelude.{◌≡◌, ◌≤◌, length};
ghost use Rattle.weights.specs.Table.{slot_of, weight_of, Slots, Blank, TableFilled};
ghost use Rattle.weights.specs.Enter.{Entering, Entered};
ghost use Rattle.residues.specs.Room.{search_room};
ghost use Rattle.weights.specs.slots.Bucket.{slot_count};

pub mod rank_rows;
pub mod slots;

// Slots of the table (`slot_count`), and rows that bound ranks, eight for each number (`row_room`).
pub const SLOTS: usize = 16384;

pub const ROW_ROOM: usize = 32768;

// The slot of the value `x`: from its own on, the first that is free or has a number of this value; `SLOTS` where 64 are tried in vain.
// A slot has a number and one, or 0.
fn seek(slots: &[u16], d: &[u64], x: u64) -> usize
    requires { Slots slots.now d.now }
    ensures { (result ≡ slot_of slots.now d.now x) × (result ≤ slot_count) }
{
    words::tables::seek(slots, d, slots::bucket(x), x)
}

// The weight of the value `x`: that of the number in its slot, 0 where that is free, 200 where there is none.
pub fn weight_of(slots: &[u16], d: &[u64], w: &[u8], x: u64) -> usize
    requires { Slots slots.now d.now × (length d.now ≤ search_room) × (length w.now ≡ search_room) }
    ensures { (result ≡ weight_of slots.now d.now w.now x) × (result ≤ 255) }
{
    let q = seek(slots, d, x);
    if q == SLOTS {
        return 200;
    }
    let f = slots[q] as usize;
    if f == 0 {
        return 0;
    }
    w[f - 1] as usize
}

// Enters the number `i`, which has a value, into the table: the first number of a value gets the weight 1, and a further one adds to that
// number's weight where its generator is new. The weight that was written.
fn enter(
    gens: &[u64],
    d: &[u64],
    i: usize,
    s: &[u64],
    slots: &mut [u16],
    rows: &mut [u64],
    w: &mut [u8],
) -> usize
    requires { Entering gens.now d.now i slots.old rows.old w.old }
    ensures { Entered gens.now d.now s.now i slots.old rows.old w.old
        slots.new rows.new w.new result }
{
    let x = d[i];
    let q = seek(slots, d, x);
    if q == SLOTS {
        w[i] = 200;
        return 200;
    }
    let f = slots[q] as usize;
    if f == 0 {
        slots[q] = (i + 1) as u16;
        w[i] = 1;
        return 1;
    }
    let g = f - 1;
    let r = rank_rows::grow(s, gens[i] ^ gens[g], w[g] as usize - 1, g, rows) + 1;
    w[g] = r as u8;
    r
}

// Fills the table with the numbers from `start` on that are not dead and have a value; `slots` and `w` are all 0 before. `s` has the rows of
// the generators of residue 0, what `rows` holds before plays no part. The largest weight.
pub fn fill(
    gens: &[u64],
    d: &[u64],
    start: usize,
    dead: &[u8],
    s: &[u64],
    slots: &mut [u16],
    rows: &mut [u64],
    w: &mut [u8],
) -> usize
    requires { Blank gens.now d.now start dead.now s.now slots.old rows.old w.old }
    ensures { TableFilled gens.now d.now start dead.now slots.new w.new result }
{
    let mut top = 0;
    for i in start..d.len() {
        if dead[i] == 0 && d[i] != 0 {
            top = top.max(enter(gens, d, i, s, slots, rows, w));
        }
    }
    top
}

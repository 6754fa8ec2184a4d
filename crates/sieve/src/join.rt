// Numbers that have to be looked at beside a value, where two dimensions are missing.
ghost use Rattle.std.specs.Prelude.{◌≡◌, ◌≢◌, ◌⊎◌, ◌<◌, ◌≤◌, length};
ghost use Rattle.weights.specs.Table.{weight_of};
ghost use Rattle.sieve.specs.join.Join.{Half, Halved, Third, ThirdAsked, Joining, Join};
ghost use Rattle.residues.specs.Room.{search_room};

// The least weight, at least 1, that has half of `left`; 255 where none of the weights has.
fn half(left: usize) -> u8
    ensures { Half left result }
{
    if left < 3 {
        return 1;
    }
    if 509 < left {
        return 255;
    }
    ((left + 1) / 2) as u8
}

// The mark of a number of the weight `w`: 0 where that is below `least`, or the number is gone.
fn beside(w: u8, gone: u8, least: u8) -> u8
    ensures { result ≡ 0 → (w < least) ⊎ (gone ≢ 0) }
{
    if w < least || gone != 0 { 0 } else { 1 }
}

// Marks the numbers from `start` on and below `n` that have half of `left` and are not gone. One short step a number: most numbers end here.
fn halves(start: usize, n: usize, left: usize, gone: &[u8], w: &[u8], picks: &mut [u8])
    requires { (start ≤ n) × (n ≤ search_room) × (length gone.now ≡ search_room) × (length w.now ≡ search_room) × (length picks.old ≡ search_room) }
    ensures { Halved start n left gone.now w.now picks.new }
{
    let least = half(left);
    for i in start..n {
        picks[i] = beside(w[i], gone[i], least);
    }
}

// The mark of the number `i`: 0 where it has the value `x`, or does not reach `left` together with the sum of the two.
fn third(d: &[u64], i: usize, x: u64, left: usize, slots: &[u16], w: &[u8]) -> u8
    requires { ThirdAsked d.now i slots.now w.now }
    ensures { result ≡ 0 → Third d.now i x left w.now (weight_of slots.now d.now w.now) }
{
    let y = d[i];
    if y == x || (w[i] as usize) + weights::weight_of(slots, d, w, y ^ x) < left {
        0
    } else {
        1
    }
}

// Marks in `picks` the numbers from `start` on that have to be looked at beside `x`. Whether there is one.
pub fn join(
    d: &[u64],
    start: usize,
    x: u64,
    left: usize,
    gone: &[u8],
    slots: &[u16],
    w: &[u8],
    picks: &mut [u8],
) -> bool
    requires { Joining d.now start gone.now slots.now w.now picks.old }
    ensures { Join d.now start x left gone.now slots.now w.now picks.new result }
{
    let n = d.len();
    halves(start, n, left, gone, w, picks);
    let mut some = false;
    let mut i = super::marked_numbers::next_marked(picks, start, n);
    while i < n {
        let p = third(d, i, x, left, slots, w);
        picks[i] = p;
        if p != 0 {
            some = true;
        }
        i = super::marked_numbers::next_marked(picks, i + 1, n);
    }
    some
}

// The search for the spaces over the space of a walk's node, along heavy values and short relations. `h` has the residues of the generators at the walk's
// node, `d` those at a space over it.
ghost use Rattle.std.specs.Prelude.{◌≡◌, ◌≢◌, map, ◌-◌, ◌<◌, ◌≤◌, length, get_or};
ghost use Rattle.linear.specs.Basis.{clear, basis_of};
ghost use Rattle.linear.specs.Word.{word};
ghost use Rattle.bases.specs.Basis.{Holds};
ghost use Rattle.residues.specs.children.Residues.{with_residue};
ghost use Rattle.residues.specs.children.Found.{Found, FoundBy, Finished};
ghost use Rattle.residues.specs.children.Weighed.{Light};
ghost use Rattle.sieve.specs.heavy_search.Find.{FirstNew, At, Closed, Pairing, ChildBasis, Neared, Finding};
ghost use Rattle.sieve.specs.heavy_search.Relate.{Relating};
ghost use Rattle.residues.specs.Room.{search_room};

use bases::Basis;
use residues::Taken;
use words::first_words;

// The first number from `start` on that is new at `h` and not any more in the child of `d` by `x`; the number of generators where there is none.
fn first_new(h: &[u64], d: &[u64], x: u64, start: usize) -> usize
    requires { (length h.now ≡ length d.now) × (start ≤ length h.now) }
    ensures { FirstNew h.now (map (clear word x) d.now) start result }
{
    for j in start..h.len() {
        if forms::clear(x, d[j]) == 0 && h[j] != 0 {
            return j;
        }
    }
    h.len()
}

// Marks the number that the walk goes on with to the child of `d` by `x`, unless it is known.
fn finish(h: &[u64], d: &[u64], x: u64, start: usize, marks: &mut [u8])
    requires { (length h.now ≡ length d.now) × (start ≤ length h.now) × (length h.now ≤ search_room) × (length marks.old ≡ search_room) }
    ensures { Finished h.now (map (clear word x) d.now) start marks.old marks.new }
{
    let j = first_new(h, d, x, start);
    if j < h.len() && !residues::known(h, j) {
        marks[j] = 1;
    }
}

// The weight up to which all are too light where `missing` dimensions are missing and `n` of `k` dimensions are there: 0, or below its part of what
// is needed.
fn light(k: usize, n: usize, missing: usize) -> usize
    requires { (missing ≤ 8) × (missing ≢ 0) }
    ensures { Light k missing n result }
{
    if k <= n {
        return 0;
    }
    (k - n - 1) / ((1usize << missing) - 1)
}

// Meets the space of `d` and the generator with the number `i`, if that is one for `k`. `s` is the basis of the generators in the space of `d`.
fn step(
    gens: &[u64],
    h: &[u64],
    d: &[u64],
    i: usize,
    start: usize,
    k: usize,
    s: Basis,
    gone: &[u8],
    marks: &mut [u8],
)
    requires { At gens.now h.now d.now start s gone.now marks.old × (i < length gens.now) }
    ensures { FoundBy gens.now h.now d.now start k 0 gone.now i marks.old marks.new }
{
    let x = d[i];
    let t = residues::take(gens, d, x, s, gone);
    if !t.flagged && t.basis.len == k {
        finish(h, d, x, start, marks);
    }
}

// Meets the spaces for `k` over that of `d`, one dimension more, which have a picked number.
fn close(
    gens: &[u64],
    h: &[u64],
    d: &[u64],
    start: usize,
    k: usize,
    s: Basis,
    gone: &[u8],
    picks: &[u8],
    marks: &mut [u8],
)
    requires { At gens.now h.now d.now start s gone.now marks.old × (length picks.now ≡ search_room) }
    ensures { Closed gens.now h.now d.now start k gone.now picks.now
        marks.old marks.new }
{
    let n = gens.len();
    let mut i = super::marked_numbers::next_marked(picks, start, n);
    while i < n {
        step(gens, h, d, i, start, k, s, gone, marks);
        i = super::marked_numbers::next_marked(picks, i + 1, n);
    }
}

// How many dimensions are needed besides n; none where n is more than k.
pub fn needed(k: usize, n: usize) -> usize
    ensures { result ≡ k - n }
{
    k.saturating_sub(n)
}

// Meets the spaces for `k` over that of `d` and the generator with the number `j`, one dimension more: of the values beside that of `j` only those
// that with it and their sum have what is needed. `b` is the basis of the generators in the space of `d` and that generator. What the lent `picks`
// and `mine` hold plays no part.
fn pairs(
    gens: &[u64],
    h: &[u64],
    d: &[u64],
    j: usize,
    start: usize,
    k: usize,
    b: Basis,
    gone: &[u8],
    slots: &[u16],
    w: &[u8],
    picks: &mut [u8],
    mine: &mut [u64],
    marks: &mut [u8],
)
    requires { Pairing gens.now h.now d.now j start gone.now slots.now w.now picks.old mine.old marks.old
        × Holds (basis_of word (with_residue 0 gens.now (map (clear word (get_or d.now j 0)) d.now))) b }
    ensures { FoundBy gens.now h.now d.now start k 1 gone.now j marks.old marks.new }
{
    let n = gens.len();
    let x = d[j];
    let left = needed(k, b.len);
    if !super::join::join(d, start, x, left, gone, slots, w, picks) {
        return;
    }
    residues::child(d, x, mine);
    close(gens, h, &mine[..n], start, k, b, gone, picks, marks);
}

// Meets the spaces for `k` over that of `d` and the generator with the number `j`, `missing` dimensions more than that of `d`, where these are at
// most two or a dead number has the value; else the residues of the child are left in `mine`, and the answer is true. What the lent `picks` and
// `mine` hold before plays no part.
fn near(
    gens: &[u64],
    h: &[u64],
    d: &[u64],
    j: usize,
    start: usize,
    k: usize,
    missing: usize,
    t: Taken,
    gone: &[u8],
    slots: &[u16],
    w: &[u8],
    picks: &mut [u8],
    mine: &mut [u64],
    marks: &mut [u8],
) -> bool
    requires { Pairing gens.now h.now d.now j start gone.now slots.now w.now picks.old mine.old marks.old × ChildBasis gens.now
        d.now j gone.now t × (missing ≢ 0) }
    ensures { Neared gens.now h.now d.now j start k missing t gone.now marks.old
        mine.new marks.new result }
{
    if t.flagged {
        return false;
    }
    let b = t.basis;
    if missing == 1 {
        if b.len != k {
            return false;
        }
        finish(h, d, d[j], start, marks);
        return false;
    }
    if missing == 2 {
        pairs(
            gens, h, d, j, start, k, b, gone, slots, w, picks, mine, marks,
        );
        return false;
    }
    residues::child(d, d[j], mine);
    true
}

// The weight from which on a number is looked at by itself: above what is too light, or above 1 where relations are sought among the others.
fn floor(low: usize, size: usize) -> usize
    ensures { (size ≡ 0 → result ≡ low) × (size ≢ 0 → result ≡ 1) }
{
    if size == 0 { low } else { 1 }
}

// Marks the number that the walk goes on with to each space for `k` over that of `d`, `missing` dimensions more, without a generator that is gone, where every
// number of a weight above 1 is. Each has a short relation among its values: so the search goes over the relations. `s` is the basis of the generators in the
// space of `d`. What the lent `rows` hold plays no part.
#[cycle(find_relate)]
fn relate(
    gens: &[u64],
    h: &[u64],
    d: &[u64],
    start: usize,
    k: usize,
    missing: usize,
    lines: bool,
    s: Basis,
    gone: [u8; residues::SEARCH_ROOM],
    w: &[u8],
    rows: &mut [u64],
    marks: &mut [u8],
)
    requires { Relating gens.now h.now d.now start k missing lines s gone w.now rows.old marks.old }
    ensures { Found gens.now h.now d.now start k missing gone marks.old marks.new }
{
    let n = gens.len();
    let mut v = [0u64; residues::SEARCH_ROOM];
    relations::pairs::values(d, start, w, &gone, &mut v);
    let mut heads = [0u16; relations::pairs::HEADS];
    let mut links = [0u16; relations::pairs::LINKS];
    let mut other = [0u64; residues::SEARCH_ROOM];
    let mut mine = [0u64; residues::SEARCH_ROOM];
    let mut u = relations::first_place(
        gens,
        first_words(&s.rows, s.len),
        &v,
        lines,
        start,
        &mut heads,
        &mut links,
    );
    while u.base < n {
        let t = super::descent::descend(gens, d, u, s, &gone, &mut other, &mut mine);
        let b = t.basis;
        if !t.flagged {
            find(
                gens,
                h,
                &mine[..n],
                start,
                k,
                missing - super::descent::depth(u, n),
                b,
                gone,
                rows,
                marks,
            );
        }
        u = relations::next_place(
            gens,
            first_words(&s.rows, s.len),
            &v,
            lines,
            u,
            &mut heads,
            &mut links,
        );
    }
}

// Marks the number that the walk goes on with to each space for `k` over that of `d`, `missing` dimensions more, without a dead generator. Each has a
// heavy value, or a short relation among its values: so the search goes over the numbers that are not too light, heaviest first, and each is dead once the
// spaces with its generator are met; then, where relations are sought, over these. `s` is the basis of the generators in the space of `d`. What the lent
// `rows` hold plays no part.
#[cycle(find_relate)]
pub fn find(
    gens: &[u64],
    h: &[u64],
    d: &[u64],
    start: usize,
    k: usize,
    missing: usize,
    s: Basis,
    dead: [u8; residues::SEARCH_ROOM],
    rows: &mut [u64],
    marks: &mut [u8],
)
    requires { Finding gens.now h.now d.now start missing s dead rows.old marks.old }
    ensures { Found gens.now h.now d.now start k missing dead marks.old marks.new }
{
    let n = gens.len();
    let mut slots = [0u16; weights::SLOTS];
    let mut w = [0u8; residues::SEARCH_ROOM];
    let top = weights::fill(
        gens,
        d,
        start,
        &dead,
        &s.rows[..s.len],
        &mut slots,
        rows,
        &mut w,
    );
    let least = light(k, s.len, missing);
    if top <= least {
        return;
    }
    let size = super::sizes::chosen_size(gens, d, start, k, missing, s, &dead, &w);
    let low = floor(least, size);
    let mut gone = dead;
    let mut picks = [0u8; residues::SEARCH_ROOM];
    let mut mine = [0u64; residues::SEARCH_ROOM];
    let mut r = top;
    let mut j = super::marked_numbers::next_with(&w, r, start, n);
    // No index is counted: j goes to the next number of the weight r, and r falls where none is left.
    while low < r {
        if j == n {
            r -= 1;
            j = super::marked_numbers::next_with(&w, r, start, n);
        } else {
            let t = residues::take(gens, d, d[j], s, &gone);
            let b = t.basis;
            if near(
                gens, h, d, j, start, k, missing, t, &gone, &slots, &w, &mut picks, &mut mine,
                marks,
            ) {
                find(
                    gens,
                    h,
                    &mine[..n],
                    start,
                    k,
                    missing - 1,
                    b,
                    gone,
                    rows,
                    marks,
                );
            }
            gone[j] = 1;
            j = super::marked_numbers::next_with(&w, r, j + 1, n);
        }
    }
    if size == 0 {
        return;
    }
    relate(
        gens,
        h,
        d,
        start,
        k,
        missing,
        size == 3,
        s,
        gone,
        &w,
        rows,
        marks,
    );
}

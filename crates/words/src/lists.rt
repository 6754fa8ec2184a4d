// Lists handed in: whether a form stands twice, which refusal a problem's lists have, and whether a number is outside.
ghost use Rattle.std.specs.Prelude.{◌≡◌, not, drop, eqb, ltb};
ghost use Rattle.linear.specs.Select.{any_of};
ghost use Rattle.words.specs.lists.Lists.{repeats, list_refusal, map_refusal};

use super::{any_wide, any_zero};

// Whether x stands in xs at `from` or later.
pub fn stands_from(x: u64, xs: &[u64], from: usize) -> bool
    ensures { result ≡ any_of (eqb x) (drop from xs.now) }
{
    xs.iter().skip(from).any(|y| x == *y)
}

// Whether some form stands twice.
pub fn repeats(xs: &[u64]) -> bool
    ensures { result ≡ repeats xs.now }
{
    for (i, x) in xs.iter().enumerate() {
        if stands_from(*x, xs, i + 1) {
            return true;
        }
    }
    false
}

// The refusal of a list of p bits, 4 to 7, or 0.
pub fn list_refusal(p: u64, q: u64, r: u64, gs: &[u64], ts: &[u64], others: &[u64]) -> u64
    ensures { list_refusal p q r gs.now ts.now others.now ≡ result }
{
    if q > kinds::GENERATORS as u64 {
        4
    } else if gs.len() as u64 != q || ts.len() as u64 != r {
        5
    } else if any_wide(gs, p) || any_wide(ts, p) || any_wide(others, p) {
        6
    } else if any_zero(gs) || repeats(gs) {
        7
    } else {
        0
    }
}

// The refusal of a map's lists, 5 or 6, or 0: none is handed in but further forms of w bits.
pub fn map_refusal(w: u64, gs: &[u64], ts: &[u64], others: &[u64]) -> u64
    ensures { map_refusal w gs.now ts.now others.now ≡ result }
{
    if gs.len() != 0 || ts.len() != 0 {
        5
    } else if any_wide(others, w) {
        6
    } else {
        0
    }
}

// Whether some number is not below n.
pub fn any_outside(sel: &[u64], n: usize) -> bool
    ensures { result ≡ any_of (λ e. not (ltb e n)) sel.now }
{
    sel.iter().any(|e| *e >= n as u64)
}

// The refusals 6 to 9 of a formula that is read.
ghost use Rattle.std.specs.Prelude.{◌≡◌, ◌||◌, ltb};
ghost use Rattle.formula_files.specs.refusals.Number.{number};
ghost use Rattle.kinds.specs.Limits.{most_products};

// The refusal of a formula that is read, 6 to 9, or 0: whether a mask is too wide, whether a factor is zero, its k products and t rows, and
// the buffers' lengths.
pub fn refusal(wide: bool, zero: bool, k: usize, t: usize, la: usize, lb: usize, lr: usize) -> u64
    ensures { result ≡ number wide zero (ltb most_products k) (ltb la k || (ltb lb k || ltb lr t)) }
{
    let e = formula_check::refusal(wide, zero, k);
    if e != 0 {
        return e;
    }
    if formula_check::too_short(k, t, la, lb, lr) {
        9
    } else {
        0
    }
}

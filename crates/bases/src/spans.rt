// Tests on the spans of bases.
ghost use Rattle.std.specs.Prelude.{◌≡◌, not, ◌&&◌};
ghost use Rattle.linear.specs.Word.{word};
ghost use Rattle.linear.specs.Select.{any_of};
ghost use Rattle.linear.specs.Entry.{inside, same_basis};
ghost use Rattle.linear.specs.Spread.{completes};
ghost use Rattle.bases.specs.Basis.{rows_of, Valid};

use super::Basis;

// Whether some target is not in the span of `b`.
pub fn misses(b: Basis, targets: &[u64]) -> bool
    requires { Valid b }
    ensures { result ≡ any_of (λ t. not (inside word (rows_of b) t)) targets.now }
{
    targets.iter().any(|t| !b.contains(*t))
}

// Whether `g` is in the span of the rows `w` and not in that of `b`.
pub fn is_wanted(w: &[u64], b: Basis, g: u64) -> bool
    requires { Valid b }
    ensures { result ≡ (inside word w.now g && not (inside word (rows_of b) g)) }
{
    forms::reduce_rows(w, g) == 0 && !b.contains(g)
}

// Whether `b` and the generators inside the space `w` from number `start` on span as many dimensions as `w` has rows.
pub fn completes(gens: &[u64], w: &[u64], b: Basis, start: usize) -> bool
    requires { Valid b }
    ensures { result ≡ completes word gens.now w.now (rows_of b) start }
{
    let mut d = b;
    for i in start..gens.len() {
        if d.len >= w.len() {
            return true;
        }
        let g = gens[i];
        if forms::reduce_rows(w, g) == 0 {
            d = d.insert(g);
        }
    }
    d.len >= w.len()
}

// Whether the basis has exactly these rows.
pub fn has_rows(b: Basis, rows: &[u64]) -> bool
    requires { Valid b }
    ensures { result ≡ same_basis word (rows_of b) rows.now }
{
    &b.rows[..b.len] == rows
}

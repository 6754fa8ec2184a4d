// The formulae of a space, each once and in order. Each call of the recursion yields one, so there is little work between two.
ghost use Rattle.std.specs.Prelude.{◌≡◌, ◌-◌, length};
ghost use Rattle.bases.specs.Basis.{rows_of};
ghost use Rattle.choices.specs.Choice.{numbers_of};
ghost use Rattle.records.specs.Records.{run};
ghost use Rattle.records.specs.Keep.{state_of};
ghost use Rattle.space_formulae.specs.enumeration.Spread.{formulae_from, Branch};

use bases::Basis;
use choices::Choice;
use records::Tally;

// Goes on from the generators of `c`, with the basis `b`, by `missing` generators from number `start` on, each inside the space `w` and not yet spanned. Where
// those left can't complete the space it returns at once.
pub fn spread(
    gens: &[u64],
    w: &[u64],
    targets: &[u64],
    start: usize,
    missing: usize,
    b: Basis,
    c: Choice,
    t: Tally,
    limit: u64,
    out: &mut [u64],
) -> Tally
    requires { Branch gens.now w.now targets.now missing b c t limit out.old }
    ensures { state_of result out.new ≡ run limit (state_of t out.old) (formulae_from gens.now w.now
        targets.now (rows_of b) (numbers_of c) (length gens.now - start) start missing) }
{
    if missing == 0 {
        return super::formula_records::keep(c, targets, t, limit, out);
    }
    let n = gens.len();
    let mut counts = t;
    for j in start..n {
        if counts.found == limit {
            return counts;
        }
        let g = gens[j];
        if bases::spans::is_wanted(w, b, g) {
            counts = spread(
                gens,
                w,
                targets,
                j + 1,
                missing - 1,
                b.insert(g),
                choices::add(c, j, g),
                counts,
                limit,
                out,
            );
            if !bases::spans::completes(gens, w, b, j + 1) {
                return counts;
            }
        }
    }
    counts
}

// The records of formulae, counted and written one after the other.
ghost use Rattle.std.specs.Prelude.{◌≡◌};
ghost use Rattle.choices.specs.Choice.{record_of};
ghost use Rattle.records.specs.Records.{note};
ghost use Rattle.records.specs.Keep.{state_of};
ghost use Rattle.space_formulae.specs.formula_records.Keep.{FormulaKeeping};

use choices::Choice;
use records::Tally;

// Counts the formula whose products `c` holds, and writes its record where it fits.
pub fn keep(c: Choice, targets: &[u64], t: Tally, limit: u64, out: &mut [u64]) -> Tally
    requires { FormulaKeeping c targets.now t limit out.old }
    ensures { state_of result out.new ≡ note limit (state_of t out.old) (record_of c targets.now) }
{
    let r = records::count(t, limit, c.len + targets.len(), out.len());
    if r.shown == t.shown {
        return r;
    }
    choices::write_formula(c, targets, out, t.at);
    r
}

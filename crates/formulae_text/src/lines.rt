// The lines of an entry's formulae, in a lent buffer.
ghost use Rattle.std.specs.Prelude.{◌≡◌, ◌+◌, ◌*◌, ◌≤◌, length};
ghost use Rattle.printing.specs.fields.Piece.{Piece};
ghost use Rattle.printing.specs.record_lines.RecordLines.{Short, Records};
ghost use Rattle.formulae_text.specs.lines.FormulaLines.{formula_text, formula_lines, left_text, formulae_text};

// The line of formula i of an entry, from place `at` on, as far as there is room; the place after it.
fn put_formula(entry: u64, i: u64, xs: &[u64], ys: &[u64], out: &mut [u8], at: usize) -> usize
    requires { Short xs.now ys.now at 2000000000 }
    ensures { Piece out.old at (formula_text entry i xs.now ys.now)
        (21 * length xs.now + 21 * length ys.now + 46) out.new result }
{
    let a = printing::record_lines::put_lead(entry, out, at);
    printing::record_lines::put_entry(i, xs, ys, out, a)
}

// The lines of n formulae of an entry, whose records have k numbers and t rows, likewise.
fn put_formulae(
    entry: u64,
    listing: &[u64],
    k: usize,
    t: usize,
    n: usize,
    out: &mut [u8],
    at: usize,
) -> usize
    requires { Records listing.now k t n at }
    ensures { Piece out.old at (formula_lines entry k t n listing.now) (21 * (n * (k + t)) + 46 * n) out.new result }
{
    let mut e = at;
    for i in 0..n {
        let s = i * (k + t);
        e = put_formula(
            entry,
            i as u64,
            &listing[s..s + k],
            &listing[s + k..s + k + t],
            out,
            e,
        );
    }
    e
}

// The line of an entry of which a formula was left out, or nothing where these are all.
fn put_left(entry: u64, whole: bool, out: &mut [u8], at: usize) -> usize
    requires { at ≤ 1000000000 }
    ensures { Piece out.old at (left_text entry whole) 30 out.new result }
{
    if whole {
        return at;
    }
    let a = printing::put_number(entry, 10, 20, out, at);
    printing::put_bytes(b",more,-,-\n", out, a)
}

// The lines of an entry, from the start of a buffer, as far as there is room; their length.
pub fn formulae_text(
    entry: u64,
    listing: &[u64],
    k: usize,
    t: usize,
    n: usize,
    whole: bool,
    out: &mut [u8],
) -> usize
    requires { Records listing.now k t n 0 }
    ensures { Piece out.old 0 (formulae_text entry k t n whole listing.now) (21 * (n * (k + t)) + 46 * n + 30)
        out.new result }
{
    let a = put_formulae(entry, listing, k, t, n, out, 0);
    put_left(entry, whole, out, a)
}

// Rows that bound the rank of a value: a stretch of eight for each number.
ghost use Rattle.weights.specs.rank_rows.Stretch.{StretchGrown, StretchGrowing};

// Makes room for `d` in the span of the rows `s` and of the first `m` rows of the stretch of the number `f`: by one row more, where it is not
// in it. How many rows the stretch has then; 199 where more than the 8 would be needed.
pub fn grow(s: &[u64], d: u64, m: usize, f: usize, rows: &mut [u64]) -> usize
    requires { StretchGrowing m f rows.old }
    ensures { StretchGrown s.now d m f rows.old rows.new result }
{
    if 8 < m {
        return m;
    }
    let at = f * 8;
    let v = forms::reduce_rows(s, d);
    let w = forms::reduce_rows(&rows[at..at + m], v);
    if w == 0 {
        return m;
    }
    if m == 8 {
        return 199;
    }
    rows[at + m] = w;
    m + 1
}

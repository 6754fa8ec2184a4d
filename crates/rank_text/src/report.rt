// What Rank prints, in a lent buffer.
ghost use Rattle.std.specs.Prelude.{◌+◌, ◌*◌, length};
ghost use Rattle.printing.specs.fields.Piece.{Piece};
ghost use Rattle.printing.specs.record_lines.RecordLines.{Short};
ghost use Rattle.rank_text.specs.report.RankReports.{rank_head, far_rank_text, rank_text};

use kinds::Shape;

// The names of a Rank's line, its sizes and ℓ from the start of a buffer, as far as there is room; their length.
fn put_rank_head(shape: Shape, k: u64, ell: u64, out: &mut [u8]) -> usize
    ensures { Piece out.old 0 (rank_head shape k ell) 132 out.new result }
{
    let a = printing::put_bytes(b"kind,p,q,r,k,ell,rank\n", out, 0);
    let b = printing::fields::put_sizes(shape, k, out, a);
    printing::fields::put_field(ell, out, b)
}

// What Rank prints where it has no number, above or beyond, likewise.
pub fn far_rank_text(shape: Shape, k: u64, ell: u64, above: bool, out: &mut [u8]) -> usize
    ensures { Piece out.old 0 (far_rank_text shape k ell above) 140 out.new result }
{
    let a = put_rank_head(shape, k, ell, out);
    if above {
        return printing::put_bytes(b",above\n", out, a);
    }
    printing::put_bytes(b",beyond\n", out, a)
}

// What Rank prints with a number, likewise.
pub fn rank_text(
    shape: Shape,
    k: u64,
    ell: u64,
    products: &[u64],
    rows: &[u64],
    out: &mut [u8],
) -> usize
    requires { Short products.now rows.now 0 0 }
    ensures { Piece out.old 0 (rank_text shape k ell products.now rows.now)
        (21 * length products.now + 21 * length rows.now + 172) out.new result }
{
    let a = put_rank_head(shape, k, ell, out);
    let b = printing::fields::put_field(products.len() as u64, out, a);
    let c = printing::put_bytes(b"\nproducts,rows\n", out, b);
    printing::record_lines::put_lists(products, rows, out, c)
}

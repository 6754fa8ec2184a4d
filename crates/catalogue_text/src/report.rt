// What the Catalogue prints, in a lent buffer.
ghost use Rattle.std.specs.Prelude.{◌+◌, ◌-◌, ◌*◌, ◌<◌, ◌≤◌};
ghost use Rattle.printing.specs.fields.Piece.{Piece};
ghost use Rattle.printing.specs.record_lines.RecordLines.{Records};
ghost use Rattle.catalogue_text.specs.report.CatalogueReports.{entries_text, counts_text, catalogue_text};

use kinds::Shape;

// The lines of the entries for k of a listing, from place `at` on, as far as there is room; the place after them.
fn put_entries(listing: &[u64], ell: u64, k: u64, shown: usize, out: &mut [u8], at: usize) -> usize
    requires { Records listing.now (k - ell) k shown at × (0 < shown → ell ≤ k) }
    ensures { Piece out.old at (entries_text (k - ell) k 0 shown listing.now)
        (21 * (shown * ((k - ell) + k)) + 25 * shown) out.new result }
{
    let mut e = at;
    for i in 0..shown as u64 {
        let extension = records::lookup::extension(listing, ell, k, shown as u64, i);
        let rows = records::lookup::rows(listing, ell, k, shown as u64, i);
        e = printing::record_lines::put_entry(i, extension, rows, out, e);
    }
    e
}

// The first two lines of a Catalogue from the start of a buffer, as far as there is room; their length.
pub fn put_counts(shape: Shape, k: u64, ell: u64, found: u64, shown: u64, out: &mut [u8]) -> usize
    ensures { Piece out.old 0 (counts_text shape k ell found shown) 182 out.new result }
{
    let a = printing::put_bytes(b"kind,p,q,r,k,ell,found,shown\n", out, 0);
    let b = printing::fields::put_sizes(shape, k, out, a);
    let c = printing::fields::put_field(ell, out, b);
    let d = printing::fields::put_field(found, out, c);
    let e = printing::fields::put_field(shown, out, d);
    printing::put_bytes(b"\n", out, e)
}

// What the Catalogue prints, from the start of a buffer, as far as there is room; its length.
pub fn catalogue_text(
    shape: Shape,
    k: u64,
    ell: u64,
    found: u64,
    shown: usize,
    listing: &[u64],
    out: &mut [u8],
) -> usize
    requires { Records listing.now (k - ell) k shown 204 × (0 < shown → ell ≤ k) }
    ensures { Piece out.old 0 (catalogue_text shape k ell found shown listing.now)
        (204 + (21 * (shown * ((k - ell) + k)) + 25 * shown)) out.new result }
{
    let a = put_counts(shape, k, ell, found, shown as u64, out);
    let b = printing::put_bytes(b"entry,extension,basis\n", out, a);
    put_entries(listing, ell, k, shown, out, b)
}

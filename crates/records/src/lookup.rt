// The look-up of an entry in a listing, and the two parts of its record.
ghost use Rattle.std.specs.Prelude.{◌≡◌, ◌-◌, take, drop};
ghost use Rattle.records.specs.lookup.Lookup.{lookup};

use words::first_words;

// The record of the entry with a number, out of a listing that shows `shown` entries for `k`; an empty part where there is none.
pub fn entry(listing: &[u64], ell: u64, k: u64, shown: u64, number: u64) -> &[u64]
    ensures { result.now ≡ lookup ell k shown number listing.now }
{
    let room = listing.len() as u64;
    if number >= shown || k < ell || k > room {
        return &listing[..0];
    }
    let size = (k - ell) + k;
    if size == 0 || number >= room / size {
        return &listing[..0];
    }
    let at = (number * size) as usize;
    &listing[at..at + size as usize]
}

// The words behind the first n; none where there are no more.
fn words_behind(a: &[u64], n: usize) -> &[u64]
    ensures { result.now ≡ drop n a.now }
{
    if n > a.len() {
        return &a[..0];
    }
    &a[n..]
}

// The extension of that entry: the numbers at the front of its record.
pub fn extension(listing: &[u64], ell: u64, k: u64, shown: u64, number: u64) -> &[u64]
    ensures { result.now ≡ take (k - ell) (lookup ell k shown number listing.now) }
{
    let record = entry(listing, ell, k, shown, number);
    first_words(record, k.saturating_sub(ell) as usize)
}

// The rows of that entry's basis: the rest of its record.
pub fn rows(listing: &[u64], ell: u64, k: u64, shown: u64, number: u64) -> &[u64]
    ensures { result.now ≡ drop (k - ell) (lookup ell k shown number listing.now) }
{
    let record = entry(listing, ell, k, shown, number);
    words_behind(record, k.saturating_sub(ell) as usize)
}

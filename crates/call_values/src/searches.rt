// What is said of a search (Catalogue, Rank), with the buffer that it was lent.
use super::numbers::{print_next, print_number, print_text, print_words};
use catalogue::Catalogued;
use rank::fewest::Ranked;
use std::io::Print;

// Word i of a buffer holds 1000000 + i before a search, which is a call below 3.
pub fn mark(which: u64, out: &mut [u64]) {
    if which > 2 {
        return;
    }
    for (i, x) in out.iter_mut().enumerate() {
        *x = 1000000 + i as u64;
    }
}

// A listing; the entries that it shows, by their numbers; and what is at the number behind the last.
fn print_listing(rt: &impl Print, listing: &[u64], ell: u64, k: u64, shown: u64) {
    print_words(rt, listing);
    for j in 0..=shown {
        print_words(rt, records::lookup::entry(listing, ell, k, shown, j));
    }
}

// What Catalogue says, and the buffer.
pub fn print_catalogued(rt: &impl Print, said: Catalogued, k: u64, out: &[u64]) {
    match said {
        Catalogued::Refused(e) => {
            print_number(rt, "refused", e);
            print_words(rt, out);
        }
        Catalogued::Entries(ell, found, shown) => {
            print_number(rt, "entries", ell as u64);
            print_next(rt, found);
            print_next(rt, shown as u64);
            print_listing(rt, out, ell as u64, k, shown as u64);
        }
    }
}

// What Rank says, and the buffer.
pub fn print_ranked(rt: &impl Print, said: Ranked, out: &[u64]) {
    match said {
        Ranked::Refused(e) => print_number(rt, "refused", e),
        Ranked::Is(r) => print_number(rt, "rank", r as u64),
        Ranked::Above => {
            print_text(rt, "above");
        }
        Ranked::Beyond => {
            print_text(rt, "beyond");
        }
    }
    print_words(rt, out);
}

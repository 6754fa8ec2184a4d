// What is said of a space's formulae and of a sum of selected generators, with the buffer that was lent for them, and of a selection.
use super::numbers::{print_next, print_number, print_text, print_words};
use selections::on_forms::{Said, Summed};
use space_formulae::spaces::Listed;
use std::io::Print;

// One number for all words of a buffer and their order.
fn digest(xs: &[u64]) -> u64 {
    xs.iter().fold(0, |d, x| u64::rotate_right(d, 1) ^ *x)
}

// A buffer: its words where they are few, else its digest.
fn print_buffer(rt: &impl Print, out: &[u64]) {
    if out.len() > 64 {
        print_next(rt, digest(out));
        return;
    }
    print_words(rt, out);
}

// What is said of a space's formulae, and the buffer.
pub fn print_listed(rt: &impl Print, said: Listed, out: &[u64]) {
    match said {
        Listed::Refused(e) => print_number(rt, "refused", e),
        Listed::All(n) => print_number(rt, "all", n as u64),
        Listed::More(n) => print_number(rt, "more", n as u64),
    }
    print_buffer(rt, out);
}

// What is said of a form and a selection, and the buffer.
pub fn print_summed(rt: &impl Print, said: Summed, out: &[u64]) {
    match said {
        Summed::Refused(e) => print_number(rt, "refused", e),
        Summed::Yes(n) => print_number(rt, "yes", n as u64),
        Summed::No => {
            print_text(rt, "no");
        }
    }
    print_buffer(rt, out);
}

// What is said of a selected product.
pub fn print_said(rt: &impl Print, said: Said) {
    match said {
        Said::Refused(e) => print_number(rt, "refused", e),
        Said::Yes => {
            print_text(rt, "yes");
        }
        Said::No => {
            print_text(rt, "no");
        }
    }
}

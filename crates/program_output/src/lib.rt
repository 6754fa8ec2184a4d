// What the Catalogue, Rank and Formulae programs write to standard output of the bytes that they have read. Check's: `check_output`.
#![tactic(auto)]

use std::io::{Eprint, Print};
use streams::write_printed;

// Writes what the Catalogue program prints of an input.
pub fn write_catalogue(rt: &(impl Print + Eprint), input: &[u8]) {
    let mut page = printing::pages::reply_page();
    let said = programs::catalogue_program(input, &mut page);
    write_printed(rt, said, &page);
}

// Writes what the Rank program prints of an input.
pub fn write_rank(rt: &(impl Print + Eprint), input: &[u8]) {
    let mut page = printing::pages::reply_page();
    let said = programs::rank_program(input, &mut page);
    write_printed(rt, said, &page);
}

// Writes what the Formulae program prints of an input, part by part.
pub fn write_formulae(rt: &(impl Print + Eprint), input: &[u8]) {
    let mut gs = [0u64; kinds::GENERATORS];
    let mut ts = [0u64; kinds::TARGETS];
    let mut listing = [0u64; text::PROGRAM_WORDS];
    let mut page = printing::pages::part_page();
    let started = formulae_program::first_part::start(input, &mut gs, &mut ts, &mut listing);
    let mut i = 0;
    // By hand: over `take_while` the proof does not close (the check can't state the loop's invariant there).
    while formulae_program::parts::is_part(started, i) {
        let said = formulae_program::parts::part_page(started, i, &gs, &ts, &listing, &mut page);
        if !write_printed(rt, said, &page) {
            return;
        }
        i += 1;
    }
}

// What the Turn program writes to standard output of the bytes that it has read. It stands beside `check_output`, and rests on no search either.
#![tactic(auto)]

use std::io::{Eprint, Print};

// Writes what the Turn program prints of an input.
pub fn write_turn(rt: &(impl Print + Eprint), input: &[u8]) {
    let mut page = printing::pages::formula_page();
    let said = turn_program::turn_program(input, &mut page);
    streams::write_printed(rt, said, &page);
}

// What the Check program writes to standard output of the bytes that it has read. It stands apart from `program_output`, so that Check rests on no search.
#![tactic(auto)]

use std::io::{Eprint, Print};

// Writes what the Check program prints of an input.
pub fn write_check(rt: &(impl Print + Eprint), input: &[u8]) {
    let mut page = printing::pages::check_page();
    let said = service::check_program::check_program(input, &mut page);
    streams::write_printed(rt, said, &page);
}

// The streams of a program: standard input read, what was printed on a page written to standard output. A read or a write that fails is said on standard error.
// What is read and written can't be in a contract: the calls of the operating system promise nothing of it.
#![tactic(auto)]

ghost use Rattle.std.specs.Prelude.{◌+◌, ◌≤◌, length, IfOk};
ghost use Rattle.io.specs.Counts.{IsPrefixLen};
ghost use Rattle.printing.specs.pages.Printed.{PrintedWhole};

use printing::pages::Printed;
use std::io::{Eprint, Print, Read};

// One read of the input, into the room from place `done` on: how many bytes it brings, none at the end of the input.
fn read_from<R: Read>(reader: &mut R, room: &mut [u8], done: usize) -> std::io::Result<usize>
    requires { done ≤ length room.old }
    ensures { IfOk result (λ count. done + count ≤ length room.new) }
{
    reader.read(&mut room[done..])
}

// An input: its bytes are the first `count` of the room, and all of them unless a read failed.
#[derive(Clone, Copy)]
pub struct Input {
    pub whole: bool,
    pub count: usize,
}

// Reads until the input ends, the room is full, or a read fails.
pub fn read_full<R: Read>(reader: &mut R, room: &mut [u8]) -> Input
    ensures { IsPrefixLen result.count room.new }
{
    let mut done = 0;
    while done < room.len() {
        match read_from(reader, room, done) {
            Ok(0) => break,
            Ok(count) => done += count,
            Err(_) => {
                return Input {
                    whole: false,
                    count: done,
                };
            }
        }
    }
    Input {
        whole: true,
        count: done,
    }
}

// Reads standard input until it ends, the room is full, or a read fails, which is said on standard error.
pub fn read_input(rt: &(impl std::io::Input + Eprint), room: &mut [u8]) -> Input
    ensures { IsPrefixLen result.count room.new }
{
    let input = read_full(&mut rt.reader(), room);
    if !input.whole {
        let _ = rt.eprint("gijpsando: standard input can't be read\n");
    }
    input
}

// Writes what a call has printed, from the start of a page; whether all of it was written. (The call was not refused: the programs' pages take every text.)
pub fn write_printed(rt: &(impl Print + Eprint), said: Printed, page: &[u8]) -> bool
    requires { PrintedWhole said page.now }
{
    let Printed::Bytes(m) = said else {
        return false;
    };
    if rt.write_all(&page[..m]).is_ok() {
        return true;
    }
    let _ = rt.eprint("gijpsando: standard output can't be written\n");
    false
}

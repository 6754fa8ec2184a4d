// A formula turned in three buffers, and what is said of it.
ghost use Rattle.std.specs.Prelude.{◌≡◌, ◌≤◌, length};
ghost use Rattle.call_values.specs.Rooms.{turn_words};

use super::numbers::{print_next, print_number, print_words};
use std::io::Print;
use turning::Turned;

// The words of the longest buffer that a turning is lent (`turn_words`).
const TURN_WORDS: usize = 64;

// Words to lend, each 1000000.
fn turn_room() -> [u64; TURN_WORDS]
    ensures { turn_words ≡ length result }
{
    [1000000; TURN_WORDS]
}

// What is said.
fn print_turned(rt: &impl Print, said: Turned) {
    match said {
        Turned::Refused(e) => print_number(rt, "refused", e),
        Turned::Formula(shape, k) => {
            let kind = shape.kind;
            print_number(rt, "formula", kinds::number_of(kind));
            print_next(rt, shape.p);
            print_next(rt, shape.q);
            print_next(rt, shape.r);
            print_next(rt, k);
        }
    }
}

// How many words of a room are lent: as many as are asked for, and all where that is too many.
fn lent(asked: u64) -> usize
    ensures { result ≤ turn_words }
{
    if asked > TURN_WORDS as u64 {
        return TURN_WORDS;
    }
    asked as usize
}

// Turns a formula, and prints what is said and the three buffers.
fn turn_in(
    rt: &impl Print,
    call: Formula,
    a: &[u64],
    b: &[u64],
    rows: &[u64],
    new_a: &mut [u64],
    new_b: &mut [u64],
    new_rows: &mut [u64],
) {
    let said = turning::turn(
        call.number,
        call.p,
        call.q,
        call.r,
        call.k,
        a,
        b,
        rows,
        new_a,
        new_b,
        new_rows,
    );
    print_turned(rt, said);
    print_words(rt, new_a);
    print_words(rt, new_b);
    print_words(rt, new_rows);
}

// A formula to be turned, but for its masks and rows.
#[derive(Clone, Copy)]
pub struct Formula {
    pub number: u64,
    pub p: u64,
    pub q: u64,
    pub r: u64,
    pub k: u64,
}

// The same in buffers of w modulo 100, w / 100 modulo 100 and w / 10000 words, of TURN_WORDS at most.
pub fn turn_one(rt: &impl Print, call: Formula, w: u64, a: &[u64], b: &[u64], rows: &[u64]) {
    let x = lent(w % 100);
    let y = lent(w / 100 % 100);
    let z = lent(w / 10000);
    let mut new_a = turn_room();
    let mut new_b = turn_room();
    let mut new_rows = turn_room();
    turn_in(
        rt,
        call,
        a,
        b,
        rows,
        &mut new_a[..x],
        &mut new_b[..y],
        &mut new_rows[..z],
    );
}

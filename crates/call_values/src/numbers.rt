// Numbers: read from a text, and printed.
ghost use Rattle.std.specs.Prelude.{◌≤◌, ◌≡◌, length};
ghost use Rattle.io.specs.Counts.{IsPrefixLen};
ghost use Rattle.call_values.specs.Rooms.{text_bytes, number_words};

use std::io::Print;

// The bytes of the calls' text, and the words of its numbers (`text_bytes`, `number_words`).
const TEXT_BYTES: usize = 393216;

const NUMBER_WORDS: usize = 131072;

// Room for a text.
pub fn text_room() -> [u8; TEXT_BYTES]
    ensures { text_bytes ≡ length result }
{
    [0; TEXT_BYTES]
}

// Room for its numbers.
pub fn number_room() -> [u64; NUMBER_WORDS]
    ensures { number_words ≡ length result }
{
    [0; NUMBER_WORDS]
}

// x with the decimal digit d behind it, where that is a word.
fn with_digit(x: u64, d: u64) -> u64
    requires { d ≤ 9 }
{
    if x > words::LARGEST / 10 {
        return 0;
    }
    let y = x * 10;
    if d > words::LARGEST - y {
        return 0;
    }
    y + d
}

// The number read so far, behind the byte b; 0 behind a byte that is no digit.
fn next_value(b: u8, x: u64) -> u64 {
    match b {
        b'0'..=b'9' => with_digit(x, u64::from(b - b'0')),
        _ => 0,
    }
}

// The place of the next number, among n.
fn next_place(b: u8, at: usize, n: usize) -> usize
    requires { at ≤ n }
    ensures { result ≤ n }
{
    if b < b'0' && at < n { at + 1 } else { at }
}

// The numbers of a text, each ended by a byte below the digits; how many there are.
pub fn read_numbers(text: &[u8], out: &mut [u64]) -> usize
    ensures { IsPrefixLen result out.new }
{
    let mut x = 0;
    let mut at = 0;
    for b in text {
        words::put_word(out, at, x);
        at = next_place(*b, at, out.len());
        x = next_value(*b, x);
    }
    at
}

// Some text. A write that fails is passed over here and below: what the run prints is looked at as a whole.
pub fn print_text(rt: &impl Print, text: &str) {
    let _ = rt.print(text);
}

// A space and a number.
pub fn print_next(rt: &impl Print, x: u64) {
    let _ = print!(rt; " {x}");
}

// Some numbers, and a colon before them.
pub fn print_words(rt: &impl Print, xs: &[u64]) {
    print_text(rt, " :");
    for x in xs {
        print_next(rt, *x);
    }
}

// A word, and a number behind it.
pub fn print_number(rt: &impl Print, word: &str, x: u64) {
    print_text(rt, word);
    print_next(rt, x);
}

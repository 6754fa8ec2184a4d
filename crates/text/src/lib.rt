// The bytes of a file, read: numerals, fields, lines, fixed lines.
// heads      the first two lines of a file: the kind, its sizes and k
// The lines below: `formula_files`, `problem_files`. Writing: `printing`.
#![tactic(auto)]

ghost use Rattle.std.specs.Prelude.{◌≡◌, ◌+◌, ◌^◌, ◌≤◌, length};
ghost use Rattle.text.specs.Numeral.{digit, numeral};
ghost use Rattle.text.specs.Line.{cut, name_line, field};
ghost use Rattle.text.specs.Views.{seen_cut, bytes_cut, seen_used, bytes_used, seen_field, bytes_field};
ghost use Rattle.text.specs.Limits.{input_room};

pub mod heads;

// The longest input that a program takes, in bytes, and the words of its buffers (specs/Limits.antt).
pub const FILE_BYTES: usize = 65536;

pub const PROGRAM_WORDS: usize = 4096;

// How much of an input a program reads: a byte more than the longest, so that a longer one is told (`input_room`).
pub const INPUT_ROOM: usize = FILE_BYTES + 1;

// Room for a program's input.
pub fn input_room() -> [u8; INPUT_ROOM]
    ensures { input_room ≡ length result }
{
    [0; INPUT_ROOM]
}

// What a digit is worth; 16 where the byte is none.
fn digit_of(b: u8) -> u64
    ensures { result ≡ digit b }
{
    match b {
        b'0'..=b'9' => u64::from(b - b'0'),
        b'a'..=b'f' => u64::from(b - b'a') + 10,
        _ => 16,
    }
}

// The numeral s to the base, of at most `most` digits.
pub fn numeral_of(s: &[u8], base: u64, most: usize) -> Option<u64>
    requires { (base ≤ 16) × (base ^ most ≤ 2 ^ 64) }
    ensures { result ≡ numeral base most s.now }
{
    let n = s.len();
    if n == 0 {
        return None;
    }
    if most < n {
        return None;
    }
    if 1 < n && s[0] == b'0' {
        return None;
    }
    let mut v: u64 = 0;
    for b in s {
        let d = digit_of(*b);
        if d >= base {
            return None;
        }
        v = v * base + d;
    }
    Some(v)
}

// The cut at the first byte c: the bytes before it.
pub fn cut_at(s: &[u8], c: u8) -> Option<usize>
    ensures { (cut c s.now ≡ seen_cut s.now result) × (bytes_cut result ≤ length s.now) }
{
    s.iter().position(|b| *b == c)
}

// The fixed line `name` at the front of s: the bytes used.
pub fn name_line(s: &[u8], name: &[u8]) -> Option<usize>
    ensures { (name_line name.now s.now ≡ seen_used s.now result) × (bytes_used result ≤ length s.now) }
{
    let e = cut_at(s, b'\n')?;
    if kinds::names::equal(&s[..e], name) {
        Some(e + 1)
    } else {
        None
    }
}

// A numeral that the byte `end` ends, at the front of s: the number and the bytes used.
pub fn field_at(s: &[u8], end: u8, base: u64, most: usize) -> Option<(u64, usize)>
    requires { (base ≤ 16) × (base ^ most ≤ 2 ^ 64) }
    ensures { (field base most end s.now ≡ seen_field s.now result) × (bytes_field result ≤ length s.now) }
{
    let e = cut_at(s, end)?;
    let v = numeral_of(&s[..e], base, most)?;
    Some((v, e + 1))
}

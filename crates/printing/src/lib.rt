// Bytes printed from a place of a lent buffer on: bytes, numbers in a base, names of kinds.
// fields         fields of a line, sizes, the line of a refusal; a text handed over whole
// field_lists    lists of numbers inside a field
// pages          a text handed over on a lent page
// refusals       the line of a refusal on a page
// record_lines   the fields that Catalogue, Rank and Formulae print alike
// Which text a reply has: `check_text`, `catalogue_text`, `rank_text`, `formulae_text`.
#![tactic(auto)]

ghost use Rattle.std.specs.Prelude.{◌≡◌, ◌+◌, ◌^◌, ◌≤◌, ◌<◌, length, set};
ghost use Rattle.std.proofs.lemmas.List.Edits.{sets};
ghost use Rattle.kinds.specs.Kinds.{name_of, longest_name};
ghost use Rattle.printing.specs.Print.{digit_byte, numeral_text};

use kinds::Kind;

pub mod field_lists;
pub mod fields;
pub mod pages;
pub mod record_lines;
pub mod refusals;

// The bytes of a page for a whole reply, for Check's, for a formula's file, and for a part of what the Formulae program prints (`reply_page`, `check_page`,
// `formula_page`, `part_page`).
pub const REPLY_PAGE: usize = 196608;

pub const CHECK_PAGE: usize = 256;

pub const FORMULA_PAGE: usize = 4096;

pub const PART_PAGE: usize = 278528;

// The byte of a digit.
fn digit_byte(d: u64) -> u8
    requires { d < 16 }
    ensures { result ≡ digit_byte d }
{
    if d < 10 {
        b'0' + d as u8
    } else {
        b'a' + (d - 10) as u8
    }
}

// The byte x at place i, where there is one.
pub fn put_byte(out: &mut [u8], i: usize, x: u8)
    ensures { out.new ≡ set out.old i x }
{
    if i < out.len() {
        out[i] = x;
    }
}

// The bytes of s from place `at` on, as far as there is room; the place after them.
pub fn put_bytes(s: &[u8], out: &mut [u8], at: usize) -> usize
    requires { at + length s.now < 2 ^ 64 }
    ensures { (result ≡ at + length s.now) × (out.new ≡ sets out.old at s.now) }
{
    for (i, b) in s.iter().enumerate() {
        put_byte(out, at + i, *b);
    }
    at + s.len()
}

// The digits of n to the base, at most f of them, from place `at` on as far as there is room; the place after them.
pub fn put_number(n: u64, base: u64, f: usize, out: &mut [u8], at: usize) -> usize
    requires { (0 < base) × (base ≤ 16) × (at + f < 2 ^ 64) }
    ensures { (result ≡ at + length (numeral_text base f n)) × (out.new ≡ sets out.old at (numeral_text base f n)) }
{
    if f == 0 {
        return at;
    }
    if n < base {
        put_byte(out, at, digit_byte(n));
        return at + 1;
    }
    let e = put_number(n / base, base, f - 1, out, at);
    put_byte(out, e, digit_byte(n % base));
    e + 1
}

// The name of the kind from place `at` on, as far as there is room; the place after it.
pub fn put_kind(kind: Kind, out: &mut [u8], at: usize) -> usize
    requires { at + longest_name < 2 ^ 64 }
    ensures { (result ≡ at + length (name_of kind)) × (out.new ≡ sets out.old at (name_of kind)) }
{
    put_bytes(kinds::names::name_of(kind), out, at)
}

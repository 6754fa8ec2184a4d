// Runs each call that standard input has, and prints its reply and the lent buffer. `tests/reference/make_calls.py` has the form of a call.
#![tactic(auto)]

ghost use Rattle.std.specs.Prelude.{◌≤◌, ◌<◌, ◌≡◌, length};
ghost use Rattle.call_values.specs.Rooms.{lent_words};

use std::io::{Input, Print};

mod numbers;
mod searches;
mod spaces;
mod turns;

// A call by its number: 0 for Catalogue, 1 for Rank, with k; 2 for the look-up of an entry, with ell, k, shown and its number for the kind's number
// and the sizes; 3 for the formulae of a space, 4 for the terms of a form over a selection, 6 for the turning of a formula with k products, else for a
// product that is redundant in a selection.
#[derive(Clone, Copy)]
struct Call {
    which: u64,
    number: u64,
    p: u64,
    q: u64,
    r: u64,
    asked: u64,
}

// One call, on the forms of a list, the costs of its generators, the rows of a space or a selection, and a lent buffer.
fn call_on(rt: &impl Print, call: Call, gs: &[u64], ts: &[u64], others: &[u64], out: &mut [u64]) {
    let Call {
        which,
        number,
        p,
        q,
        r,
        asked,
    } = call;
    searches::mark(which, out);
    match which {
        0 => {
            let said = catalogue::catalogue(number, p, q, r, asked, gs, ts, out);
            searches::print_catalogued(rt, said, asked, out);
        }
        1 => {
            let said = rank::rank(number, p, q, r, asked, gs, ts, others, out);
            searches::print_ranked(rt, said, out);
        }
        2 => numbers::print_words(rt, records::lookup::entry(out, number, p, q, r)),
        3 => {
            let said = space_formulae::formulae(number, p, q, r, gs, ts, others, out);
            spaces::print_listed(rt, said, out);
        }
        4 => {
            let said = selections::is_sum(number, p, q, r, gs, ts, others, asked, out);
            spaces::print_summed(rt, said, out);
        }
        _ => spaces::print_said(
            rt,
            selections::is_redundant(number, p, q, r, gs, ts, others, asked),
        ),
    }
}

// The words of the longest buffer that a call is lent (`lent_words`).
const LENT_WORDS: usize = 4096;

// Words to lend, each 1000000.
fn lent_words() -> [u64; LENT_WORDS]
    ensures { lent_words ≡ length result }
{
    [1000000; LENT_WORDS]
}

// One call and the end of its line, in a buffer of w words, of LENT_WORDS at most; a turning in buffers of its own.
fn call_one(rt: &impl Print, call: Call, w: u64, gs: &[u64], ts: &[u64], others: &[u64]) {
    if call.which == 6 {
        let formula = turns::Formula {
            number: call.number,
            p: call.p,
            q: call.q,
            r: call.r,
            k: call.asked,
        };
        turns::turn_one(rt, formula, w, gs, ts, others);
        numbers::print_text(rt, "\n");
        return;
    }
    if w > LENT_WORDS as u64 {
        return;
    }
    let mut buffer = lent_words();
    call_on(rt, call, gs, ts, others, &mut buffer[..w as usize]);
    numbers::print_text(rt, "\n");
}

// The end of a stretch of some words from a place, or the end of all n where they are too few.
fn past(at: usize, some: u64, n: usize) -> usize
    requires { at ≤ n }
    ensures { (at ≤ result) × (result ≤ n) }
{
    let m = some as usize;
    if m > n - at {
        return n;
    }
    at + m
}

// The call at a place in some words; the place behind it, or the end of all where they are too few.
fn call_at(rt: &impl Print, words: &[u64], at: usize) -> usize
    requires { at < length words.now }
    ensures { (at < result) × (result ≤ length words.now) }
{
    let n = words.len();
    if n - at < 10 {
        return n;
    }
    let call = Call {
        which: words[at],
        number: words[at + 1],
        p: words[at + 2],
        q: words[at + 3],
        r: words[at + 4],
        asked: words[at + 5],
    };
    let w = words[at + 6];
    let a = at + 10;
    let b = past(a, words[at + 7], n);
    let c = past(b, words[at + 8], n);
    let end = past(c, words[at + 9], n);
    call_one(rt, call, w, &words[a..b], &words[b..c], &words[c..end]);
    end
}

// The calls of some words, one after the other.
fn call_all(rt: &impl Print, words: &[u64]) {
    let mut at: usize = 0;
    while at < words.len() {
        at = call_at(rt, words, at);
    }
}

fn main(rt: HostRuntime) {
    let mut text = numbers::text_room();
    let n = streams::read_full(&mut rt.reader(), &mut text).count;
    let mut found = numbers::number_room();
    let c = numbers::read_numbers(&text[..n], &mut found);
    call_all(&rt, &found[..c]);
}

// Answers each file that an argument names as the programs do that it is meant for: its name, then what they print.
// The first are formula files, for Check and Turn; behind the argument `-` stand problem files, for Catalogue, Rank and Formulae.
#![tactic(auto)]

use std::env::{Env, FillError};
use std::io::{Eprint, Print};
use std::rt::Files;

// What the programs write of a file's bytes.
fn answer(rt: &(impl Print + Eprint), input: &[u8], problem: bool) {
    if !problem {
        check_output::write_check(rt, input);
        turn_output::write_turn(rt, input);
        return;
    }
    program_output::write_catalogue(rt, input);
    program_output::write_rank(rt, input);
    program_output::write_formulae(rt, input);
}

// The system's own words of why a call failed, without the error's number behind them.
fn in_words(said: &str) -> &str {
    said.split(" (os error ").next().unwrap_or(said)
}

// Says on standard error that a file can't be opened: its name, and why.
fn say_unopened(rt: &(impl Eprint + AllocGlobal), name: &str, why: &std::io::Error) {
    let Ok(said) = format!(in rt.alloc(); "{why}") else {
        let _ = eprintln!(rt; "{name}: {why}");
        return;
    };
    let reason = in_words(said.as_str());
    let _ = eprintln!(rt; "{name}: {reason}");
}

// One file.
fn answer_file(rt: &(impl Files + Print + Eprint + AllocGlobal), name: &str, problem: bool) {
    match std::fs::open(rt, name) {
        Ok(mut file) => {
            let mut input = text::input_room();
            let n = streams::read_full(&mut file, &mut input).count;
            let _ = rt.println(name);
            answer(rt, &input[..n], problem);
        }
        Err(why) => say_unopened(rt, name, &why),
    }
}

// An argument, a file's name or the one byte before the problem files; whether those behind it are problem files.
fn answer_argument(
    rt: &(impl Files + Print + Eprint + AllocGlobal),
    argument: &[u8],
    problem: bool,
) -> bool {
    if argument.len() == 1 {
        return true;
    }
    match std::str::from_utf8(argument) {
        Ok(name) => answer_file(rt, name, problem),
        Err(why) => {
            let _ = eprintln!(rt; "a file's name is no text: {why}");
        }
    }
    problem
}

fn main(rt: HostRuntime) {
    let mut argument = [0u8; 4096];
    let mut problem = false;
    for i in 1..usize::MAX {
        let length = match rt.arg(i, &mut argument) {
            Ok(length) => length,
            // as a name that no file has
            Err(FillError::TooLong) => 0,
            Err(FillError::NotPresent) => break,
        };
        problem = answer_argument(&rt, &argument[..length], problem);
    }
}

//! `instants TARGET ASSUMED LIMIT SOURCE...`: reads lines with dates from standard input, and writes one line for each
//! to standard output: a date-time of fixed width at the target offset, or a named fault.
#![tactic(auto)]

mod help;

use crate::help::text_for;
use instants_timeline::{BlockWriter, ProgramFault, RunFault, StdReader, StdWriter, run_words};
use std::alloc::Global;
use std::env;
use std::process::ExitCode;

// Bytes that are written at once, which the answers to a block of input seldom fill.
const BLOCK: usize = 131_072;

fn main(rt: HostRuntime) -> ExitCode {
    match words(&rt) {
        Ok(words) => match asked_text(&words) {
            Some(text) => shown(&rt, text),
            None => ended(&rt, answer_input(&rt, &words)),
        },
        Err(fault) => ended(&rt, Err(fault)),
    }
}

// What one word alone asks to be shown.
fn asked_text(words: &Vec<String>) -> Option<&'static str> {
    match words.as_slice() {
        [_, word] => text_for(word.as_str()),
        _ => None,
    }
}

// Shows a text.
fn shown(rt: &HostRuntime, text: &str) -> ExitCode {
    match println!(rt; "{text}") {
        Ok(()) => ExitCode::SUCCESS,
        Err(_) => ended(rt, Err(ProgramFault::Run(RunFault::Write))),
    }
}

// The program's name and the words after it.
fn words(rt: &HostRuntime) -> Result<Vec<String>, ProgramFault<'static>> {
    let args = env::args(rt).map_err(|_| ProgramFault::Memory)?;
    Ok(args.collect(rt.alloc())?)
}

// Answers each line of standard input on standard output. Memory is taken only before the first read.
fn answer_input<'a>(rt: &HostRuntime, words: &'a Vec<String>) -> Result<(), ProgramFault<'a>> {
    let words: Vec<&'a str> = words
        .iter()
        .skip(1)
        .map(|word| word.as_str())
        .collect(rt.alloc())?;
    answer_by(rt, words.as_slice())
}

// The same by these words.
fn answer_by<'a>(rt: &HostRuntime, words: &[&'a str]) -> Result<(), ProgramFault<'a>> {
    let block = vec![in rt.alloc(); 0; BLOCK]?;
    let mut reader = StdReader::new(rt.stdin());
    let mut writer = BlockWriter::new(block, StdWriter::new(rt.stdout()));
    run_words(rt.alloc(), words, &mut reader, &mut writer)
}

// Says what ended the program early, if anything did, and ends it.
fn ended(rt: &HostRuntime, answered: Result<(), ProgramFault>) -> ExitCode {
    match answered {
        Ok(()) => ExitCode::SUCCESS,
        Err(fault) => {
            // Where the fault can't be printed the status still tells.
            let _ = eprintln!(rt; "{fault}");
            ExitCode::from(fault.status())
        }
    }
}

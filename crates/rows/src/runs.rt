//! Rows of runs: `WORDS | STREAM => ANSWER`, the words of a program, the bytes of its input, and what it writes.
//!
//! - Words are parted by blanks. A word with a blank in it, or an empty one, stands in single quotes.
//! - The stream has `\n`, `\r`, `\t`, `\\` and `\xHH` for bytes that aren't plain text. It ends in a line feed that isn't
//!   written; where `\c` ends the row's stream it has none.
//! - The answer is written so too. Where the program ends early, its sentence and its status stand after what it wrote.
//!
//! It is answered with reads and writes of at most 1000 bytes, and of at most 1 to 26: an answer that differs then is
//! written with its size.

ghost use Rattle.std.specs.Prelude.{◌≡◌, ◌<◌, false};

use crate::bytes::{tell_bytes, unescape};
use crate::telling::{Told, tell_no_call, tells_other};
use instants_lines::LinesFault;
use instants_timeline::{ByteReader, ByteWriter, CutReader, CutWriter, ProgramFault, run_words};
use std::alloc::{AllocError, Global};
use std::fmt::Display;

// How many bytes may be written.
const MOST_WRITTEN: usize = 1000;

/// The program that is run.
#[derive(Clone, Copy)]
pub enum Program {
    /// It answers lines that are dates.
    Instants,
    /// It writes lines by the dates in them.
    InstantsLines,
}

/// What a program answers to words and a stream.
pub fn tell_row(alloc: Global, told: &mut String, program: Program, row: &str) -> Told {
    let Some((words, stream)) = row.split_once(" | ") else {
        return tell_no_call(told);
    };
    let mut bytes = Vec::new(alloc);
    add_stream(&mut bytes, stream)?;
    tell_run(alloc, told, program, words, bytes.as_slice())
}

// Adds the bytes of a stream.
fn add_stream(bytes: &mut Vec<u8>, stream: &str) -> Told {
    match stream.strip_suffix("\\c") {
        Some(whole) => unescape(whole, bytes),
        None => {
            unescape(stream, bytes)?;
            bytes.extend_from_slice(b"\n")
        }
    }
}

fn tell_run(
    alloc: Global,
    told: &mut String,
    program: Program,
    words: &str,
    stream: &[u8],
) -> Told {
    let mut parted = Vec::new(alloc);
    if are_parted(&mut parted, words)? {
        tell_answer(alloc, told, program, parted.as_slice(), stream)
    } else {
        tell_no_call(told)
    }
}

// Parts the words, and says whether each quote is closed.
fn are_parted<'a>(parted: &mut Vec<&'a str>, words: &'a str) -> Result<bool, AllocError> {
    let mut is_quoted = true;
    for part in words.split('\'') {
        is_quoted = !is_quoted;
        if is_quoted {
            parted.push(part)?;
        } else {
            parted.extend(part.split_ascii_whitespace())?;
        }
    }
    Ok(!is_quoted)
}

// What is answered, by whatever reads and writes.
fn tell_answer(
    alloc: Global,
    told: &mut String,
    program: Program,
    words: &[&str],
    stream: &[u8],
) -> Told {
    tell_by(alloc, told, program, words, stream, MOST_WRITTEN)?;
    for most in 1..27 {
        if tells_other_by(alloc, told, program, words, stream, most)? {
            break;
        }
    }
    Ok(())
}

// Whether reads and writes of at most so many bytes give another answer, which is then told.
fn tells_other_by(
    alloc: Global,
    told: &mut String,
    program: Program,
    words: &[&str],
    stream: &[u8],
    most: usize,
) -> Result<bool, AllocError>
    requires { 0 < most }
{
    let mut other = String::new(alloc);
    tell_by(alloc, &mut other, program, words, stream, most)?;
    tells_other(told, other.as_str(), format_args!("by {most}"))
}

// What is answered with reads and writes of at most so many bytes.
fn tell_by(
    alloc: Global,
    told: &mut String,
    program: Program,
    words: &[&str],
    stream: &[u8],
    most: usize,
) -> Told
    requires { 0 < most }
{
    let mut space = [0; MOST_WRITTEN];
    let mut reader = CutReader::new(stream, most, None);
    let mut writer = CutWriter::new(&mut space, most, None);
    match program {
        Program::Instants => match run_on(alloc, words, &mut reader, &mut writer) {
            Ok(()) => tell_output(told, writer.written()),
            Err(fault) => tell_end(told, writer.written(), &fault, fault.status()),
        },
        Program::InstantsLines => match run_lines_on(alloc, words, &mut reader, &mut writer) {
            Ok(()) => tell_output(told, writer.written()),
            Err(fault) => tell_end(told, writer.written(), &fault, fault.status()),
        },
    }
}

// What was written before a run ended early, its sentence and its status.
fn tell_end<F: Display>(told: &mut String, written: &[u8], fault: &F, status: u8) -> Told {
    tell_bytes(told, written)?;
    write!(told, "{fault} (status {status})")
}

// A run on these devices, whatever they are: what `run_words` promises of them is not needed above.
fn run_on<'a, R: ByteReader, W: ByteWriter>(
    alloc: Global,
    words: &[&'a str],
    reader: &mut R,
    writer: &mut W,
) -> Result<(), ProgramFault<'a>>
    requires reader { R.failed reader.old ≡ false }
    requires writer { W.failed writer.old ≡ false }
{
    run_words(alloc, words, reader, writer)
}

// Runs the program for dates in lines.
fn run_lines_on<'a, R: ByteReader, W: ByteWriter>(
    alloc: Global,
    words: &[&'a str],
    reader: &mut R,
    writer: &mut W,
) -> Result<(), LinesFault<'a>>
    requires reader { R.failed reader.old ≡ false }
    requires writer { W.failed writer.old ≡ false }
{
    instants_lines::run_words(alloc, words, None, reader, writer)
}

// An output: its bytes, but for a line feed at their end, or `\c` where there is none.
fn tell_output(told: &mut String, output: &[u8]) -> Told {
    match output {
        [lines @ .., b'\n'] => tell_bytes(told, lines),
        _ => {
            tell_bytes(told, output)?;
            told.push_str("\\c")
        }
    }
}

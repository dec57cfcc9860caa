//! `rows`: reads rows from standard input, and writes each with what is answered after its last ` => `.
//!
//! A blank line and one that begins with `#` are written as they are, and a line that has no ` => ` as `? LINE`. What
//! the rows below a heading are says the heading; where a row can't be answered, `?` is.
//!
//! - `## Descriptions`: texts as descriptions, and their words (`texts`);
//! - `## Readings`: texts as a description or a format reads them (`readings`);
//! - `## Runs`: words and a stream, as the program `instants` answers them (`runs`);
//! - `## Dated lines`: the same of `instants-lines`.
#![tactic(auto)]

mod bytes;
mod calls;
mod changes;
mod formats;
mod pieces;
mod readings;
mod records;
mod runs;
mod telling;
mod texts;
mod versions;
mod words;

use runs::Program;
use std::alloc::Global;
use std::io;
use std::process::ExitCode;
use telling::Told;

fn main(rt: HostRuntime) -> ExitCode {
    match answer_input(&rt) {
        Ok(()) => ExitCode::SUCCESS,
        Err(fault) => {
            // Where the fault can't be printed the status still tells.
            let _ = eprintln!(rt; "rows: {fault}");
            ExitCode::FAILURE
        }
    }
}

fn answer_input(rt: &HostRuntime) -> io::Result<()> {
    let text = io::read_to_string(rt.alloc(), rt.stdin())?;
    let mut answers = String::new(rt.alloc());
    add_lines(rt.alloc(), &mut answers, text.as_str())?;
    rt.print(answers.as_str())
}

// What rows are.
#[derive(Clone, Copy)]
enum Kind {
    Description,
    Reading,
    Run(Program),
}

// What the rows below a heading are.
fn kind_below(line: &str) -> Option<Kind> {
    match line {
        "## Descriptions" => Some(Kind::Description),
        "## Readings" => Some(Kind::Reading),
        "## Runs" => Some(Kind::Run(Program::Instants)),
        "## Dated lines" => Some(Kind::Run(Program::InstantsLines)),
        _ => None,
    }
}

// Adds each line, a row with its answer.
fn add_lines(alloc: Global, answers: &mut String, text: &str) -> Told {
    let mut kind = Kind::Description;
    for line in text.lines() {
        kind = kind_below(line).unwrap_or(kind);
        add_line(alloc, answers, kind, line)?;
    }
    Ok(())
}

fn add_line(alloc: Global, answers: &mut String, kind: Kind, line: &str) -> Told {
    if line.is_empty() || line.starts_with('#') {
        return writeln!(answers, "{line}");
    }
    match line.rsplit_once(" => ") {
        Some((row, _)) => add_answered(alloc, answers, kind, row),
        None => writeln!(answers, "? {line}"),
    }
}

// Adds a row with its answer.
fn add_answered(alloc: Global, answers: &mut String, kind: Kind, row: &str) -> Told {
    let mut answer = String::new(alloc);
    tell_row(alloc, &mut answer, kind, row)?;
    writeln!(answers, "{row} => {answer}")
}

fn tell_row(alloc: Global, told: &mut String, kind: Kind, row: &str) -> Told {
    match kind {
        Kind::Description => texts::tell_row(alloc, told, row),
        Kind::Reading => readings::tell_row(alloc, told, row),
        Kind::Run(program) => runs::tell_row(alloc, told, program, row),
    }
}

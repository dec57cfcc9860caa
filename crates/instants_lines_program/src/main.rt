//! `instants-lines [-q] [--count] MODE [TARGET [ASSUMED [LIMIT]]] [year N] [time HH:MM] [field NAME | column N [separator S]]
//! [label TEXT] SOURCE...`: reads lines with dates in them from standard input, and writes each to standard output: after the date-time at the target offset, or with that in
//! place of its date. `instants-lines guess`: writes which formats date the lines of standard input.
#![tactic(auto)]

mod bare;
mod counting;
mod help;
mod hints;
mod noting;
mod options;
mod packed;
mod zone_files;
mod zone_names;

use crate::bare::warn_of_bare;
use crate::counting::{Counting, Counts};
use crate::help::{HELP, text_for};
use crate::hints::hint_on;
use crate::noting::Noting;
use crate::options::Options;
use crate::packed::Looking;
use crate::zone_files::{NamedZone, NoZone, read_named};
use instants_formats::formats;
use instants_guess::guess;
use instants_lines::{
    BlockWriter, LinesFault, ProgramFault, RunFault, StdReader, StdWriter, run_words, zone_named,
};
use std::alloc::Global;
use std::env;
use std::io::{self, ErrorKind};
use std::process::ExitCode;
use zones::Zone;

// Bytes that are written at once.
const BLOCK: usize = 65_536;

fn main(rt: HostRuntime) -> ExitCode {
    match words(&rt) {
        Ok(words) => match asked_text(&words) {
            Some(text) => shown(&rt, text),
            None => write_input(&rt, &words),
        },
        Err(fault) => ended(&rt, Err(fault), None),
    }
}

// The program's name and the words after it.
fn words(rt: &HostRuntime) -> Result<Vec<String>, LinesFault<'static>> {
    let args = env::args(rt).map_err(|_| LinesFault::Program(ProgramFault::Memory))?;
    Ok(args.collect(rt.alloc())?)
}

// What one word alone asks to be shown.
fn asked_text(words: &Vec<String>) -> Option<&'static str> {
    match words.as_slice() {
        [_, word] => text_for(word.as_str()),
        _ => None,
    }
}

// Prints a text, and below the help the name of each format.
fn print_text(rt: &HostRuntime, text: &str) -> io::Result<()> {
    println!(rt; "{text}")?;
    if text == HELP {
        for format in formats() {
            let name = format.name;
            println!(rt; "    {name}")?;
        }
    }
    Ok(())
}

// Shows a text.
fn shown(rt: &HostRuntime, text: &str) -> ExitCode {
    match print_text(rt, text) {
        Ok(()) => ExitCode::SUCCESS,
        Err(fault) => {
            let end = LinesFault::Program(ProgramFault::Run(RunFault::Write));
            ended(rt, Err(end), Some(fault.kind()))
        }
    }
}

// Writes for each line of standard input on standard output, and says what ended it early. Memory is taken only before the
// first read.
fn write_input(rt: &HostRuntime, words: &Vec<String>) -> ExitCode {
    let words = words.iter().skip(1).map(|word| word.as_str());
    match words.collect::<Vec<&str>>(rt.alloc()) {
        Ok(words) => write_as_asked(rt, words.as_slice()),
        Err(fault) => ended(rt, Err(LinesFault::from(fault)), None),
    }
}

// Writes what the words after the options ask for.
fn write_as_asked(rt: &HostRuntime, words: &[&str]) -> ExitCode {
    let (options, words) = Options::read(words);
    if !options.is_quiet {
        warn_of_bare(rt, words);
    }
    if options.counts && !asks_keys(words) {
        let _ = eprintln!(rt;
            "instants-lines: --count: modes key, carry and locate have keys to count"
        );
        return ExitCode::from(2);
    }
    write_by(rt, words, options)
}

// Writes what these words ask for.
fn write_by(rt: &HostRuntime, words: &[&str], options: Options) -> ExitCode {
    let Ok(block) = vec![in rt.alloc(); 0; BLOCK] else {
        return ended(rt, Err(LinesFault::Program(ProgramFault::Memory)), None);
    };
    let Ok(own_rt) = rt.clone() else {
        return ended(rt, Err(LinesFault::Program(ProgramFault::Memory)), None);
    };
    let zone = zone_named(words).map(|name| read_named(rt, name, options.counts));
    let mut input = Noting::new(Looking::new(own_rt, rt.stdin(), options.is_quiet));
    let mut output = Noting::new(Counting::new(rt.stdout(), options.asked(asks_keys(words))));
    let mut reader = StdReader::new(&mut input);
    let mut writer = BlockWriter::new(block, StdWriter::new(&mut output));
    let end = if asks_guess(words) {
        match guess(rt.alloc(), &mut reader, &mut writer) {
            Ok(()) => Ok(()),
            Err(fault) => Err(LinesFault::Program(ProgramFault::from(fault))),
        }
    } else {
        run_words(rt.alloc(), words, there(&zone), &mut reader, &mut writer)
    };
    drop(writer);
    drop(reader);
    if end.is_ok() {
        tell(rt, output.inner().counts(), &zone, options);
    }
    if let (Err(LinesFault::Zone(_)), Some(Err(fault))) = (end, &zone) {
        return without_zone(rt, fault);
    }
    ended(rt, end, output.failure().or(input.failure()))
}

// The zone that the words name, where it was read.
fn there<'z>(found: &'z FoundZone<'_>) -> Option<&'z Zone> {
    match found {
        Some(Ok(found)) => Some(&found.zone),
        _ => None,
    }
}

// Says why a zone is not there, and ends the program.
fn without_zone(rt: &HostRuntime, fault: &NoZone<'_>) -> ExitCode {
    let _ = eprintln!(rt; "instants-lines: {fault}");
    ExitCode::from(fault.status())
}

// A zone that was looked for.
type FoundZone<'a> = Option<Result<NamedZone<'a>, NoZone<'a>>>;

// Says how many lines have which key, by which zone, where that is asked, and that none is dated. Where this can't be printed the
// run has ended well all the same.
fn tell(rt: &HostRuntime, counts: &Counts, zone: &FoundZone<'_>, options: Options) {
    if options.counts {
        let _ = eprintln!(rt; "instants-lines: {counts}");
        if let Some(Ok(zone)) = zone {
            let _ = eprintln!(rt; "instants-lines: {zone}");
        }
    }
    if !options.is_quiet && counts.is_undated() {
        let _ = eprintln!(rt;
            "instants-lines: warning: no line has a date that these sources read: try instants-lines guess < FILE"
        );
    }
}

// Whether the words ask for lines after keys.
fn asks_keys(words: &[&str]) -> bool {
    matches!(words, [mode, ..] if matches!(*mode, "key" | "carry" | "locate"))
}

// Whether the words ask which formats date the lines.
fn asks_guess(words: &[&str]) -> bool {
    matches!(words, [word] if *word == "guess")
}

// Says what ended the program early, if anything did, and ends it. A pipe whose reader has read enough is no news.
fn ended(rt: &HostRuntime, end: Result<(), LinesFault>, failure: Option<ErrorKind>) -> ExitCode {
    let Err(fault) = end else {
        return ExitCode::SUCCESS;
    };
    // Where the fault can't be printed the status still tells.
    let _ = match (fault, failure) {
        (LinesFault::Program(ProgramFault::Run(RunFault::Write)), Some(ErrorKind::BrokenPipe)) =>
            Ok(()),
        (LinesFault::Program(ProgramFault::Run(_)), Some(kind)) => eprintln!(rt; "{fault}: {kind}"),
        _ => eprintln!(rt; "{fault}"),
    };
    if let Some(hint) = hint_on(&fault) {
        let _ = eprintln!(rt; "instants-lines: hint: {hint}");
    }
    ExitCode::from(fault.status())
}

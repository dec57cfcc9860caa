//! How faults are printed, by `{:?}` and under a width, which sentences ignore, and how they stand for a line.

use description::{DescriptionFault, InvalidFormatDescription};
use instants::{Answer, LineFault, NewFault, ProgramFault, RunFault, WordsFault};
use instants_faults::fill_no_year;
use std::alloc::{AllocError, Global};
use std::test::Fail;

static PROGRAM_FAULTS: [ProgramFault<'static>; 4] = [
    ProgramFault::New(NewFault::Source {
        place: 3,
        fault: InvalidFormatDescription::MissingComponentName { index: 4 },
    }),
    ProgramFault::Words(WordsFault::Source(2)),
    ProgramFault::Run(RunFault::Read),
    ProgramFault::Memory,
];

static LINE_FAULTS: [LineFault; 7] = [
    LineFault::Literal,
    LineFault::Component("offset hour"),
    LineFault::Trailing,
    LineFault::Insufficient,
    LineFault::Range("day"),
    LineFault::Year,
    LineFault::Long,
];

// Each fault that ends the program, and its sentence.
static SENTENCES: [(ProgramFault<'static>, &str); 11] = [
    (
        ProgramFault::Words(WordsFault::Usage),
        "instants: usage: instants TARGET ASSUMED LIMIT SOURCE...",
    ),
    (
        ProgramFault::Words(WordsFault::Target),
        "instants: the target offset must be +HH:MM or -HH:MM",
    ),
    (
        ProgramFault::Words(WordsFault::Assumed),
        "instants: the assumed offset must be +HH:MM, -HH:MM or -",
    ),
    (
        ProgramFault::Words(WordsFault::Limit),
        "instants: the limit must be a number from 1 to 1048576",
    ),
    (
        ProgramFault::Words(WordsFault::Source(12)),
        "instants: source 12 is not a known source with its description",
    ),
    (
        ProgramFault::Words(WordsFault::Memory),
        "instants: out of memory",
    ),
    (
        ProgramFault::New(NewFault::Source {
            place: 3,
            fault: InvalidFormatDescription::MissingComponentName { index: 4 },
        }),
        "instants: source 3: missing component name at byte index 4",
    ),
    (
        ProgramFault::New(NewFault::Memory),
        "instants: out of memory",
    ),
    (
        ProgramFault::Run(RunFault::Read),
        "instants: reading failed",
    ),
    (
        ProgramFault::Run(RunFault::Write),
        "instants: writing failed",
    ),
    (ProgramFault::Memory, "instants: out of memory"),
];

// `Display` returns `Ok` for each, which no clause says.
fn have_sentences(alloc: Global) -> Result<bool, AllocError> {
    for row in &SENTENCES {
        let told = format!(in alloc; "{}", row.0)?;
        if told.as_str() != row.1 {
            return Ok(false);
        }
    }
    Ok(true)
}

fn told(alloc: Global) -> Result<String, AllocError> {
    let fault = PROGRAM_FAULTS[0];
    format!(in alloc; "{fault:>99}\n{PROGRAM_FAULTS:?}\n{LINE_FAULTS:?}")
}

fn no_year() -> bool {
    let mut room = [b'.'; 64];
    fill_no_year(&mut room) == 17 && room.starts_with(b"! component year\n.")
}

// Faults in place of a date.
fn written() -> bool {
    let mut answer = Answer::new();
    LineFault::Year.put(&mut answer);
    let mut room = [b'.'; 64];
    let len = LineFault::Component("month").fill(&mut room);
    answer.as_bytes() == b"! year".as_slice()
        && len == 18
        && room.starts_with(b"! component month\n.")
        && no_year()
        && NewFault::refused(2, DescriptionFault::Memory) == NewFault::Memory
}

#[test]
fn faults(rt: HostRuntime) -> Result<(), Fail> {
    let have_sentences = have_sentences(rt.alloc())?;
    let told = told(rt.alloc())?;
    assert!(rt; have_sentences && told.as_str() == PRINTED && written());
    Ok(())
}

const PRINTED: &str = r#"instants: source 3: missing component name at byte index 4
[New(Source { place: 3, fault: MissingComponentName { index: 4 } }), Words(Source(2)), Run(Read), Memory]
[Literal, Component("offset hour"), Trailing, Insufficient, Range("day"), Year, Long]"#;

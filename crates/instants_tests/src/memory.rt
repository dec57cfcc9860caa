//! Calls that take memory: where a growth is refused they say so and write nothing, and else they give what they always give.

use instants::{CutReader, CutWriter, SourceText, WordsFault, read_words, run_words};
use instants_memory::{LINE_ROOM, answer_lines, laws};
use std::alloc::{AllocError, Global};
use std::test::Fail;

static WORDS: [&str; 8] = [
    "+00:00",
    "-",
    "100",
    "rfc3339",
    "v3",
    "[first [[unix_timestamp]] [[year]-[month]-[day]]]",
    "strftime",
    "%d/%b/%Y:%H:%M:%S %z",
];

const STREAM: &[u8] = b"02/Jan/2021:03:04:07 +0000\n1\n";

const OUTPUT: &[u8] = b"2021-01-02T03:04:07.000000000Z\n1970-01-01T00:00:01.000000000Z\n";

// Whether the words are read.
fn are_read(alloc: Global) -> Result<bool, AllocError> {
    match read_words(alloc, &WORDS) {
        Ok(read) => {
            let sources = [
                SourceText::Rfc3339,
                SourceText::V3(WORDS[5]),
                SourceText::Strftime(WORDS[7]),
            ];
            Ok(read.sources.as_slice() == sources.as_slice())
        }
        Err(WordsFault::Memory) => Err(AllocError),
        Err(_) => Ok(false),
    }
}

// Whether a run writes the output. The status 1 says here that memory was refused, since the devices work and the words are
// right.
fn is_written(alloc: Global) -> Result<bool, AllocError> {
    let mut space = [0; 100];
    let mut reader = CutReader::new(STREAM, 7, None);
    let mut writer = CutWriter::new(&mut space, 7, None);
    match run_words(alloc, &WORDS, &mut reader, &mut writer) {
        Ok(()) => Ok(writer.written() == OUTPUT),
        Err(fault) if fault.status() == 1 && writer.written().is_empty() => Err(AllocError),
        Err(_) => Ok(false),
    }
}

// Whether lines are answered in place.
fn are_answered(alloc: Global) -> Result<bool, AllocError> {
    let mut output = [b'.'; 2 * LINE_ROOM];
    match answer_lines(alloc, &WORDS, STREAM, &mut output) {
        Ok(len) => Ok(len == 62 && output.starts_with(OUTPUT)),
        Err(fault) if fault.status() == 1 && output == [b'.'; 72] => Err(AllocError),
        Err(_) => Ok(false),
    }
}

#[test]
fn words_runs_and_lines(rt: HostRuntime) -> Result<(), Fail> {
    laws::one_output();
    laws::joined_blocks();
    let are_read = are_read(rt.alloc())?;
    let is_written = is_written(rt.alloc())?;
    let are_answered = are_answered(rt.alloc())?;
    assert!(rt; are_read && is_written && are_answered && laws::line_room() == LINE_ROOM);
    Ok(())
}

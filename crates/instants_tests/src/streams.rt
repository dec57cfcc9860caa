//! Runs over streams, with reads of every size: what is written, and what the writer below has before each read.

ghost use Rattle.std.specs.Prelude.{◌<◌, vec_len};

use instants_answers::Answer;
use instants_stream::{
    AnswersLines, BlockWriter, CutReader, CutWriter, RunFault, TooLittleRoom, lines_over, run_lines,
};
use std::alloc::Global;

/// Two lines.
pub const STREAM: &[u8; 26] = b"1985-04-12T23:20:50.52Z\nx\n";

/// Their answers.
pub const OUTPUT: &[u8; 48] = b"1985-04-12T23:20:50.520000000Z\n! component year\n";

/// Answers each long line with a date-time, and each short one with a refusal.
#[derive(Drop)]
pub struct ByLength;

impl AnswersLines for ByLength {
    ghost use Rattle.std.specs.Prelude.{length, nat_lt, codes, if◌then◌else◌};

    ghost answer = { λ _ line. if nat_lt 10 (length line)
        then codes "1985-04-12T23:20:50.520000000Z" else codes "! component year" };

    fn answer_line(&self, line: &[u8]) -> Answer {
        let mut answer = Answer::new();
        if line.len() > 10 {
            answer.push_bytes(b"1985-04-12T23:20:50.520000000Z");
        } else {
            answer.push_bytes(b"! component year");
        }
        answer
    }

    fn fill_answer(&self, line: &[u8], room: &mut [u8]) -> usize {
        self.answer_line(line).fill_line(room)
    }
}

// A limit, a stream and its output.
static STREAMS: [(usize, &[u8], &[u8]); 5] = [
    (100, STREAM, OUTPUT),
    (
        1,
        b"x\nxy\n\n",
        b"! component year\n! long\n! component year\n",
    ),
    (
        1,
        b"x\nxy\n\nxyz",
        b"! component year\n! long\n! component year\n! long\n",
    ),
    (1, b"x", b"! component year\n"),
    (1, b"", b""),
];

// What is answered where the lines of a stream lie, in room for so many bytes, and the room.
fn over(limit: usize, stream: &[u8], room: usize) -> (Result<usize, TooLittleRoom>, [u8; 48]) {
    let mut space = [0; 48];
    let answer = lines_over(&ByLength, limit, stream, &mut space[..room.min(48)]);
    (answer, space)
}

// These bytes before, and zeros.
fn with_zeros(bytes: &[u8]) -> [u8; 48] {
    let mut space = [0; 48];
    let count = bytes.len().min(48);
    space[..count].copy_from_slice(&bytes[..count]);
    space
}

fn lines_in_place() -> bool {
    for row in &STREAMS {
        let len = row.2.len();
        if over(row.0, row.1, len) != (Ok(len), with_zeros(row.2)) {
            return false;
        }
    }
    over(100, STREAM, 47) == (Err(TooLittleRoom), with_zeros(&OUTPUT[..47]))
}

// How a run ends that gathers its answers in a block, whose reads give at most so many bytes and fail after so many, and what
// the writer below the block has.
fn ended(
    block: Vec<u8>,
    limit: usize,
    stream: &[u8],
    most: usize,
    read_fails: Option<usize>,
) -> (Result<(), RunFault>, [u8; 48])
    requires { 0 < vec_len block }
{
    let limit = limit.min(100);
    let mut buffer = [0; 101];
    let mut space = [0; 48];
    let answer;
    {
        let mut reader = CutReader::new(stream, most.max(1), read_fails);
        let mut writer = BlockWriter::new(block, CutWriter::new(&mut space, 48, None));
        answer = run_lines(
            &ByLength,
            limit,
            &mut buffer[..=limit],
            &mut reader,
            &mut writer,
        );
    }
    (answer, space)
}

// Reads of every size over a stream. That memory runs out fails the test.
fn is_read(alloc: Global, limit: usize, stream: &[u8], output: &[u8]) -> bool {
    for most in 1..27 {
        let Ok(block) = vec![in alloc; 0; 7] else {
            return false;
        };
        if ended(block, limit, stream, most, None) != (Ok(()), with_zeros(output)) {
            return false;
        }
    }
    true
}

fn are_read(alloc: Global) -> bool {
    for row in &STREAMS {
        if !is_read(alloc, row.0, row.1, row.2) {
            return false;
        }
    }
    true
}

// What is written of `OUTPUT` where a read fails after so many bytes of `STREAM`.
fn written_before(read_fails: usize) -> &'static [u8] {
    match read_fails {
        0..=23 => b"",
        24 | 25 => &OUTPUT[..31],
        _ => OUTPUT,
    }
}

// Before each read all answers are below, so that they are there when it fails.
fn is_below(alloc: Global, limit: usize, most: usize) -> bool {
    for after in 0..27 {
        let Ok(block) = vec![in alloc; 0; 100] else {
            return false;
        };
        let wanted = (Err(RunFault::Read), with_zeros(written_before(after)));
        if ended(block, limit, STREAM, most, Some(after)) != wanted {
            return false;
        }
    }
    true
}

// A limit, and how many bytes a read gives at most. Where the limit is 25, the buffer has 26 bytes, and is empty again once the
// whole stream is read.
static CUTS: [(usize, usize); 6] = [(100, 1), (100, 2), (100, 5), (100, 24), (100, 26), (25, 26)];

fn are_below(alloc: Global) -> bool {
    for row in &CUTS {
        if !is_below(alloc, row.0, row.1) {
            return false;
        }
    }
    true
}

#[test]
fn streams(rt: HostRuntime) {
    assert!(rt; lines_in_place() && are_read(rt.alloc()) && are_below(rt.alloc()));
}

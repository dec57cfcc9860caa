//! Timelines: the nodes of their sources, how many items are tried on a line, and how it is answered where it lies, as text, as
//! numbers and by a run.

use instants::{CutReader, CutWriter, SourceText, Timeline, asked_timeline, run, run_over};
use instants_memory::{Moment, moments_over};
use instants_sources::Source;
use std::alloc::Global;

// What is told of a line: how many items are tried on it, all nodes, and its answer, as text and as numbers.
type Told = (u128, u128, [u8; 40], (i64, u32, u32));

const MOMENT: (i64, u32, u32) = (7, 500_000_000, 0);

// Words, a line, and what is told of it. In the last row an offset is assumed, and the other source is not tried.
static ROWS: [(&[&str], &[u8], Told); 7] = [
    (
        &["+00:00", "-", "30", "rfc3339"],
        b"1970-01-01T01:00:07.5+01:00",
        (1, 1, *b"1970-01-01T00:00:07.500000000Z\n.........", MOMENT),
    ),
    (
        &["+00:00", "-", "30", "rfc2822", "iso8601"],
        b"19700101T000007,5Z",
        (2, 2, *b"1970-01-01T00:00:07.500000000Z\n.........", MOMENT),
    ),
    (
        &["+01:00", "-", "30", "iso8601", "rfc3339", "rfc2822"],
        b"1 Jan 1970 00:00:07 GMT",
        (
            3,
            3,
            *b"1970-01-01T01:00:07.000000000+01:00\n....",
            (7, 0, 0),
        ),
    ),
    (
        &[
            "+00:00",
            "-",
            "30",
            "v2",
            "[unix_timestamp]",
            "strftime",
            "x%d",
        ],
        b"y",
        (
            2,
            3,
            *b"! component unix_timestamp\n.............",
            (0, 0, 216),
        ),
    ),
    (
        &["+00:00", "-", "30", "v3", "[first [[year]-[month]] [x]]"],
        b"2021-x",
        (
            8,
            8,
            *b"! component month\n......................",
            (0, 0, 202),
        ),
    ),
    (
        &["+00:00", "-", "5", "rfc3339"],
        b"1970-0",
        (
            1,
            1,
            *b"! long\n.................................",
            (0, 0, 700),
        ),
    ),
    (
        &[
            "+00:00",
            "+00:00",
            "30",
            "v2",
            "[year]-[month]-[day] [hour]:[minute]",
            "rfc3339",
        ],
        b"1970-01-01 00:01",
        (
            9,
            10,
            *b"1970-01-01T00:01:00.000000000Z\n.........",
            (60, 0, 0),
        ),
    ),
];

// Whether a run over a line writes the beginning of these bytes.
fn runs_so(timeline: &Timeline, limit: usize, line: &[u8], wanted: &[u8]) -> bool {
    let mut buffer = [0; 31];
    let mut space = [0; 40];
    let mut reader = CutReader::new(line, 7, None);
    let mut writer = CutWriter::new(&mut space, 7, None);
    let buffer = &mut buffer[..=limit.clamp(1, 30)];
    run(timeline, buffer, &mut reader, &mut writer) == Ok(())
        && wanted.starts_with(writer.written())
}

fn told(timeline: &Timeline, limit: usize, line: &[u8]) -> Told {
    let mut output = [b'.'; 40];
    let _ = run_over(timeline, limit, line, &mut output);
    let mut moments = [Moment {
        seconds: 0,
        nanoseconds: 0,
        fault: 0,
    }];
    let _ = moments_over(timeline, limit, line, &mut moments);
    let moment = moments[0];
    (
        timeline.place_counted(line).1,
        timeline.places(),
        output,
        (moment.seconds, moment.nanoseconds, moment.fault),
    )
}

// Whether this is told of a line, and a run writes the same.
fn is_told(alloc: Global, words: &[&str], line: &[u8], wanted: &Told) -> bool {
    match asked_timeline(alloc, words) {
        Ok((timeline, limit)) => {
            told(&timeline, limit, line) == *wanted && runs_so(&timeline, limit, line, &wanted.2)
        }
        Err(_) => false,
    }
}

fn are_told(alloc: Global) -> bool {
    for row in &ROWS {
        if !is_told(alloc, row.0, row.1, &row.2) {
            return false;
        }
    }
    true
}

// How many items a source tries on a line, and its nodes.
fn counts(source: &Source, line: &[u8]) -> (u128, u128) {
    (source.tried(line, &None), source.nodes())
}

// Whether it tries six of eight.
fn are_counted(alloc: Global, text: SourceText, line: &[u8]) -> bool {
    match Source::new(alloc, text) {
        Ok(source) => counts(&source, line) == (6, 8),
        Err(_) => false,
    }
}

#[test]
fn timelines_and_sources(rt: HostRuntime) {
    let text = SourceText::V3("[first [[year]-[month]] [x]]");
    assert!(rt; are_told(rt.alloc()) && are_counted(rt.alloc(), text, b"x"));
}

//! Lines of moments by themselves. Lines and the answers to them are rows of the program `rows`.

use calendar::UtcOffset;
use datetime::{OffsetDateTime, Timestamp};
use instants::{fits_line, fits_utc_line, utc_line_by_timestamp, utc_line_by_utc};
use instants_answers::{Answer, has_written_year, is_target};

// Seconds since 1970, an offset in seconds, whether the year there, the offset and the moment there have a line, and the
// line in UTC, or nothing where there is none.
static LINES: [(i64, i32, [bool; 3], &[u8]); 6] = [
    (-62_167_219_201, 0, [false, true, false], b""),
    (
        951_782_400,
        30,
        [true, false, false],
        b"2000-02-29T00:00:00.000000000Z",
    ),
    (
        951_782_400,
        -3600,
        [true; 3],
        b"2000-02-29T00:00:00.000000000Z",
    ),
    (
        253_402_300_799,
        86_340,
        [false, true, false],
        b"9999-12-31T23:59:59.000000000Z",
    ),
    (253_402_304_399, -3600, [true; 3], b""),
    (253_402_300_800, 0, [false, true, false], b""),
];

// The moment of an instant at an offset in seconds.
fn shown(second: i64, offset: i32) -> Option<OffsetDateTime> {
    let instant = Timestamp::from_seconds(second).ok()?;
    instant.checked_to_offset(UtcOffset::from_whole_seconds(offset).ok()?)
}

// Whether the year, the offset and the moment have a line.
fn have_lines(moment: OffsetDateTime) -> [bool; 3] {
    [
        has_written_year(moment),
        is_target(moment.offset()),
        fits_line(moment),
    ]
}

// Whether both calendars write this line in UTC, or there is none.
fn is_utc_line(moment: OffsetDateTime, line: &[u8]) -> bool {
    if !fits_utc_line(moment) {
        return line.is_empty();
    }
    utc_line_by_timestamp(moment).as_bytes() == line && utc_line_by_utc(moment).as_bytes() == line
}

fn are_so() -> bool {
    for row in &LINES {
        let (second, offset, wanted, line) = *row;
        let Some(moment) = shown(second, offset) else {
            return false;
        };
        if have_lines(moment) != wanted || !is_utc_line(moment, line) {
            return false;
        }
    }
    true
}

fn answers_are_pushed() -> bool {
    let mut answer = Answer::new();
    answer.push_bytes(b"! yea");
    answer.push(b'r');
    let mut room = [b'?'; 64];
    let len = answer.fill_line(&mut room);
    answer.as_bytes() == b"! year".as_slice()
        && len == 7
        && room.starts_with(b"! year\n")
        && answer != Answer::new()
}

#[test]
fn lines_and_answers(rt: HostRuntime) {
    assert!(rt; are_so() && answers_are_pushed());
}

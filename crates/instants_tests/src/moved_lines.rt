//! Lines of fields, shown at another offset. Those that stay in their month are rows of the program `rows`.

use calendar::UtcOffset;
use instants_answers::{Answer, Target, fill_fields, fill_text, is_target, write_fields};
use instants_sources::Named;
use instants_timeline::answer_named;
use parsing_values::Fields;

// A line, the target in seconds, and the line there: nothing where the day at the target is in another month.
static CASES: [(&[u8], i32, &[u8]); 6] = [
    (
        b"2024-02-28T23:59:07.9Z",
        60,
        b"2024-02-29T00:00:07.900000000+00:01",
    ),
    (b"2023-02-28T23:59:07.9Z", 60, b""),
    (b"2024-02-29T23:59:07.9Z", 60, b""),
    (b"0000-01-01T00:00:07.9+00:01", 0, b""),
    (b"1970-01-01T00:00:07.9+19:59", 0, b""),
    (
        b"1970-01-03T00:00:07.9+19:59",
        0,
        b"1970-01-02T04:01:07.900000000Z",
    ),
];

// Whether these fields have that line at a target.
fn is_written(fields: &Fields, target: UtcOffset, line: &[u8]) -> bool {
    let mut answer = Answer::new();
    is_target(target)
        && write_fields(fields, Target::new(target), &mut answer) != line.is_empty()
        && answer.as_bytes() == line
        && is_filled(fields, Target::new(target), line)
}

// Whether that line, and a line feed, are written at the start of a room.
fn is_filled(fields: &Fields, target: Target, line: &[u8]) -> bool {
    let mut room = [b'?'; 64];
    match fill_fields(fields, target, &mut room) {
        Some(len) => len == line.len() + 1 && room.starts_with(line) && room[len - 1] == b'\n',
        None => line.is_empty(),
    }
}

// The same of a line, and a target in seconds.
fn is_moved(line: &[u8], target: i32, wanted: &[u8]) -> bool {
    let read = parsing_rfc3339::read_fields(line);
    match (read, UtcOffset::from_whole_seconds(target)) {
        (Some(fields), Ok(target)) => is_written(&fields, target, wanted),
        _ => false,
    }
}

fn are_moved() -> bool {
    for row in &CASES {
        if !is_moved(row.0, row.1, row.2) {
            return false;
        }
    }
    true
}

// Whether a line in UTC with nine digits of a fraction is written as it stands.
fn is_kept(line: &[u8]) -> bool {
    let Some(fields) = parsing_rfc3339::read_usual_fields(line) else {
        return false;
    };
    if !parsing_rfc3339::is_like_whole(line) {
        return false;
    }
    let mut room = [b'?'; 64];
    let len = fill_text(&fields, line, &mut room);
    len == line.len() + 1 && room.starts_with(line) && room[len - 1] == b'\n'
}

// The Unix time of a moment that a text names, whether its fields are kept, and whether it is answered so in UTC.
fn told(named: &Named, line: &[u8]) -> (i64, bool, bool) {
    let answer = answer_named(Target::new(UtcOffset::UTC), named);
    (
        named.moment().unix_timestamp(),
        named.fields().is_some(),
        answer.as_bytes() == line,
    )
}

// Kept as its fields, and as a moment.
fn are_named(fields: &Fields, line: &[u8]) -> bool {
    let kept = Named::of_fields(*fields);
    let counted = Named::of_moment(fields.moment());
    told(&kept, line) == (7, true, true) && told(&counted, line) == (7, false, true)
}

#[test]
fn moved_lines_and_named_moments(rt: HostRuntime) {
    let fields = parsing_rfc3339::read_fields(b"1970-01-01T01:00:07+01:00").expect(&rt, "fields");
    assert!(rt; are_moved() && are_named(&fields, b"1970-01-01T00:00:07.000000000Z"));
    assert!(rt; is_kept(b"1985-04-12T23:20:50.520000000Z") && Target::new(UtcOffset::UTC).is_utc());
}

//! What stands beside a date in a line, each call by itself.

use calendar::UtcOffset;
use instants_edges::{
    blanks, byte_at, has_another_offset, has_another_year, has_clock_before, has_clock_beside,
    has_half_after, is_edge, iso_text, load, mail_text, may_say, reach, trimmed_length,
    zone_length,
};

// A line, and where a date in it begins and ends; whether it may begin there, whether it may as far as a sign goes, whether a
// clock stands beside it, a clock with seconds before it, a half of the day after it, another year beside it than 2024, and
// another offset than UTC; and how far it reaches for sure.
static BESIDE: [(&[u8], usize, usize, [bool; 7], usize); 21] = [
    (
        b"",
        0,
        0,
        [true, true, false, false, false, false, false],
        0,
    ),
    (
        b"1.2024",
        2,
        6,
        [false, true, false, false, false, false, false],
        6,
    ),
    (
        b"x-2024",
        1,
        6,
        [true, false, false, false, false, false, false],
        6,
    ),
    (
        b"10:00 2024-05-01",
        6,
        16,
        [true, true, true, false, false, false, false],
        16,
    ),
    (
        b"10:00 on 2024-05-01",
        9,
        19,
        [true, true, true, false, false, false, false],
        19,
    ),
    (
        b"22:15:10 host 05-01",
        14,
        19,
        [true, true, true, true, false, false, false],
        19,
    ),
    (
        b"22:15:07\"until 05-01",
        15,
        20,
        [true, true, true, true, false, false, false],
        20,
    ),
    (
        b"::10:20:30 - - [05-01",
        16,
        21,
        [true, true, true, false, false, false, false],
        21,
    ),
    (
        b"10:00:00 PM",
        0,
        8,
        [true, true, false, false, true, false, false],
        8,
    ),
    (
        b"10:00:00\xe2\x80\xafPM",
        0,
        8,
        [true, true, false, false, true, false, false],
        8,
    ),
    (
        b"May  1 2019",
        0,
        6,
        [true, true, false, false, false, true, false],
        6,
    ),
    (
        b"May  1, 2019",
        0,
        6,
        [true, true, false, false, false, true, false],
        6,
    ),
    (
        b"[2019] May  1",
        7,
        13,
        [true, true, false, false, false, true, false],
        13,
    ),
    (
        b"10:00:00 +0200",
        0,
        8,
        [true, true, false, false, false, false, true],
        8,
    ),
    (
        b"10:00:00\t+0200",
        0,
        8,
        [true, true, false, false, false, false, true],
        8,
    ),
    (
        b"10:00:00 UTC+02:00",
        0,
        8,
        [true, true, true, false, false, false, true],
        8,
    ),
    (
        b"10:00:00 (UTC+2)",
        0,
        8,
        [true, true, false, false, false, false, true],
        8,
    ),
    (
        b"10:00:00\xe2\x88\x9205:00",
        0,
        8,
        [true, true, true, false, false, false, true],
        8,
    ),
    (
        b"10:00:00\\u002B02:00",
        0,
        8,
        [true, true, false, false, false, false, true],
        8,
    ),
    (
        b"10:00:00+0000",
        0,
        8,
        [true, true, false, false, false, false, false],
        8,
    ),
    (
        b"10:00:05,250,up",
        0,
        12,
        [true, true, false, false, false, false, false],
        8,
    ),
];

// How far a date reaches, and what is said of what stands beside it.
fn beside(line: &[u8], begins: usize, ends: usize) -> Option<([bool; 7], usize)> {
    if begins > ends || ends > line.len() {
        return None;
    }
    let said = [
        is_edge(line, begins),
        may_say(line, begins),
        has_clock_beside(line, begins, ends),
        has_clock_before(line, begins),
        has_half_after(line, ends),
        has_another_year(line, begins, ends, 2024),
        has_another_offset(line, begins, ends, UtcOffset::UTC),
    ];
    Some((said, reach(line, begins, ends, ends)))
}

fn are_beside() -> bool {
    for row in &BESIDE {
        let (line, begins, ends, said, reached) = *row;
        if beside(line, begins, ends) != Some((said, reached)) {
            return false;
        }
    }
    true
}

// Bytes, what of them a date of ISO 8601 and one of RFC 2822 may have, and the lengths of the white space at the start, of all
// without that at the end, and of the word of a zone; and the first byte, if there is one.
static TEXTS: [(&[u8], &[u8], &[u8], [usize; 3], u8); 5] = [
    (b"", b"", b"", [0; 3], 0),
    (
        b"10:00:05,250,up",
        b"10:00:05",
        b"10:00:05,250,up",
        [0, 15, 0],
        b'1',
    ),
    (b" CET (x) ", b" CET (x) ", b" CET ", [1, 8, 4], b' '),
    (
        b"10:00:05 UT; x.",
        b"10:00:05 UT; x",
        b"10:00:05 UT",
        [0, 15, 0],
        b'1',
    ),
    (b"Z up", b"Z up", b"Z", [0, 4, 1], b'Z'),
];

fn have_lengths(bytes: &[u8], lengths: &[usize; 3]) -> bool {
    [blanks(bytes), trimmed_length(bytes), zone_length(bytes)] == *lengths
}

fn are_texts() -> bool {
    for row in &TEXTS {
        let bytes = row.0;
        let are_so = iso_text(bytes) == row.1
            && mail_text(bytes) == row.2
            && have_lengths(bytes, &row.3)
            && byte_at(bytes, 0) == row.4;
        if !are_so {
            return false;
        }
    }
    true
}

// Whether the bytes from a place on are loaded.
fn are_loaded() -> bool {
    load(b"0123456789abcdefg", 1).to_array() == *b"123456789abcdefg"
}

#[test]
fn bytes_beside_and_texts(rt: HostRuntime) {
    assert!(rt; are_beside() && are_texts() && are_loaded());
}

//! What a source reads as a date at the start of bytes, and what it lacks for one.

use calendar::UtcOffset;
use instants::SourceText;
use instants_prefixes::{
    DateSource, Given, Lack, NOTHING, Prefix, Years, lacks_byte, lacks_offset, lacks_time,
    lacks_year, rules_out,
};
use instants_sources::Source;
use std::alloc::Global;

// A prefix: its Unix time; and where it begins to say something, has said everything, has said its zone, and ends.
type Told = Option<(i64, [usize; 4])>;

// What is known of a source and bytes: what it lacks where nothing is given, whether it may read numbers of Unix time, whether
// the bytes' record lacks an offset, a year and a time, and whether a byte is not there that is due, and the first bytes rule a
// date out.
type Known = (Option<Lack>, [bool; 6]);

// A source, bytes, and what is told of them where UTC is given.
static ROWS: [(SourceText, &[u8], Told, Known); 5] = [
    (
        SourceText::Rfc3339,
        b"20210102 up",
        None,
        (None, [false, true, true, true, true, true]),
    ),
    (
        SourceText::Rfc2822,
        b"2 Jan 2021 03:04:05 +0000 (UTC) up",
        Some((1_609_556_645, [0, 25, 25, 25])),
        (None, [false; 6]),
    ),
    (
        SourceText::Strftime("%F %T UTC"),
        b"2021-01-02 03:04:05 UTC up",
        Some((1_609_556_645, [0, 19, 23, 23])),
        (
            Some(Lack::Offset),
            [false, true, false, false, false, false],
        ),
    ),
    (
        SourceText::Strftime("at %s"),
        b"at 1609556645 up",
        Some((1_609_556_645, [3, 13, 13, 13])),
        (None, [true, true, true, true, false, false]),
    ),
    (
        SourceText::Strftime("%b %e %T"),
        b"Jan  2 03:04:05 up",
        None,
        (Some(Lack::Year), [false, true, true, false, false, false]),
    ),
];

// Descriptions of strftime, and what each lacks where nothing is given.
static LACKS: [(&str, Option<Lack>); 9] = [
    ("%T %z", Some(Lack::Year)),
    ("%m/%d/%y %T %z", Some(Lack::Year)),
    ("%Y-%m %T %z", Some(Lack::Day)),
    ("%Y-W%V-%u %T %z", Some(Lack::Day)),
    ("%G-%m-%d %T %z", Some(Lack::Day)),
    ("%F %I:%M:%S %z", Some(Lack::Time)),
    ("%F %H:%S %z", Some(Lack::Time)),
    ("%F %T", Some(Lack::Offset)),
    ("%G-W%V-%u %I:%M %p %z", None),
];

const AT_UTC: Given<'static> = Given {
    offset: Some(UtcOffset::UTC),
    zone: None,
    years: Years::Unknown,
    time: None,
};

fn told(source: &DateSource, bytes: &[u8]) -> Told {
    as_told(source.read(bytes, &AT_UTC))
}

fn as_told(prefix: Option<Prefix>) -> Told {
    let prefix = prefix?;
    let second = prefix.moment.moment().unix_timestamp();
    Some((
        second,
        [prefix.begins, prefix.ends, prefix.zone, prefix.all],
    ))
}

fn known(source: &DateSource, bytes: &[u8]) -> Known {
    let record = source.record(bytes);
    let said = [
        source.may_read_unix_time(),
        lacks_offset(&record),
        lacks_year(&record),
        lacks_time(&record),
        lacks_byte(source.source(), bytes),
        rules_out(source.source(), bytes),
    ];
    (source.lack(&NOTHING), said)
}

fn tell(alloc: Global, text: SourceText, bytes: &[u8]) -> Option<(Told, Known)> {
    match Source::new(alloc, text) {
        Ok(source) => {
            let source = DateSource::new(source);
            Some((told(&source, bytes), known(&source, bytes)))
        }
        Err(_) => None,
    }
}

fn prefixes_are_told(alloc: Global) -> bool {
    for row in &ROWS {
        let (text, bytes, prefix, known) = *row;
        if tell(alloc, text, bytes) != Some((prefix, known)) {
            return false;
        }
    }
    true
}

// What a description of strftime is as a source of dates.
fn described(alloc: Global, text: &'static str) -> Option<DateSource<'static>> {
    let source = Source::new(alloc, SourceText::Strftime(text)).ok()?;
    Some(DateSource::new(source))
}

fn lacks(alloc: Global, text: &'static str) -> Option<Option<Lack>> {
    let source = described(alloc, text)?;
    Some(source.lack(&NOTHING))
}

fn lacks_are_told(alloc: Global) -> bool {
    for row in &LACKS {
        if lacks(alloc, row.0) != Some(row.1) {
            return false;
        }
    }
    true
}

// What a plan reads, and what it leaves to another way.
fn planned(source: &DateSource) -> [Told; 2] {
    [
        as_told(source.read_planned(b"2021-01-02 03:04:05+0000 up", &NOTHING)),
        as_told(source.read_planned(b"up", &NOTHING)),
    ]
}

const IN_2024: Given<'static> = Given {
    offset: Some(UtcOffset::UTC),
    zone: None,
    years: Years::In(2024),
    time: None,
};

// A year of two digits is the nearest one to the year that is given.
fn near_years(source: &DateSource) -> [Told; 2] {
    [
        as_told(source.read(b"02/29/24 00:00:00 up", &IN_2024)),
        as_told(source.read(b"12/31/99 23:59:59", &IN_2024)),
    ]
}

static PLANNED: [Told; 2] = [Some((1_609_556_645, [0, 24, 24, 24])), None];

static NEAR_YEARS: [Told; 2] = [
    Some((1_709_164_800, [0, 17, 17, 17])),
    Some((946_684_799, [0, 17, 17, 17])),
];

static WHOLE: [Told; 2] = [Some((1_609_556_645, [0, 22, 22, 22])), None];

// What RFC 3339 reads of a text that is a date and nothing else, and of one that has more.
fn whole(alloc: Global) -> Option<[Told; 2]> {
    let source = DateSource::new(Source::new(alloc, SourceText::Rfc3339).ok()?);
    Some([
        as_told(source.read_whole(b"2021-01-02T03:04:05.5Z")),
        as_told(source.read_whole(b"2021-01-02T03:04:05.5Z up")),
    ])
}

fn sources_read(alloc: Global) -> bool {
    let Some(stamp) = described(alloc, "%F %T%z") else {
        return false;
    };
    let Some(day) = described(alloc, "%m/%d/%y %T") else {
        return false;
    };
    planned(&stamp) == PLANNED && near_years(&day) == NEAR_YEARS && whole(alloc) == Some(WHOLE)
}

#[test]
fn prefixes(rt: HostRuntime) {
    let alloc = rt.alloc();
    assert!(rt; prefixes_are_told(alloc) && lacks_are_told(alloc) && sources_read(alloc));
}

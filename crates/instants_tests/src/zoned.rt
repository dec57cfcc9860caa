//! Dates that say no offset, on the clock of a zone.

use calendar::UtcOffset;
use instants::SourceText;
use instants_found::{Doubt, Finder, Finding};
use instants_prefixes::{Given, Years};
use instants_sources::Source;
use std::alloc::{AllocError, Global};
use std::test::Fail;
use zones::{Zone, ZoneFault, read_zone};

/// The file of a zone whose clock is that of Berlin by today's rule (RFC 9636): twice a block of one type, and a footer.
pub(crate) static FILE: &[u8] =
    b"TZif2\0\0\0\0\0\0\0\0\0\0\0\0\0\0\0\0\0\0\0\0\0\0\0\0\0\0\0\0\0\0\0\0\0\0\x01\0\0\0\x04\0\0\x0e\x10\0\0CET\0\
TZif2\0\0\0\0\0\0\0\0\0\0\0\0\0\0\0\0\0\0\0\0\0\0\0\0\0\0\0\0\0\0\0\0\0\0\x01\0\0\0\x04\0\0\x0e\x10\0\0CET\0\
\nCET-1CEST,M3.5.0,M10.5.0/3\n";

// The moment of a line's date as Unix time, or why it is in doubt.
type Told = Option<Result<i64, &'static str>>;

fn reason(doubt: Doubt) -> &'static str {
    match doubt {
        Doubt::Skipped => "skipped",
        Doubt::Repeated => "repeated",
        Doubt::AnotherOffset => "another offset",
        _ => "another reason",
    }
}

fn told(finder: &Finder, zone: &Zone, line: &[u8]) -> Told {
    let given = Given {
        offset: Some(UtcOffset::UTC),
        zone: Some(zone),
        years: Years::Unknown,
        time: None,
    };
    match finder.find(&given, line)? {
        Finding::There(date) => Some(Ok(date.moment.moment().unix_timestamp())),
        Finding::Doubtful(place) => {
            let doubted = finder.doubt_of(&given, line, place, 0)?;
            Some(Err(reason(doubted.doubt)))
        }
    }
}

static LINES: [(&[u8], Told); 14] = [
    (b"2024-07-01 10:00:00 up", Some(Ok(1_719_820_800))),
    (b"2024-12-01 10:00:00 up", Some(Ok(1_733_043_600))),
    (b"2024-03-31 03:00:00 up", Some(Ok(1_711_846_800))),
    (b"2024-03-31 02:30:00 up", Some(Err("skipped"))),
    (b"2024-10-27 02:30:00 up", Some(Err("repeated"))),
    (b"2024-07-01 10:00:00 +0200 up", Some(Ok(1_719_820_800))),
    (b"2024-07-01 10:00:00 +0100 up", Some(Err("another offset"))),
    (b"2024-10-27 02:30:00 CEST up", Some(Ok(1_729_989_000))),
    (b"2024-10-27 02:30:00,5 CET up", Some(Ok(1_729_992_600))),
    (b"2024-10-27 02:30:00 +01:00 up", Some(Ok(1_729_992_600))),
    (b"2024-10-27 02:30:00 INFO up", Some(Err("repeated"))),
    (
        b"2024-10-27 02:30:00 +03:00 up",
        Some(Err("another offset")),
    ),
    (b"2024-07-01 10:00:00 CEST up", Some(Ok(1_719_820_800))),
    (b"2024-07-01 10:00:00 CET up", Some(Err("another offset"))),
];

fn all_are_so(finder: &Finder, zone: &Zone) -> bool {
    for row in &LINES {
        if told(finder, zone, row.0) != row.1 {
            return false;
        }
    }
    true
}

fn finder(alloc: Global) -> Result<Finder<'static>, AllocError> {
    let mut sources = Vec::new(alloc);
    if let Ok(source) = Source::new(alloc, SourceText::Strftime("%F %T")) {
        sources.push(source)?;
    }
    Finder::new(alloc, sources, 100)
}

fn zone(alloc: Global) -> Result<Zone, ZoneFault> {
    read_zone(alloc, FILE)
}

#[test]
fn dates_on_a_clock(rt: HostRuntime) -> Result<(), Fail> {
    let finder = finder(rt.alloc())?;
    let zone = zone(rt.alloc()).expect(&rt, "a zone");
    assert!(rt; all_are_so(&finder, &zone));
    Ok(())
}

//! Sources by themselves: what each names for a line, by each of its ways.

use calendar::UtcOffset;
use datetime::OffsetDateTime;
use description::Description;
use instants::SourceText;
use instants_sources::{Source, directly_named, is_no_rfc3339, starting};
use parsing_plan::PlanAt;
use parsing_values::Fields;
use std::alloc::Global;

// The Unix time that a source names for a line with an offset of an hour assumed, by the exact way, the shortest and the
// fast one, and whether the line's first bytes rule it out.
type Told = (Option<i64>, Option<i64>, Option<i64>, bool);

const ONE: Told = (Some(1), Some(1), Some(1), false);

const NONE: Told = (None, None, None, false);

const RULED_OUT: Told = (None, None, None, true);

const LATER: Told = (Some(1), Some(1), None, false);

static CASES: [(SourceText<'static>, &[u8], Told); 20] = [
    (SourceText::Rfc3339, b"1970-01-01T00:00:01Z", ONE),
    (SourceText::Rfc3339, b"01 Jan 1970 00:00:01 Z", RULED_OUT),
    (SourceText::Rfc3339, b"1970-01-01", NONE),
    (SourceText::Rfc2822, b"01 Jan 1970 00:00:01 Z", LATER),
    (SourceText::Rfc2822, b"1 Jan 1970 00:00:01 GMT", ONE),
    (SourceText::Rfc2822, b"01/Jan/1970:00:00:01 Z", RULED_OUT),
    (SourceText::Rfc2822, b"1/2", RULED_OUT),
    (SourceText::Rfc2822, b"Jan,", NONE),
    (SourceText::Rfc2822, b"Fri", RULED_OUT),
    (SourceText::Iso8601, b"1970-001T00:00:01Z", ONE),
    (SourceText::Iso8601, b"1970-W01", NONE),
    (SourceText::Iso8601, b"yesterday", RULED_OUT),
    (SourceText::V2(SECONDS), b"1970-01-01 01:00:01", ONE),
    (SourceText::V2(SECONDS), b"1970-01-01 01:00:01x", RULED_OUT),
    (SourceText::V3(SECONDS), b"01/01/1970 01:00:01", RULED_OUT),
    (SourceText::V3(SECONDS), b"1970-01-01 01:00:01", ONE),
    (SourceText::V3("at [hour]"), b"yesterday", RULED_OUT),
    (SourceText::Strftime("%s"), b"1", LATER),
    (
        SourceText::Strftime(LOG),
        b"01/Jan/1970:01:00:01 +0100",
        ONE,
    ),
    (
        SourceText::Strftime(LOG),
        b"32/Jan/1970:01:00:01 +0100",
        NONE,
    ),
];

const SECONDS: &str = "[year]-[month]-[day] [hour]:[minute]:[second]";

const LOG: &str = "%d/%b/%Y:%H:%M:%S %z";

fn second_of(fields: Option<Fields>) -> Option<i64> {
    Some(fields?.moment().unix_timestamp())
}

fn told(source: &Source, line: &[u8], hour: UtcOffset) -> Told {
    let exact = match source.read_exact(line, Some(hour)) {
        Ok(moment) => Some(moment.unix_timestamp()),
        Err(_) => None,
    };
    let shortest = source.moment(line, &Some(hour));
    (
        exact,
        shortest.map(OffsetDateTime::unix_timestamp),
        second_of(source.read_fast(line, Some(hour))),
        source.cannot_match(line),
    )
}

fn told_by(alloc: Global, text: SourceText, line: &[u8], hour: UtcOffset) -> Option<Told> {
    match Source::new(alloc, text) {
        Ok(source) => Some(told(&source, line, hour)),
        Err(_) => None,
    }
}

fn moments_are_named(alloc: Global, hour: UtcOffset) -> bool {
    for row in &CASES {
        let (text, line, wanted) = *row;
        if told_by(alloc, text, line, hour) != Some(wanted) {
            return false;
        }
    }
    starting(Some(hour)).offset_hour() == Some(1)
}

fn seconds() -> [Option<i64>; 3] {
    [
        fast_second(Source::Iso8601, b"19700101T000001.123456789Z"),
        fast_second(Source::Rfc3339, b"1970-01-01T00:00:01Z"),
        fast_second(Source::Rfc2822, b"Thu, 01 Jan 1970 00:00:01 +0000"),
    ]
}

fn fast_second(source: Source, line: &[u8]) -> Option<i64> {
    second_of(source.read_fast(line, None))
}

// The second that a line says by the plan of a description.
fn second_by_plan(source: &Source, line: &[u8]) -> Option<(Option<i64>, Option<i64>)> {
    let plan = source.plan()?;
    let by_plan = second_of(source.read_planned(line, None));
    match plan.at(None) {
        PlanAt::Plain(places) => Some((by_plan, second_of(places.read_plain(line)))),
        PlanAt::Whole(whole) => Some((by_plan, second_of(whole.read(line)))),
        PlanAt::Split(split) => Some((by_plan, second_of(split.read(line)))),
        PlanAt::Unix(unix) => Some((by_plan, second_of(unix.read_within(line)))),
        PlanAt::Listed(list) => Some((by_plan, second_of(list.read(line)))),
        PlanAt::Other(_) => Some((by_plan, None)),
    }
}

fn planned(alloc: Global, text: &str, line: &[u8]) -> Option<(Option<i64>, Option<i64>)> {
    match Source::new(alloc, SourceText::Strftime(text)) {
        Ok(source) => second_by_plan(&source, line),
        Err(_) => None,
    }
}

// Whether the source is a list of items, and whether its lines may begin with a letter.
fn look(source: &Source) -> Option<[bool; 2]> {
    match source {
        Source::Items(described) => Some([
            matches!(described.description(), Description::Items(_)),
            described.first_bytes().can_stand(0, b'x'),
        ]),
        _ => None,
    }
}

fn described(alloc: Global, text: &str) -> Option<[bool; 2]> {
    match Source::new(alloc, SourceText::Strftime(text)) {
        Ok(source) => look(&source),
        Err(_) => None,
    }
}

const WEB_SERVER: &str = "%d/%b/%Y:%H:%M:%S %z";

fn are_planned(alloc: Global) -> bool {
    let log = planned(alloc, WEB_SERVER, b"01/Jan/1970:00:00:01 +0000");
    let unix = planned(alloc, "%s", b"1000000000");
    described(alloc, WEB_SERVER) == Some([true, false])
        && log == Some((Some(1), Some(1)))
        && unix == Some((Some(1_000_000_000), Some(1_000_000_000)))
}

// By their fast ways.
fn formats_are_read() -> bool {
    seconds() == [Some(1); 3]
        && is_no_rfc3339(b"1970")
        && Source::Rfc3339.has_no_year(b"yesterday", None)
}

#[test]
fn sources(rt: HostRuntime) {
    directly_named();
    let hour = UtcOffset::from_hms(1, 0, 0).expect(&rt, "an offset");
    let alloc = rt.alloc();
    assert!(rt; moments_are_named(alloc, hour) && are_planned(alloc) && formats_are_read());
}

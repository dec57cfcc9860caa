//! Moments at offsets from UTC.
use crate::kinds::{parts, shown};
use crate::rows::{
    EVENING, FIRST, LEAP_DAY, Parts, date_of, east, evening, hash_of, leap_day, offset_of,
};
use calendar::{Date, Month, Time, UtcOffset};
use datetime::{OffsetDateTime, PlainDateTime, Timestamp, UtcDateTime};
use std::cmp::Ordering;

// The moment at this second, where the offset is so many hours.
fn moment_of(date: Date, (hour, minute, second): (u8, u8, u8), offset: i8) -> OffsetDateTime {
    let time = Time::from_hms(hour, minute, second).unwrap_or(Time::MIDNIGHT);
    OffsetDateTime::new_in_offset(date, time, offset_of(offset, 0, 0))
}

fn leap_evening() -> OffsetDateTime {
    OffsetDateTime::new_in_offset(leap_day(), evening(), east())
}

// In all ways that go by UTC, where the calendar has the day there.
fn in_utc(value: OffsetDateTime) -> Option<[Parts; 4]> {
    Some([
        parts(value.checked_to_utc()?),
        parts(value.to_utc()),
        parts(value.checked_to_timestamp()?),
        parts(value.to_timestamp()),
    ])
}

// Also of the last evening of a year, which is the next year there.
fn shows_in_utc(late: OffsetDateTime) -> bool {
    let wanted = [
        Some([(LEAP_DAY, (18, 29, 58, 123_456_789)); 4]),
        Some([((10_000, Month::January, 1), (0, 59, 59, 0)); 4]),
    ];
    [in_utc(leap_evening()), in_utc(late)] == wanted
}

type Shown = (Parts, UtcOffset);

// At another offset by each call; with the offset replaced, and with what is shown replaced.
fn changed(value: OffsetDateTime, west: UtcOffset) -> Option<([Shown; 2], [Shown; 2])> {
    Some((
        [
            shown(value.checked_to_offset(west)?),
            shown(value.to_offset(west)),
        ],
        [
            shown(value.replace_offset(west)),
            shown(value.replace_date_time(PlainDateTime::MIN)),
        ],
    ))
}

fn shows_and_replaces(west: UtcOffset) -> bool {
    let elsewhere = [((LEAP_DAY, (17, 29, 58, 123_456_789)), west); 2];
    let replaced = [((LEAP_DAY, EVENING), west), (FIRST, east())];
    changed(leap_evening(), west) == Some((elsewhere, replaced))
}

#[test]
fn shows_elsewhere(rt: HostRuntime) {
    let late = moment_of(date_of(9999, Month::December, 31), (23, 59, 59), -1);
    assert!(rt; shows_in_utc(late) && shows_and_replaces(offset_of(-1, 0, 0)));
}

// Half past midnight of a new year in UTC, and an hour after, are one instant by each call.
fn compares_instants() -> bool {
    let utc = moment_of(date_of(2021, Month::January, 1), (0, 30, 0), 0);
    let same = moment_of(date_of(2020, Month::December, 31), (23, 30, 0), -1);
    utc == same && utc.cmp(&same) == Ordering::Equal && hash_of(utc) == hash_of(same)
}

// The moment in UTC in two types and as one of its own, its seconds, and the moment at its own offset.
type WithoutUtc = (
    Option<UtcDateTime>,
    Option<Timestamp>,
    Option<OffsetDateTime>,
    i64,
    Option<OffsetDateTime>,
);

fn without_utc(value: OffsetDateTime) -> WithoutUtc {
    (
        value.checked_to_utc(),
        value.checked_to_timestamp(),
        value.checked_to_offset(UtcOffset::UTC),
        value.unix_timestamp(),
        value.checked_to_offset(value.offset()),
    )
}

// Moments whose UTC days lie beyond both ends of the calendar.
fn need_no_utc_date(first: OffsetDateTime, last: OffsetDateTime) -> bool {
    without_utc(first) == (None, None, None, -31_619_087_600_400, Some(first))
        && without_utc(last) == (None, None, None, 31_494_784_784_399, Some(last))
        && first < OffsetDateTime::new_utc(Date::MIN, Time::MIDNIGHT)
        && first < last
}

#[test]
fn compares_and_needs_no_utc_date(rt: HostRuntime) {
    let first = moment_of(Date::MIN, (0, 0, 0), 1);
    let last = moment_of(Date::MAX, (23, 59, 59), -1);
    assert!(rt; compares_instants() && need_no_utc_date(first, last));
}

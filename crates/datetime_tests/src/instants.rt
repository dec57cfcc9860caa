//! Instants counted from 1970, beside each other and of different types.
use crate::kinds::shown;
use crate::rows::{
    EVENING, LEAP_DAY, Parts, Refused, east, evening, leap_day, refused, timestamp_of,
};
use calendar::{ComponentRange, Date, Month, SignedDuration, Time, UtcOffset};
use datetime::{OffsetDateTime, PlainDateTime, Timestamp, UtcDateTime, WallClock};
use std::cmp::Ordering;

// One instant in three types.
type Instants = (Timestamp, UtcDateTime, OffsetDateTime);

fn leap_evening() -> Instants {
    (
        timestamp_of(1_709_251_198, 123_456_789),
        UtcDateTime::new(leap_day(), evening()),
        next_morning(),
    )
}

fn second_later() -> Instants {
    let later = timestamp_of(1_709_251_199, 123_456_789);
    (later, later.to_utc(), OffsetDateTime::from(later))
}

// At half past five on the next day, where the offset is 5:30.
fn next_morning() -> OffsetDateTime {
    let time = Time::from_hms_nano(5, 29, 58, 123_456_789).unwrap_or(Time::MIDNIGHT);
    let date = Date::from_calendar_date(2024, Month::March, 1).unwrap_or(Date::MAX);
    OffsetDateTime::new_in_offset(date, time, east())
}

fn converts_instants((timestamp, utc, _): Instants) -> bool {
    let shown = [
        shown(OffsetDateTime::from(utc)),
        shown(OffsetDateTime::from(timestamp)),
        shown(OffsetDateTime::new_utc(leap_day(), evening())),
    ];
    shown == [((LEAP_DAY, EVENING), UtcOffset::UTC); 3]
        && Timestamp::from(utc) == timestamp
        && UtcDateTime::from(timestamp) == utc
}

type Answers = ([bool; 6], [Ordering; 6]);

// The first by each other type: equality both ways, and the order both ways.
fn answers(
    (timestamp, utc, shown): Instants,
    (later, later_utc, later_shown): Instants,
) -> Answers {
    (
        [
            timestamp.eq_utc(later_utc),
            timestamp.eq_offset(later_shown),
            utc.eq_timestamp(later),
            utc.eq_offset(later_shown),
            shown.eq_timestamp(later),
            shown.eq_utc(later_utc),
        ],
        [
            timestamp.cmp_utc(later_utc),
            timestamp.cmp_offset(later_shown),
            utc.cmp_timestamp(later),
            utc.cmp_offset(later_shown),
            shown.cmp_timestamp(later),
            shown.cmp_utc(later_utc),
        ],
    )
}

fn differences(
    (timestamp, utc, shown): Instants,
    (later, later_utc, later_shown): Instants,
) -> [SignedDuration; 6] {
    [
        later - utc,
        later - shown,
        later_utc - timestamp,
        later_utc - shown,
        later_shown - timestamp,
        later_shown - utc,
    ]
}

fn compares_and_subtracts() -> bool {
    answers(leap_evening(), leap_evening()) == ([true; 6], [Ordering::Equal; 6])
        && answers(leap_evening(), second_later()) == ([false; 6], [Ordering::Less; 6])
        && differences(leap_evening(), second_later()) == [SignedDuration::seconds(1); 6]
}

#[test]
fn converts_and_compares(rt: HostRuntime) {
    assert!(rt; converts_instants(leap_evening()) && compares_and_subtracts());
}

// The nanoseconds since 1970, and none for a refusal.
fn of_timestamp(answer: Result<Timestamp, ComponentRange>) -> Option<i128> {
    Some(answer.ok()?.as_nanoseconds())
}

fn of_utc(answer: Result<UtcDateTime, ComponentRange>) -> Option<i128> {
    Some(answer.ok()?.unix_timestamp_nanos())
}

fn of_moment(answer: Result<OffsetDateTime, ComponentRange>) -> Option<i128> {
    Some(answer.ok()?.unix_timestamp_nanos())
}

// The leap day's evening, also cut to whole units, and moments before 1970.
fn made() -> [Option<i128>; 12] {
    [
        of_timestamp(Timestamp::new(1_709_251_198, 123_456_789)),
        of_timestamp(Timestamp::from_seconds(1_709_251_198)),
        of_timestamp(Timestamp::from_milliseconds(1_709_251_198_123)),
        of_timestamp(Timestamp::from_microseconds(1_709_251_198_123_456)),
        of_timestamp(Timestamp::from_nanoseconds(1_709_251_198_123_456_789)),
        of_timestamp(Timestamp::from_milliseconds(-1)),
        of_utc(UtcDateTime::from_unix_timestamp(1_709_251_198)),
        of_utc(UtcDateTime::from_unix_timestamp_nanos(1_709_251_198_123_456_789)),
        of_utc(UtcDateTime::from_unix_timestamp_nanos(-1)),
        of_moment(OffsetDateTime::from_unix_timestamp(1_709_251_198)),
        of_moment(OffsetDateTime::from_unix_timestamp_nanos(1_709_251_198_123_456_789)),
        of_moment(OffsetDateTime::from_unix_timestamp_nanos(-1)),
    ]
}

static MADE: [Option<i128>; 12] = [
    Some(1_709_251_198_123_456_789),
    Some(1_709_251_198_000_000_000),
    Some(1_709_251_198_123_000_000),
    Some(1_709_251_198_123_456_000),
    Some(1_709_251_198_123_456_789),
    Some(-1_000_000),
    Some(1_709_251_198_000_000_000),
    Some(1_709_251_198_123_456_789),
    Some(-1),
    Some(1_709_251_198_000_000_000),
    Some(1_709_251_198_123_456_789),
    Some(-1),
];

// In seconds by three types, in milliseconds and in microseconds.
fn counted((timestamp, utc, shown): Instants) -> ([i64; 4], i128) {
    (
        [
            timestamp.as_seconds(),
            utc.unix_timestamp(),
            shown.unix_timestamp(),
            timestamp.as_milliseconds(),
        ],
        timestamp.as_microseconds(),
    )
}

static COUNTED: [([i64; 4], i128); 2] = [
    (
        [
            1_709_251_198,
            1_709_251_198,
            1_709_251_198,
            1_709_251_198_123,
        ],
        1_709_251_198_123_456,
    ),
    ([-1; 4], -1),
];

fn counts_units(before: Timestamp) -> bool {
    let before = (before, before.to_utc(), OffsetDateTime::from(before));
    [counted(leap_evening()), counted(before)] == COUNTED
}

fn out_of_range() -> [Refused; 12] {
    let new_year = PlainDateTime::new(Date::MAX, evening());
    [
        refused(Timestamp::new(0, 1_000_000_000)),
        refused(new_year.replace_month(Month::April)),
        refused(Timestamp::new(31_494_784_780_800, 1_000_000_000)),
        refused(Timestamp::new(-31_619_087_596_801, 999_999_999)),
        refused(Timestamp::from_seconds(i64::MAX)),
        refused(Timestamp::from_milliseconds(31_494_784_780_800_000)),
        refused(Timestamp::from_microseconds(i128::MAX)),
        refused(Timestamp::from_nanoseconds(i128::MIN)),
        refused(UtcDateTime::from_unix_timestamp(31_494_784_780_800)),
        refused(UtcDateTime::from_unix_timestamp_nanos(-31_619_087_596_800_000_000_001)),
        refused(OffsetDateTime::from_unix_timestamp(31_494_784_780_800)),
        refused(OffsetDateTime::from_unix_timestamp_nanos(i128::MAX)),
    ]
}

const TIMESTAMP: Refused = ("timestamp", false);

// A nanosecond that is too great is refused by its name, and so is the day 31 of April.
static OUT_OF_RANGE: [Refused; 12] = [
    ("nanosecond", false),
    ("day", true),
    TIMESTAMP,
    TIMESTAMP,
    TIMESTAMP,
    TIMESTAMP,
    TIMESTAMP,
    TIMESTAMP,
    TIMESTAMP,
    TIMESTAMP,
    TIMESTAMP,
    TIMESTAMP,
];

#[test]
fn makes_counts_and_refuses(rt: HostRuntime) {
    let before = timestamp_of(-1, 999_999_999);
    assert!(rt; made() == MADE && counts_units(before) && out_of_range() == OUT_OF_RANGE);
}

// By each call of two types.
fn shown_at(east: UtcOffset) -> Option<[(Parts, UtcOffset); 4]> {
    let (value, utc, _) = leap_evening();
    Some([
        shown(value.checked_to_offset(east)?),
        shown(value.to_offset(east)),
        shown(utc.checked_to_offset(east)?),
        shown(utc.to_offset(east)),
    ])
}

fn is_shown_elsewhere(east: UtcOffset) -> bool {
    let past = [
        Timestamp::MAX.checked_to_offset(east),
        Timestamp::MAX.to_utc().checked_to_offset(east),
    ];
    past == [None; 2] && shown_at(east) == Some([shown(next_morning()); 4])
}

fn assumes_an_offset(value: PlainDateTime, east: UtcOffset) -> bool {
    let moments = [
        shown(value.assume_utc()),
        shown(OffsetDateTime::from(value.as_utc())),
        shown(value.assume_offset(east)),
    ];
    let (utc, wall) = (UtcOffset::UTC, (LEAP_DAY, EVENING));
    moments == [(wall, utc), (wall, utc), (wall, east)]
}

#[test]
fn shows_at_offsets(rt: HostRuntime) {
    let value = PlainDateTime::new(leap_day(), evening());
    assert!(rt; is_shown_elsewhere(east()) && assumes_an_offset(value, east()));
}

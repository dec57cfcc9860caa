//! What every type of date-time answers, row by row.
use crate::kinds::{cut, parts, replaced, views};
use crate::rows::{CUT, REPLACED, VIEWS, date_of, east, evening, hash_of, leap_day};
use calendar::{Date, Month, Time};
use datetime::{OffsetDateTime, PlainDateTime, Timestamp, UtcDateTime, WallClock};
use std::cmp::Ordering;
use std::hash::Hash;

// The evening of a day, of each type.
pub type Evenings = (PlainDateTime, UtcDateTime, Timestamp, OffsetDateTime);

pub fn evenings(date: Date) -> Evenings {
    let time = evening();
    let utc = UtcDateTime::new(date, time);
    (
        PlainDateTime::new(date, time),
        utc,
        Timestamp::from(utc),
        OffsetDateTime::new_in_offset(date, time, east()),
    )
}

fn is_replaced<T: WallClock>(value: T) -> bool {
    for row in &REPLACED {
        if replaced(value, row.0) != row.1 {
            return false;
        }
    }
    true
}

fn shows_and_replaces<T: WallClock>(value: T) -> bool {
    views(value) == VIEWS && is_replaced(value)
}

fn show_and_replace((plain, utc, timestamp, shown): Evenings) -> bool {
    shows_and_replaces(plain)
        && shows_and_replaces(utc)
        && shows_and_replaces(timestamp)
        && shows_and_replaces(shown)
}

// The day and the time of day by the calls that each type has for itself.
fn shown_alone((plain, utc, timestamp, shown): Evenings) -> ([Date; 4], [Time; 4]) {
    (
        [plain.date(), utc.date(), timestamp.date(), shown.date()],
        [plain.time(), utc.time(), timestamp.time(), shown.time()],
    )
}

// The time of day by the calls of a moment.
type Clock = (
    (u8, u8, u8),
    (u8, u8, u8, u16),
    (u8, u8, u8, u32),
    (u8, u8, u8, u32),
);

fn clock(shown: OffsetDateTime) -> Clock {
    (
        shown.to_hms(),
        shown.to_hms_milli(),
        shown.to_hms_micro(),
        shown.to_hms_nano(),
    )
}

static CLOCK: Clock = (
    (23, 59, 58),
    (23, 59, 58, 123),
    (23, 59, 58, 123_456),
    (23, 59, 58, 123_456_789),
);

#[test]
fn shows_and_replaces_parts(rt: HostRuntime) {
    let evenings = evenings(leap_day());
    assert!(rt;
        show_and_replace(evenings)
            && shown_alone(evenings) == ([leap_day(); 4], [evening(); 4])
            && clock(evenings.3) == CLOCK
    );
}

// How a value is ordered beside a later one, both ways, whether it is equal to itself alone, and whether its hash is its own.
fn compared<T: Ord + Hash + Copy + Drop>(
    value: T,
    later: T,
) -> (Ordering, Option<Ordering>, [bool; 3]) {
    let same = value;
    let equal = [
        value == same,
        value == later,
        hash_of(value) == hash_of(same),
    ];
    (value.cmp(&later), later.partial_cmp(&value), equal)
}

fn are_ordered((plain, utc, timestamp, shown): Evenings, later: Time) -> bool {
    let given = [
        compared(plain, plain.replace_time(later)),
        compared(utc, utc.replace_time(later)),
        compared(timestamp, timestamp.replace_time(later)),
        compared(shown, shown.replace_time(later)),
    ];
    given == [(Ordering::Less, Some(Ordering::Greater), [true, false, true]); 4]
}

// Before 1970 too the units begin at whole numbers of the clock.
fn are_cut((plain, utc, timestamp, shown): Evenings) -> bool {
    [cut(plain), cut(utc), cut(timestamp), cut(shown)] == [CUT; 4]
        && shown.truncate_to_day().offset() == east()
        && parts(utc) == parts(shown)
}

#[test]
fn orders_and_cuts(rt: HostRuntime) {
    let later = Time::from_hms_nano(23, 59, 58, 123_456_790).unwrap_or(Time::MIDNIGHT);
    assert!(rt; are_ordered(evenings(leap_day()), later));
    assert!(rt; are_cut(evenings(date_of(1969, Month::December, 31))));
}

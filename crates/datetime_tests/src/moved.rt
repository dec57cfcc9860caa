//! Every type of date-time moved by durations.
use crate::each_type::{Evenings, evenings};
use crate::rows::{date_of, east, leap_day};
use calendar::{Month, SignedDuration};
use datetime::{OffsetDateTime, PlainDateTime, Timestamp, UtcDateTime, laws};
use std::time::Duration;

const DAY: SignedDuration = SignedDuration::DAY;

const STEP: SignedDuration = SignedDuration::NANOSECOND;

// Values a day later and earlier, by each call: first by a duration with a sign, and then by one of std.

fn plain_later(value: PlainDateTime) -> Option<[PlainDateTime; 4]> {
    let sum = value.checked_add(DAY)?;
    let mut later = value;
    later += DAY;
    Some([sum, value.saturating_add(DAY), value + DAY, later])
}

fn plain_later_by_std(value: PlainDateTime) -> Option<[PlainDateTime; 3]> {
    let day = Duration::from_secs(86_400);
    let sum = value.checked_add_std(day)?;
    let mut later = value;
    later += day;
    Some([sum, value + day, later])
}

fn plain_earlier(value: PlainDateTime) -> Option<[PlainDateTime; 4]> {
    let difference = value.checked_sub(DAY)?;
    let mut earlier = value;
    earlier -= DAY;
    Some([difference, value.saturating_sub(DAY), value - DAY, earlier])
}

fn plain_earlier_by_std(value: PlainDateTime) -> Option<[PlainDateTime; 3]> {
    let day = Duration::from_secs(86_400);
    let difference = value.checked_sub_std(day)?;
    let mut earlier = value;
    earlier -= day;
    Some([difference, value - day, earlier])
}

fn utc_later(value: UtcDateTime) -> Option<[UtcDateTime; 4]> {
    let sum = value.checked_add(DAY)?;
    let mut later = value;
    later += DAY;
    Some([sum, value.saturating_add(DAY), value + DAY, later])
}

fn utc_later_by_std(value: UtcDateTime) -> Option<[UtcDateTime; 3]> {
    let day = Duration::from_secs(86_400);
    let sum = value.checked_add_std(day)?;
    let mut later = value;
    later += day;
    Some([sum, value + day, later])
}

fn utc_earlier(value: UtcDateTime) -> Option<[UtcDateTime; 4]> {
    let difference = value.checked_sub(DAY)?;
    let mut earlier = value;
    earlier -= DAY;
    Some([difference, value.saturating_sub(DAY), value - DAY, earlier])
}

fn utc_earlier_by_std(value: UtcDateTime) -> Option<[UtcDateTime; 3]> {
    let day = Duration::from_secs(86_400);
    let difference = value.checked_sub_std(day)?;
    let mut earlier = value;
    earlier -= day;
    Some([difference, value - day, earlier])
}

fn timestamp_later(value: Timestamp) -> Option<[Timestamp; 4]> {
    let sum = value.checked_add(DAY)?;
    let mut later = value;
    later += DAY;
    Some([sum, value.saturating_add(DAY), value + DAY, later])
}

fn timestamp_later_by_std(value: Timestamp) -> Option<[Timestamp; 3]> {
    let day = Duration::from_secs(86_400);
    let sum = value.checked_add_std(day)?;
    let mut later = value;
    later += day;
    Some([sum, value + day, later])
}

fn timestamp_earlier(value: Timestamp) -> Option<[Timestamp; 4]> {
    let difference = value.checked_sub(DAY)?;
    let mut earlier = value;
    earlier -= DAY;
    Some([difference, value.saturating_sub(DAY), value - DAY, earlier])
}

fn timestamp_earlier_by_std(value: Timestamp) -> Option<[Timestamp; 3]> {
    let day = Duration::from_secs(86_400);
    let difference = value.checked_sub_std(day)?;
    let mut earlier = value;
    earlier -= day;
    Some([difference, value - day, earlier])
}

fn moment_later(value: OffsetDateTime) -> Option<[OffsetDateTime; 4]> {
    let sum = value.checked_add(DAY)?;
    let mut later = value;
    later += DAY;
    Some([sum, value.saturating_add(DAY), value + DAY, later])
}

fn moment_later_by_std(value: OffsetDateTime) -> Option<[OffsetDateTime; 3]> {
    let day = Duration::from_secs(86_400);
    let sum = value.checked_add_std(day)?;
    let mut later = value;
    later += day;
    Some([sum, value + day, later])
}

fn moment_earlier(value: OffsetDateTime) -> Option<[OffsetDateTime; 4]> {
    let difference = value.checked_sub(DAY)?;
    let mut earlier = value;
    earlier -= DAY;
    Some([difference, value.saturating_sub(DAY), value - DAY, earlier])
}

fn moment_earlier_by_std(value: OffsetDateTime) -> Option<[OffsetDateTime; 3]> {
    let day = Duration::from_secs(86_400);
    let difference = value.checked_sub_std(day)?;
    let mut earlier = value;
    earlier -= day;
    Some([difference, value - day, earlier])
}

fn differences(later: Evenings, (plain, utc, timestamp, moment): Evenings) -> [SignedDuration; 4] {
    [
        later.0 - plain,
        later.1 - utc,
        later.2 - timestamp,
        later.3 - moment,
    ]
}

fn leads_later(evenings: Evenings, later: Evenings) -> bool {
    plain_later(evenings.0) == Some([later.0; 4])
        && utc_later(evenings.1) == Some([later.1; 4])
        && timestamp_later(evenings.2) == Some([later.2; 4])
        && moment_later(evenings.3) == Some([later.3; 4])
        && differences(later, evenings) == [DAY; 4]
}

fn leads_earlier(evenings: Evenings, earlier: Evenings) -> bool {
    plain_earlier(evenings.0) == Some([earlier.0; 4])
        && utc_earlier(evenings.1) == Some([earlier.1; 4])
        && timestamp_earlier(evenings.2) == Some([earlier.2; 4])
        && moment_earlier(evenings.3) == Some([earlier.3; 4])
}

fn leads_later_by_std(evenings: Evenings, later: Evenings) -> bool {
    plain_later_by_std(evenings.0) == Some([later.0; 3])
        && utc_later_by_std(evenings.1) == Some([later.1; 3])
        && timestamp_later_by_std(evenings.2) == Some([later.2; 3])
        && moment_later_by_std(evenings.3) == Some([later.3; 3])
}

fn leads_earlier_by_std(evenings: Evenings, earlier: Evenings) -> bool {
    plain_earlier_by_std(evenings.0) == Some([earlier.0; 3])
        && utc_earlier_by_std(evenings.1) == Some([earlier.1; 3])
        && timestamp_earlier_by_std(evenings.2) == Some([earlier.2; 3])
        && moment_earlier_by_std(evenings.3) == Some([earlier.3; 3])
}

#[test]
fn moves_by_a_day(rt: HostRuntime) {
    let evening = evenings(leap_day());
    let later = evenings(date_of(2024, Month::March, 1));
    let earlier = evenings(date_of(2024, Month::February, 28));
    assert!(rt; leads_later(evening, later) && leads_earlier(evening, earlier));
    assert!(rt; leads_later_by_std(evening, later) && leads_earlier_by_std(evening, earlier));
}

// Past both ends of the calendar there is nothing for the calls that answer so, and the other calls stop there.

fn ends_plain(first: PlainDateTime, last: PlainDateTime) -> bool {
    let std_step = Duration::from_nanos(1);
    let past = [
        last.checked_add(STEP),
        last.checked_add_std(std_step),
        first.checked_sub(STEP),
        first.checked_sub_std(std_step),
    ];
    let stopped = [
        last.saturating_add(STEP),
        first.saturating_add(SignedDuration::MAX),
        first.saturating_sub(STEP),
        last.saturating_sub(SignedDuration::MAX),
    ];
    past == [None; 4] && stopped == [last, last, first, first]
}

fn ends_utc(first: UtcDateTime, last: UtcDateTime) -> bool {
    let std_step = Duration::from_nanos(1);
    let past = [
        last.checked_add(STEP),
        last.checked_add_std(std_step),
        first.checked_sub(STEP),
        first.checked_sub_std(std_step),
    ];
    let stopped = [
        last.saturating_add(STEP),
        first.saturating_add(SignedDuration::MAX),
        first.saturating_sub(STEP),
        last.saturating_sub(SignedDuration::MAX),
    ];
    past == [None; 4] && stopped == [last, last, first, first]
}

fn ends_timestamp(first: Timestamp, last: Timestamp) -> bool {
    let std_step = Duration::from_nanos(1);
    let past = [
        last.checked_add(STEP),
        last.checked_add_std(std_step),
        first.checked_sub(STEP),
        first.checked_sub_std(std_step),
    ];
    let stopped = [
        last.saturating_add(STEP),
        first.saturating_add(SignedDuration::MAX),
        first.saturating_sub(STEP),
        last.saturating_sub(SignedDuration::MAX),
    ];
    past == [None; 4] && stopped == [last, last, first, first]
}

fn ends_moment(first: OffsetDateTime, last: OffsetDateTime) -> bool {
    let std_step = Duration::from_nanos(1);
    let past = [
        last.checked_add(STEP),
        last.checked_add_std(std_step),
        first.checked_sub(STEP),
        first.checked_sub_std(std_step),
    ];
    let stopped = [
        last.saturating_add(STEP),
        first.saturating_add(SignedDuration::MAX),
        first.saturating_sub(STEP),
        last.saturating_sub(SignedDuration::MAX),
    ];
    past == [None; 4] && stopped == [last, last, first, first]
}

#[test]
fn ends_with_the_calendar(rt: HostRuntime) {
    let [first, last] = laws::ends_of_wall_clocks();
    assert!(rt;
        ends_plain(first, last)
            && ends_utc(first.as_utc(), last.as_utc())
            && ends_timestamp(Timestamp::MIN, Timestamp::MAX)
            && ends_moment(first.assume_offset(east()), last.assume_offset(east()))
    );
}

//! The laws of the calendar at values that are known from outside.
use crate::dates::answered;
use crate::durations;
use crate::rows::leap_day;
use calendar::laws::{self, times};
use calendar::{Date, Month, SignedDuration, Time, UtcOffset, Weekday};
use std::cmp::Ordering;

// The days that laws lead to from a day, and the ends of the calendar with the first day of Unix time.
fn days(leap: Date) -> [Date; 10] {
    let [least, greatest] = laws::ends_of_calendar();
    [
        answered(laws::day_of_calendar_date(leap)),
        answered(laws::day_of_ordinal_date(leap)),
        answered(laws::day_of_iso_week_date(leap)),
        answered(laws::day_of_julian_day(leap)),
        laws::day_and_back(leap, SignedDuration::WEEK).unwrap_or(Date::MIN),
        laws::day_at_difference(Date::MIN, leap).unwrap_or(Date::MIN),
        laws::day_at_difference(leap, Date::MIN).unwrap_or(leap),
        least,
        laws::day_of_unix_epoch(),
        greatest,
    ]
}

fn are_days(leap: Date) -> bool {
    let (first, epoch) = (Date::MIN, answered(Date::from_julian_day(2_440_588)));
    days(leap)
        == [
            leap,
            leap,
            leap,
            leap,
            leap,
            leap,
            first,
            first,
            epoch,
            Date::MAX,
        ]
}

type Shown = (
    Option<(i32, u8, Weekday)>,
    Option<i32>,
    Month,
    Weekday,
    Ordering,
);

fn shown() -> Shown {
    (
        laws::iso_week_date_of_day(2024, 9, Weekday::Thursday),
        laws::julian_day_of_day(2_451_545),
        laws::month_and_back(Month::May, 200),
        laws::weekday_and_back(Weekday::Sunday, 200),
        laws::order_of_months(Month::May, Month::June),
    )
}

static SHOWN: Shown = (
    Some((2024, 9, Weekday::Thursday)),
    Some(2_451_545),
    Month::May,
    Weekday::Sunday,
    Ordering::Less,
);

fn are_offsets(offset: UtcOffset) -> bool {
    let offsets = [
        laws::offset_of_whole_seconds(offset).unwrap_or(UtcOffset::UTC),
        times::turned_twice(offset),
        times::offset_of_utc(),
    ];
    offsets == [offset, offset, UtcOffset::UTC]
}

#[test]
fn laws_of_dates_and_offsets(rt: HostRuntime) {
    laws::views();
    laws::both_ends();
    laws::order_of_days();
    let offset = UtcOffset::from_hms(-3, 30, 0).unwrap_or(UtcOffset::UTC);
    assert!(rt; are_days(leap_day()) && shown() == SHOWN && are_offsets(offset));
}

fn led_to() -> [u64; 4] {
    let sample = Time::from_seconds_nanoseconds(84_050, 123_456_789);
    let later = Time::from_seconds_nanoseconds(1250, 0);
    let [first, last] = times::ends_of_day();
    [
        times::led_by_duration_until(sample, later).nanosecond_of_day(),
        times::moved_and_back(sample, SignedDuration::MIN).nanosecond_of_day(),
        first.nanosecond_of_day(),
        last.nanosecond_of_day(),
    ]
}

static LED_TO: [u64; 4] = [1_250_000_000_000, 84_050_123_456_789, 0, 86_399_999_999_999];

fn units() -> [SignedDuration; 11] {
    [
        SignedDuration::MIN,
        SignedDuration::seconds(0),
        SignedDuration::nanoseconds(1),
        SignedDuration::microseconds(1),
        SignedDuration::milliseconds(1),
        SignedDuration::seconds(1),
        SignedDuration::minutes(1),
        SignedDuration::hours(1),
        SignedDuration::days(1),
        SignedDuration::weeks(1),
        SignedDuration::MAX,
    ]
}

#[test]
fn laws_of_times_and_durations(rt: HostRuntime) {
    let sample = durations::sample();
    let back = laws::durations::added_and_taken_away(sample, SignedDuration::WEEK);
    assert!(rt;
        led_to() == LED_TO && laws::durations::constants() == units() && back == Some(sample)
    );
}

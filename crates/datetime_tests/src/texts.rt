//! Printed texts.
use crate::durations;
use crate::each_type::evenings;
use crate::rows::{date_of, east, leap_day, offset_of, timestamp_of};
use calendar::{
    ComponentName, ComponentRange, ConversionRange, Date, InvalidVariant, Month, SignedDuration,
    Time, UtcOffset, Weekday,
};
use datetime::OffsetDateTime;
use std::alloc::Global;
use std::fmt;

// Whether a value has this text: displayed, for debugging, and under a width.
fn prints<T: fmt::Display + fmt::Debug + Drop>(alloc: Global, value: T, text: &str) -> bool {
    match format!(in alloc; "{value}|{value:?}|{value:_^44}") {
        Ok(given) => given.as_str() == text,
        Err(_) => false,
    }
}

const PLAIN: &str = "2024-02-29 23:59:58.123456789|2024-02-29 23:59:58.123456789|\
    _______2024-02-29 23:59:58.123456789________";

const UTC: &str = "2024-02-29 23:59:58.123456789 +00|2024-02-29 23:59:58.123456789 +00|\
    _____2024-02-29 23:59:58.123456789 +00______";

const EAST: &str =
    "2024-02-29 23:59:58.123456789 +05:30:00|2024-02-29 23:59:58.123456789 +05:30:00|\
    __2024-02-29 23:59:58.123456789 +05:30:00___";

const MORNING: &str = "2024-06-19 7:05:00.25 +05:30:00|2024-06-19 7:05:00.25 +05:30:00|\
    ______2024-06-19 7:05:00.25 +05:30:00_______";

const LONGEST: &str =
    "-999999-01-01 23:59:59.999999999 -25:59:59|-999999-01-01 23:59:59.999999999 -25:59:59|\
    _-999999-01-01 23:59:59.999999999 -25:59:59_";

fn prints_moments(alloc: Global) -> bool {
    let (plain, utc, _, shown) = evenings(leap_day());
    let time = Time::from_hms_milli(7, 5, 0, 250).unwrap_or(Time::MIDNIGHT);
    let date = date_of(2024, Month::June, 19);
    let morning = OffsetDateTime::new_in_offset(date, time, east());
    let longest = OffsetDateTime::new_in_offset(Date::MIN, Time::MAX, offset_of(-25, -59, -59));
    prints(alloc, plain, PLAIN)
        && prints(alloc, utc, UTC)
        && prints(alloc, shown, EAST)
        && prints(alloc, morning, MORNING)
        && prints(alloc, longest, LONGEST)
}

// Seconds and nanoseconds since 1970, as a timestamp is printed.
static TIMESTAMPS: [(i64, u32, &str); 8] = [
    (
        -1,
        999_000_000,
        "-0.001|-0.001|___________________-0.001___________________",
    ),
    (
        -1,
        999_999_999,
        "-0.000000001|-0.000000001|________________-0.000000001________________",
    ),
    (0, 0, "0|0|_____________________0______________________"),
    (
        1_546_300_800,
        0,
        "1546300800|1546300800|_________________1546300800_________________",
    ),
    (
        -2,
        500_000_000,
        "-1.5|-1.5|____________________-1.5____________________",
    ),
    (
        -31_619_087_596_800,
        0,
        "-31619087596800|-31619087596800|______________-31619087596800_______________",
    ),
    (
        1_709_251_198,
        123_456_789,
        "1709251198.123456789|1709251198.123456789|____________1709251198.123456789____________",
    ),
    (
        31_494_784_780_799,
        999_999_999,
        "31494784780799.999999999|31494784780799.999999999|__________31494784780799.999999999__________",
    ),
];

fn prints_timestamps(alloc: Global) -> bool {
    for row in &TIMESTAMPS {
        if !prints(alloc, timestamp_of(row.0, row.1), row.2) {
            return false;
        }
    }
    true
}

fn prints_days(alloc: Global) -> [bool; 5] {
    let june = date_of(2024, Month::June, 9);
    let before = date_of(-44, Month::March, 15);
    let after = date_of(10_000, Month::January, 1);
    [
        prints(
            alloc,
            june,
            "2024-06-09|2024-06-09|_________________2024-06-09_________________",
        ),
        prints(
            alloc,
            before,
            "-0044-03-15|-0044-03-15|________________-0044-03-15_________________",
        ),
        prints(
            alloc,
            after,
            "+10000-01-01|+10000-01-01|________________+10000-01-01________________",
        ),
        prints(
            alloc,
            Month::May,
            "May|May|____________________May_____________________",
        ),
        prints(
            alloc,
            Weekday::Friday,
            "Friday|Friday|___________________Friday___________________",
        ),
    ]
}

// A width counts characters, of which `µ` is one.
fn prints_times_and_durations(alloc: Global) -> [bool; 6] {
    let early = Time::from_seconds_nanoseconds(25_509, 1000);
    let offset = UtcOffset::from_whole_seconds(-1805).unwrap_or(UtcOffset::UTC);
    let sample = durations::sample();
    let minute = SignedDuration::microseconds(-61_000_250);
    [
        prints(
            alloc,
            early,
            "7:05:09.000001|7:05:09.000001|_______________7:05:09.000001_______________",
        ),
        prints(
            alloc,
            Time::MIDNIGHT,
            "0:00:00.0|0:00:00.0|_________________0:00:00.0__________________",
        ),
        prints(
            alloc,
            offset,
            "-00:30:05|-00:30:05|_________________-00:30:05__________________",
        ),
        prints(
            alloc,
            sample,
            "-1d2h3m4s5ms1ns|-1d2h3m4s5ms1ns|______________-1d2h3m4s5ms1ns_______________",
        ),
        prints(
            alloc,
            minute,
            "-1m1s250µs|-1m1s250µs|_________________-1m1s250µs_________________",
        ),
        prints(
            alloc,
            SignedDuration::ZERO,
            "0s|0s|_____________________0s_____________________",
        ),
    ]
}

const DAY: &str = "day was not in range given values of other parameters|\
    ComponentRange { component: Day, is_conditional: true }|\
    day was not in range given values of other parameters";

const JULIAN_DAY: &str = "julian_day was not in range|\
    ComponentRange { component: JulianDay, is_conditional: false }|julian_day was not in range";

const CONVERSION: &str = "value out of range for the target type|ConversionRange|\
    ___value out of range for the target type___";

const VARIANT: &str = "value was not a valid variant|InvalidVariant|\
    _______value was not a valid variant________";

// Of refusals two heed a width.
fn prints_refusals(alloc: Global) -> [bool; 4] {
    let day = ComponentRange::conditional(ComponentName::Day);
    let julian_day = ComponentRange::unconditional(ComponentName::JulianDay);
    [
        prints(alloc, day, DAY),
        prints(alloc, julian_day, JULIAN_DAY),
        prints(alloc, ConversionRange, CONVERSION),
        prints(alloc, InvalidVariant, VARIANT),
    ]
}

#[test]
fn prints_all_types(rt: HostRuntime) {
    let alloc = rt.alloc();
    assert!(rt; prints_moments(alloc) && prints_timestamps(alloc));
    assert!(rt; prints_days(alloc) == [true; 5] && prints_refusals(alloc) == [true; 4]);
    assert!(rt; prints_times_and_durations(alloc) == [true; 6]);
}

//! Times of day, offsets and moments that parts name.

use calendar::{Date, Month, Time, UtcOffset};
use datetime_types::{OffsetDateTime, PlainDateTime, UtcDateTime};
use parsing_values::resolve::permitted_time;
use parsing_values::{
    DateParts, MomentParts, OffsetParts, TimeParts, YearParts, hour, offset, offset_date_time,
    plain_date_time, time, timestamp, utc_date_time,
};

const NO_YEAR: YearParts = YearParts {
    year: None,
    century: None,
    century_is_negative: false,
    last_two: None,
};

const LAST_DAY: DateParts = DateParts {
    year: YearParts {
        year: Some(1990),
        ..NO_YEAR
    },
    iso_year: NO_YEAR,
    ordinal: None,
    month: Some(Month::December),
    day: Some(31),
    weekday: None,
    iso_week: None,
    sunday_week: None,
    monday_week: None,
};

// The second half of the day, by its own hours.
const AFTERNOON: TimeParts = TimeParts {
    hour_24: None,
    hour_12: Some(11),
    hour_12_is_pm: Some(true),
    minute: None,
    second: None,
    subsecond: None,
};

const LEAP_SECOND: TimeParts = TimeParts {
    hour_24: Some(15),
    minute: Some(59),
    second: Some(60),
    ..AFTERNOON
};

fn times_are_named() -> bool {
    let end = Time::from_hms_nano(15, 59, 59, 999_999_999).unwrap_or(Time::MIDNIGHT);
    time(true, &LEAP_SECOND) == Ok(end)
        && permitted_time(true, 15, 59, 60, 0) == Ok(end)
        && hour(&AFTERNOON) == Some(23)
}

// Where the hour is 0 the minutes have the sign.
const BEHIND: OffsetParts = OffsetParts {
    hour: Some(0),
    minute: Some(-30),
    second: None,
};

const WEST: OffsetParts = OffsetParts {
    hour: Some(-8),
    minute: None,
    second: None,
};

// 1990-12-31T15:59:60, where a leap second is permitted.
const LEAP: MomentParts = MomentParts {
    date: LAST_DAY,
    time: LEAP_SECOND,
    leap_second_is_permitted: true,
    unix_nanoseconds: None,
};

// Whether each kind of instant, and the wall clock, is named on this day.
fn are_named(day: Date) -> bool {
    let utc = UtcDateTime::new(day, Time::MAX);
    let moment = offset_date_time(&LEAP, &WEST);
    let wall = plain_date_time(false, &LAST_DAY, &AFTERNOON);
    moment.map(OffsetDateTime::unix_timestamp_nanos) == Ok(utc.unix_timestamp_nanos())
        && utc_date_time(&LEAP, &WEST) == Ok(utc)
        && timestamp(&LEAP, &WEST) == Ok(utc.into())
        && wall.map(PlainDateTime::date) == Ok(day)
}

#[test]
fn times_offsets_and_instants(rt: HostRuntime) {
    let behind = offset(&BEHIND).map(UtcOffset::whole_seconds);
    let day = Date::from_calendar_date(1990, Month::December, 31).unwrap_or(Date::MIN);
    assert!(rt; times_are_named() && behind == Ok(-1800) && are_named(day));
}

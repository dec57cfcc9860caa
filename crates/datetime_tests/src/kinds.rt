//! What every type of date-time answers alike, so that one row serves all of them.
use crate::rows::{Part, Parts, Refused, Views};
use calendar::{ComponentRange, Date, Time, UtcOffset};
use datetime::{OffsetDateTime, WallClock};

// What a value shows.
pub fn parts<T: WallClock>(value: T) -> Parts {
    (value.to_calendar_date(), value.as_hms_nano())
}

// What a moment shows, and its offset.
pub fn shown(moment: OffsetDateTime) -> (Parts, UtcOffset) {
    (parts(moment), moment.offset())
}

// The day and the time of day by every view of them.
pub fn views<T: WallClock>(value: T) -> Views {
    (
        (
            value.to_calendar_date(),
            value.to_ordinal_date(),
            value.to_iso_week_date(),
            value.to_julian_day(),
            (value.year(), value.month(), value.day(), value.ordinal()),
            (
                value.iso_week(),
                value.sunday_based_week(),
                value.monday_based_week(),
                value.weekday(),
            ),
        ),
        (
            value.as_hms_nano(),
            value.as_hms_micro(),
            value.as_hms_milli(),
            value.as_hms(),
            (value.hour(), value.minute(), value.second()),
            (value.millisecond(), value.microsecond(), value.nanosecond()),
        ),
    )
}

fn with_part<T: WallClock>(value: T, part: Part) -> Result<T, ComponentRange> {
    match part {
        Part::FirstDay => Ok(value.replace_date(Date::MIN)),
        Part::Midnight => Ok(value.replace_time(Time::MIDNIGHT)),
        Part::Year(year) => value.replace_year(year),
        Part::Month(month) => value.replace_month(month),
        Part::Day(day) => value.replace_day(day),
        Part::Ordinal(ordinal) => value.replace_ordinal(ordinal),
        Part::Hour(hour) => value.replace_hour(hour),
        Part::Minute(minute) => value.replace_minute(minute),
        Part::Second(second) => value.replace_second(second),
        Part::Millisecond(millisecond) => value.replace_millisecond(millisecond),
        Part::Microsecond(microsecond) => value.replace_microsecond(microsecond),
        Part::Nanosecond(nanosecond) => value.replace_nanosecond(nanosecond),
    }
}

// What a value shows with a part replaced, or how that is refused.
pub fn replaced<T: WallClock>(value: T, part: Part) -> Result<Parts, Refused> {
    match with_part(value, part) {
        Ok(replaced) => Ok(parts(replaced)),
        Err(refusal) => Err((refusal.name(), refusal.is_conditional())),
    }
}

// A value cut to a day, an hour, a minute, a second, a millisecond and a microsecond.
pub fn cut<T: WallClock>(value: T) -> [Parts; 6] {
    [
        parts(value.truncate_to_day()),
        parts(value.truncate_to_hour()),
        parts(value.truncate_to_minute()),
        parts(value.truncate_to_second()),
        parts(value.truncate_to_millisecond()),
        parts(value.truncate_to_microsecond()),
    ]
}

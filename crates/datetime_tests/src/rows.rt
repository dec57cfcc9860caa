//! Known values and what they show, alike for every type of date-time.
use calendar::{ComponentRange, Date, Month, Time, UtcOffset, Weekday};
use datetime::Timestamp;
use std::hash::{DefaultHasher, Hash, Hasher};

// A year, a month and a day; an hour, a minute, a second and a nanosecond.
pub type Parts = ((i32, Month, u8), (u8, u8, u8, u32));

// The day by every view of it, and the time of day.
pub type Views = (
    (
        (i32, Month, u8),
        (i32, u16),
        (i32, u8, Weekday),
        i32,
        (i32, Month, u8, u16),
        (u8, u8, u8, Weekday),
    ),
    (
        (u8, u8, u8, u32),
        (u8, u8, u8, u32),
        (u8, u8, u8, u16),
        (u8, u8, u8),
        (u8, u8, u8),
        (u16, u32, u32),
    ),
);

// A refusal's name, and whether it is conditional.
pub type Refused = (&'static str, bool);

// A part that is replaced: by the first day of all, by midnight, or by a number.
#[derive(Clone, Copy)]
pub enum Part {
    FirstDay,
    Midnight,
    Year(i32),
    Month(Month),
    Day(u8),
    Ordinal(u16),
    Hour(u8),
    Minute(u8),
    Second(u8),
    Millisecond(u16),
    Microsecond(u32),
    Nanosecond(u32),
}

pub const LEAP_DAY: (i32, Month, u8) = (2024, Month::February, 29);

pub const EVENING: (u8, u8, u8, u32) = (23, 59, 58, 123_456_789);

pub const FIRST: Parts = ((-999_999, Month::January, 1), (0, 0, 0, 0));

pub static VIEWS: Views = (
    (
        LEAP_DAY,
        (2024, 60),
        (2024, 9, Weekday::Thursday),
        2_460_370,
        (2024, Month::February, 29, 60),
        (9, 8, 9, Weekday::Thursday),
    ),
    (
        EVENING,
        (23, 59, 58, 123_456),
        (23, 59, 58, 123),
        (23, 59, 58),
        (23, 59, 58),
        (123, 123_456, 123_456_789),
    ),
);

// The leap day's evening with a part replaced, or how that is refused.
pub static REPLACED: [(Part, Result<Parts, Refused>); 22] = [
    (Part::Year(2020), Ok(((2020, Month::February, 29), EVENING))),
    (
        Part::Month(Month::March),
        Ok(((2024, Month::March, 29), EVENING)),
    ),
    (Part::Day(1), Ok(((2024, Month::February, 1), EVENING))),
    (
        Part::Ordinal(366),
        Ok(((2024, Month::December, 31), EVENING)),
    ),
    (Part::FirstDay, Ok(((-999_999, Month::January, 1), EVENING))),
    (Part::Midnight, Ok((LEAP_DAY, (0, 0, 0, 0)))),
    (Part::Hour(1), Ok((LEAP_DAY, (1, 59, 58, 123_456_789)))),
    (Part::Minute(1), Ok((LEAP_DAY, (23, 1, 58, 123_456_789)))),
    (Part::Second(1), Ok((LEAP_DAY, (23, 59, 1, 123_456_789)))),
    (
        Part::Millisecond(1),
        Ok((LEAP_DAY, (23, 59, 58, 1_000_000))),
    ),
    (Part::Microsecond(1), Ok((LEAP_DAY, (23, 59, 58, 1000)))),
    (Part::Nanosecond(1), Ok((LEAP_DAY, (23, 59, 58, 1)))),
    (Part::Year(2023), Err(("day", true))),
    (Part::Year(1_000_000), Err(("year", false))),
    (Part::Day(30), Err(("day", true))),
    (Part::Ordinal(367), Err(("ordinal", true))),
    (Part::Hour(24), Err(("hour", false))),
    (Part::Minute(60), Err(("minute", false))),
    (Part::Second(60), Err(("second", false))),
    (Part::Millisecond(1000), Err(("millisecond", false))),
    (Part::Microsecond(1_000_000), Err(("microsecond", false))),
    (Part::Nanosecond(1_000_000_000), Err(("nanosecond", false))),
];

const EVE: (i32, Month, u8) = (1969, Month::December, 31);

// The evening of the last day of 1969, cut to a day, an hour, a minute, a second, a millisecond and a microsecond.
pub const CUT: [Parts; 6] = [
    (EVE, (0, 0, 0, 0)),
    (EVE, (23, 0, 0, 0)),
    (EVE, (23, 59, 0, 0)),
    (EVE, (23, 59, 58, 0)),
    (EVE, (23, 59, 58, 123_000_000)),
    (EVE, (23, 59, 58, 123_456_000)),
];

// The day, which the calendar has.
pub fn date_of(year: i32, month: Month, day: u8) -> Date {
    Date::from_calendar_date(year, month, day).unwrap_or(Date::MAX)
}

// The offset, which is one.
pub fn offset_of(hours: i8, minutes: i8, seconds: i8) -> UtcOffset {
    UtcOffset::from_hms(hours, minutes, seconds).unwrap_or(UtcOffset::UTC)
}

// The timestamp, which the calendar has.
pub fn timestamp_of(seconds: i64, nanosecond: u32) -> Timestamp {
    Timestamp::new(seconds, nanosecond).unwrap_or(Timestamp::UNIX_EPOCH)
}

pub fn leap_day() -> Date {
    date_of(2024, Month::February, 29)
}

pub fn evening() -> Time {
    Time::from_hms_nano(23, 59, 58, 123_456_789).unwrap_or(Time::MIDNIGHT)
}

pub fn east() -> UtcOffset {
    offset_of(5, 30, 0)
}

// The refusal's name, and whether it is conditional.
pub fn refused<T: Drop>(answer: Result<T, ComponentRange>) -> Refused {
    match answer {
        Ok(_) => ("", false),
        Err(refusal) => (refusal.name(), refusal.is_conditional()),
    }
}

pub fn hash_of<T: Hash + Drop>(value: T) -> u64 {
    let mut state = DefaultHasher::new();
    value.hash(&mut state);
    state.finish()
}

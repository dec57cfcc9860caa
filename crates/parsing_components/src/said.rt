//! What a component says of a moment.

use calendar_count::{Month, Weekday};

/// What a component says of a moment.
#[derive(Clone, Copy, Debug, PartialEq, Eq)]
pub enum Read {
    Year(i32),
    /// The century, and whether it is after a minus.
    YearCentury(i16, bool),
    YearLastTwo(u8),
    /// The year that ISO 8601's weeks belong to.
    IsoYear(i32),
    /// Its century, and whether it is after a minus.
    IsoYearCentury(i16, bool),
    IsoYearLastTwo(u8),
    Month(Month),
    SundayWeek(u8),
    MondayWeek(u8),
    IsoWeek(u8),
    Weekday(Weekday),
    Ordinal(u16),
    Day(u8),
    Hour24(u8),
    Hour12(u8),
    /// Whether it is the later half of the day.
    Afternoon(bool),
    Minute(u8),
    Second(u8),
    /// In nanoseconds.
    Subsecond(u32),
    /// The hours, and whether they are after a minus.
    OffsetHour(i8, bool),
    OffsetMinute(u8),
    OffsetSecond(u8),
    /// The nanoseconds since 1970 began.
    Unix(i128),
    /// The bytes were passed over.
    Nothing,
}

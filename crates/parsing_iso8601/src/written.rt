//! What a text of ISO 8601 says.

use calendar_count::{Month, Weekday};

/// A date.
#[derive(Clone, Copy, Debug, PartialEq, Eq)]
pub enum WrittenDate {
    /// A year, a month and a day of the month.
    OfMonth(i32, Month, u8),
    /// A year and a day of the year.
    OfYear(i32, u16),
    /// A year that weeks belong to, its week and a day of that week.
    OfWeek(i32, u8, Weekday),
}

/// A time of day: what isn't written is 0. Fractions of hours and minutes are split into the finer numbers.
#[derive(Clone, Copy, Debug, PartialEq, Eq)]
pub struct WrittenTime {
    pub hour: u8,
    pub minute: u8,
    /// 60 is a leap second.
    pub second: u8,
    /// Nanoseconds.
    pub subsecond: u32,
}

/// An offset from UTC: its hours and minutes have its sign.
#[derive(Clone, Copy, Debug, PartialEq, Eq)]
pub struct WrittenOffset {
    pub hour: i8,
    pub minute: i8,
    /// 0 where the offset is `Z`: no other one says its seconds.
    pub second: Option<i8>,
}

/// The parts that a text has, one at least.
#[derive(Clone, Copy, Debug, PartialEq, Eq)]
pub struct Iso8601Parts {
    pub date: Option<WrittenDate>,
    pub time: Option<WrittenTime>,
    pub offset: Option<WrittenOffset>,
}

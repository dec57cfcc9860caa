//! What a text says of a date.

use calendar_count::{Month, Weekday};

/// A year, or its century and its last two digits.
#[derive(Clone, Copy, Debug)]
pub struct YearParts {
    pub year: Option<i32>,
    pub century: Option<i16>,
    /// Whether the last two digits lead backwards from the century.
    pub century_is_negative: bool,
    pub last_two: Option<u8>,
}

/// The parts that are there.
#[derive(Clone, Copy, Debug)]
pub struct DateParts {
    pub year: YearParts,
    /// The year of ISO 8601, to which its weeks belong.
    pub iso_year: YearParts,
    pub ordinal: Option<u16>,
    pub month: Option<Month>,
    pub day: Option<u8>,
    pub weekday: Option<Weekday>,
    pub iso_week: Option<u8>,
    pub sunday_week: Option<u8>,
    pub monday_week: Option<u8>,
}

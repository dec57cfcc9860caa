//! What a text says of a time of day, of an offset and of a moment.

use crate::DateParts;

/// The parts of a time of day that are there.
#[derive(Clone, Copy, Debug)]
pub struct TimeParts {
    pub hour_24: Option<u8>,
    pub hour_12: Option<u8>,
    pub hour_12_is_pm: Option<bool>,
    pub minute: Option<u8>,
    pub second: Option<u8>,
    /// Nanoseconds.
    pub subsecond: Option<u32>,
}

/// The parts of an offset that are there, each under its sign.
#[derive(Clone, Copy, Debug)]
pub struct OffsetParts {
    pub hour: Option<i8>,
    pub minute: Option<i8>,
    pub second: Option<i8>,
}

/// The parts of a moment that are there.
#[derive(Clone, Copy, Debug)]
pub struct MomentParts {
    pub date: DateParts,
    pub time: TimeParts,
    /// Whether second 60 stands for the last nanosecond before it.
    pub leap_second_is_permitted: bool,
    /// The nanoseconds since 1970 began in UTC.
    pub unix_nanoseconds: Option<i128>,
}

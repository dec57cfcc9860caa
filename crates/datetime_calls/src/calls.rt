//! Calls on a moment, and what they answer.

use calendar::{Date, Month, SignedDuration, Time, UtcOffset, Weekday};
use datetime_types::OffsetDateTime;

/// A call on a moment: the name of the method of [`Moment`](crate::Moment), with its arguments.
#[derive(Clone, Copy, Debug, PartialEq, Eq)]
pub enum MomentCall {
    InstantNanos,
    ToCalendarDate,
    ToOrdinalDate,
    ToIsoWeekDate,
    Weekday,
    AsHmsNano,
    CheckedAdd(SignedDuration),
    CheckedSub(SignedDuration),
    ReplaceDate(Date),
    ReplaceTime(Time),
    CheckedToOffset(UtcOffset),
}

/// What the call of the same name answers. A new moment is carried as its nanoseconds since 1970
/// began in UTC, `None` where the calendar does not have it.
#[derive(Clone, Copy, Debug, PartialEq, Eq)]
pub enum MomentReply {
    /// The nanoseconds since 1970 began in UTC.
    InstantNanos(i128),
    /// The year, the month and the day of the month.
    ToCalendarDate(i32, Month, u8),
    /// The year and the place in it, from 1.
    ToOrdinalDate(i32, u16),
    /// The year and the week of ISO 8601, and the day of the week.
    ToIsoWeekDate(i32, u8, Weekday),
    Weekday(Weekday),
    /// The hour, the minute, the second and the nanosecond.
    AsHmsNano(u8, u8, u8, u32),
    CheckedAdd(Option<i128>),
    CheckedSub(Option<i128>),
    ReplaceDate(i128),
    ReplaceTime(i128),
    CheckedToOffset(Option<OffsetDateTime>),
}

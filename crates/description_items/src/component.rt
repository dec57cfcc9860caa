//! The components of a description.

use crate::modifier;

/// A part of a date, a time or an offset, and how it is written.
///
/// The last six are older forms, which the others say more exactly.
#[derive(Clone, Copy, Debug, PartialEq, Eq)]
pub enum Component {
    Day(modifier::Day),
    MonthShort(modifier::MonthShort),
    MonthLong(modifier::MonthLong),
    MonthNumerical(modifier::MonthNumerical),
    Ordinal(modifier::Ordinal),
    WeekdayShort(modifier::WeekdayShort),
    WeekdayLong(modifier::WeekdayLong),
    WeekdaySunday(modifier::WeekdaySunday),
    WeekdayMonday(modifier::WeekdayMonday),
    WeekNumberIso(modifier::WeekNumberIso),
    WeekNumberSunday(modifier::WeekNumberSunday),
    WeekNumberMonday(modifier::WeekNumberMonday),
    CalendarYearFullExtendedRange(modifier::CalendarYearFullExtendedRange),
    CalendarYearFullStandardRange(modifier::CalendarYearFullStandardRange),
    IsoYearFullExtendedRange(modifier::IsoYearFullExtendedRange),
    IsoYearFullStandardRange(modifier::IsoYearFullStandardRange),
    CalendarYearCenturyExtendedRange(modifier::CalendarYearCenturyExtendedRange),
    CalendarYearCenturyStandardRange(modifier::CalendarYearCenturyStandardRange),
    IsoYearCenturyExtendedRange(modifier::IsoYearCenturyExtendedRange),
    IsoYearCenturyStandardRange(modifier::IsoYearCenturyStandardRange),
    CalendarYearLastTwo(modifier::CalendarYearLastTwo),
    IsoYearLastTwo(modifier::IsoYearLastTwo),
    Hour12(modifier::Hour12),
    Hour24(modifier::Hour24),
    Minute(modifier::Minute),
    Period(modifier::Period),
    Second(modifier::Second),
    Subsecond(modifier::Subsecond),
    OffsetHour(modifier::OffsetHour),
    OffsetMinute(modifier::OffsetMinute),
    OffsetSecond(modifier::OffsetSecond),
    Ignore(modifier::Ignore),
    UnixTimestampSecond(modifier::UnixTimestampSecond),
    UnixTimestampMillisecond(modifier::UnixTimestampMillisecond),
    UnixTimestampMicrosecond(modifier::UnixTimestampMicrosecond),
    UnixTimestampNanosecond(modifier::UnixTimestampNanosecond),
    End(modifier::End),
    Month(modifier::Month),
    Weekday(modifier::Weekday),
    WeekNumber(modifier::WeekNumber),
    Year(modifier::Year),
    Hour(modifier::Hour),
    UnixTimestamp(modifier::UnixTimestamp),
}

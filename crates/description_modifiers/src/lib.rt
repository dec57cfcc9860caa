//! How the components of a date, of a time, of an offset and of a timestamp are written and read.
#![tactic(auto)]

mod calendar_year;
mod choices;
mod day;
mod end;
mod hour;
mod ignore;
mod iso_year;
mod minute;
mod month;
mod offset;
mod unix_timestamp;
mod week_number;
mod weekday;
mod year;

pub use calendar_year::{
    CalendarYearCenturyExtendedRange, CalendarYearCenturyStandardRange,
    CalendarYearFullExtendedRange, CalendarYearFullStandardRange, CalendarYearLastTwo,
};
pub use choices::{
    MonthRepr, Padding, SubsecondDigits, TrailingInput, UnixTimestampPrecision, WeekNumberRepr,
    WeekdayRepr, YearRange, YearRepr,
};
pub use day::{Day, Ordinal};
pub use end::End;
pub use hour::{Hour, Hour12, Hour24, Period};
pub use ignore::Ignore;
pub use iso_year::{
    IsoYearCenturyExtendedRange, IsoYearCenturyStandardRange, IsoYearFullExtendedRange,
    IsoYearFullStandardRange, IsoYearLastTwo,
};
pub use minute::{Minute, Second, Subsecond};
pub use month::{Month, MonthLong, MonthNumerical, MonthShort};
pub use offset::{OffsetHour, OffsetMinute, OffsetSecond};
pub use unix_timestamp::{
    UnixTimestamp, UnixTimestampMicrosecond, UnixTimestampMillisecond, UnixTimestampNanosecond,
    UnixTimestampSecond,
};
pub use week_number::{WeekNumber, WeekNumberIso, WeekNumberMonday, WeekNumberSunday};
pub use weekday::{Weekday, WeekdayLong, WeekdayMonday, WeekdayShort, WeekdaySunday};
pub use year::Year;

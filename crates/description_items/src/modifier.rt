//! How the components are written and read.

pub use description_modifiers::{
    CalendarYearCenturyExtendedRange, CalendarYearCenturyStandardRange,
    CalendarYearFullExtendedRange, CalendarYearFullStandardRange, CalendarYearLastTwo, Day, End,
    Hour, Hour12, Hour24, Ignore, IsoYearCenturyExtendedRange, IsoYearCenturyStandardRange,
    IsoYearFullExtendedRange, IsoYearFullStandardRange, IsoYearLastTwo, Minute, Month, MonthLong,
    MonthNumerical, MonthRepr, MonthShort, OffsetHour, OffsetMinute, OffsetSecond, Ordinal,
    Padding, Period, Second, Subsecond, SubsecondDigits, TrailingInput, UnixTimestamp,
    UnixTimestampMicrosecond, UnixTimestampMillisecond, UnixTimestampNanosecond,
    UnixTimestampPrecision, UnixTimestampSecond, WeekNumber, WeekNumberIso, WeekNumberMonday,
    WeekNumberRepr, WeekNumberSunday, Weekday, WeekdayLong, WeekdayMonday, WeekdayRepr,
    WeekdayShort, WeekdaySunday, Year, YearRange, YearRepr,
};

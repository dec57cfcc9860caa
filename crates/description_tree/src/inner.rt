//! The nodes of a tree.

use description_items::modifier;

/// Nodes that are lent.
#[cycle(inner)]
#[derive(Clone, Copy)]
pub struct Lent<'a> {
    /// The nodes.
    pub items: &'a [FormatDescriptionV3Inner<'a>],
}

/// A node of a description of version 3: a component, or a literal or a list of nodes, each borrowed
/// or owned.
#[cycle(inner)]
#[derive(Drop)]
pub enum FormatDescriptionV3Inner<'a> {
    Day(modifier::Day),
    MonthShort(modifier::MonthShort),
    MonthLong(modifier::MonthLong),
    MonthNumerical(modifier::MonthNumerical),
    Ordinal(modifier::Ordinal),
    WeekdayShort(modifier::WeekdayShort),
    WeekdayLong(modifier::WeekdayLong),
    WeekdaySunday(modifier::WeekdaySunday),
    WeekdayMonday(modifier::WeekdayMonday),
    WeekNumberIso(modifier::WeekNumberIso),
    WeekNumberSunday(modifier::WeekNumberSunday),
    WeekNumberMonday(modifier::WeekNumberMonday),
    CalendarYearFullExtendedRange(modifier::CalendarYearFullExtendedRange),
    IsoYearFullExtendedRange(modifier::IsoYearFullExtendedRange),
    CalendarYearFullStandardRange(modifier::CalendarYearFullStandardRange),
    IsoYearFullStandardRange(modifier::IsoYearFullStandardRange),
    CalendarYearCenturyExtendedRange(modifier::CalendarYearCenturyExtendedRange),
    IsoYearCenturyExtendedRange(modifier::IsoYearCenturyExtendedRange),
    CalendarYearCenturyStandardRange(modifier::CalendarYearCenturyStandardRange),
    IsoYearCenturyStandardRange(modifier::IsoYearCenturyStandardRange),
    CalendarYearLastTwo(modifier::CalendarYearLastTwo),
    IsoYearLastTwo(modifier::IsoYearLastTwo),
    Hour12(modifier::Hour12),
    Hour24(modifier::Hour24),
    Minute(modifier::Minute),
    Period(modifier::Period),
    Second(modifier::Second),
    Subsecond(modifier::Subsecond),
    OffsetHour(modifier::OffsetHour),
    OffsetMinute(modifier::OffsetMinute),
    OffsetSecond(modifier::OffsetSecond),
    Ignore(modifier::Ignore),
    UnixTimestampSecond(modifier::UnixTimestampSecond),
    UnixTimestampMillisecond(modifier::UnixTimestampMillisecond),
    UnixTimestampMicrosecond(modifier::UnixTimestampMicrosecond),
    UnixTimestampNanosecond(modifier::UnixTimestampNanosecond),
    End(modifier::End),
    /// Text as it stands.
    BorrowedLiteral(&'a str),
    /// Nodes, one after the other.
    BorrowedCompound(Lent<'a>),
    /// A node that may be missing.
    BorrowedOptional {
        /// Whether it is written.
        format: bool,
        /// The node.
        item: &'a FormatDescriptionV3Inner<'a>,
    },
    /// The first of these nodes that can be read.
    BorrowedFirst(Lent<'a>),
    /// Text as it stands.
    OwnedLiteral(String),
    /// Nodes, one after the other.
    OwnedCompound(Vec<FormatDescriptionV3Inner<'a>>),
    /// A node that may be missing.
    OwnedOptional {
        /// Whether it is written.
        format: bool,
        /// The node.
        item: Box<FormatDescriptionV3Inner<'a>>,
    },
    /// The first of these nodes that can be read.
    OwnedFirst(Vec<FormatDescriptionV3Inner<'a>>),
}

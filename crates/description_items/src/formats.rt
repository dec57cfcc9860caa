//! The formats that standards describe, by name.

/// The format of RFC 2822, section 3.3, as `Tue, 1 Jul 2003 10:52:37 +0200`, with the obsolete forms of section 4.3.
/// Comments are at most 31 levels deep. The weekday is read and not compared with the date.
#[derive(Clone, Copy, Debug, PartialEq, Eq)]
pub struct Rfc2822;

/// The format of RFC 3339, section 5.6, as `2003-07-01T10:52:37.5+02:00`, with any one byte between date and time.
/// `z` is read as `Z`, and digits after the ninth of a fraction are dropped.
#[derive(Clone, Copy, Debug, PartialEq, Eq)]
pub struct Rfc3339;

/// The formats of ISO 8601-1:2019, sections 5.2 to 5.4, for a date, a time of day and an offset, basic and extended:
/// calendar, ordinal and week dates, as `2003-W27-2T10:52,5+02`. A year has four digits, or a sign and six. A
/// fraction may end an hour, a minute or a second; one of a second is rounded to the nearest nanosecond.
#[derive(Clone, Copy, Debug, PartialEq, Eq)]
pub struct Iso8601;

//! The parts of a rule, POSIX.1-2024, section 8.3, `TZ`.

/// A day of a year.
#[derive(Clone, Copy)]
pub enum Day {
    /// `Jn`: the day of that number, from 1 to 365. February 29 has none, and is never meant.
    Julian(u16),
    /// `n`: the day of that number, from 0 to 365. February 29 has one.
    Numbered(u16),
    /// `Mm.w.d`: of a month, from 1 to 12, and a week of it, from 1 to 5, the weekday, from Sunday as 0 to 6. The fifth
    /// week is the last in which that weekday comes.
    Weekday(u8, u8, u8),
}

/// When a clock is changed in a year: so many seconds after the midnight with which a day begins, by the clock as it was.
#[derive(Clone, Copy)]
pub struct Change {
    pub day: Day,
    pub time: i32,
}

/// Summer time: how many seconds the clock is ahead of UTC, and when it begins and ends.
#[derive(Clone, Copy)]
pub struct Summer {
    pub offset: i32,
    pub start: Change,
    pub end: Change,
}

/// A rule: how many seconds the clock is ahead of UTC in standard time, and summer time, if there is any.
#[derive(Clone, Copy)]
pub struct Rule {
    pub standard: i32,
    pub summer: Option<Summer>,
}

/// Where the names of standard and summer time stand among a zone's letters.
#[derive(Clone, Copy)]
pub struct Names {
    pub standard: u16,
    pub summer: u16,
}

//! What is asked of the lines of a stream.

use crate::line_part::LinePart;
use crate::mode::Mode;

/// What is written for lines, and what is given for dates that lack it.
#[derive(Clone, Copy)]
pub struct Asked<'a> {
    pub mode: Mode,
    /// The name of the zone on whose clock dates are that say no offset.
    pub zone: Option<&'a str>,
    /// The year of the first date, 0 to 9999.
    pub year: Option<i32>,
    /// The time of day of dates without one, in minutes, 0 to 1439.
    pub time: Option<u16>,
    /// The part of each line in which its date is looked for, if that is not the whole line.
    pub part: Option<LinePart<'a>>,
    /// What stands between the key of a line and the line, without a tab and a line feed.
    pub label: Option<&'a str>,
}

//! What is given for dates that lack it.

use calendar::UtcOffset;
use datetime_types::OffsetDateTime;
use zones_clock::Zone;

/// What is known of the year of dates that name none.
#[derive(Clone, Copy)]
pub enum Years {
    /// No year is given.
    Unknown,
    /// Each date is of this year.
    In(i32),
    /// Each date is of the year that brings it nearest to this moment: its own, the one before or the one after.
    Near(OffsetDateTime),
}

/// What is given once for dates that lack it: each part takes the place of what a date doesn't say.
#[derive(Clone, Copy)]
pub struct Given<'z> {
    /// The offset from UTC, of which hours and minutes count.
    pub offset: Option<UtcOffset>,
    /// The zone on whose clock dates are that say no offset, where one is given: they are read at the offset that is given, which
    /// is +00:00 then.
    pub zone: Option<&'z Zone>,
    /// The year.
    pub years: Years,
    /// The time of day in minutes.
    pub time: Option<u16>,
}

/// Nothing is given.
pub const NOTHING: Given<'static> = Given {
    offset: None,
    zone: None,
    years: Years::Unknown,
    time: None,
};

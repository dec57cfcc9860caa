//! An `OffsetDateTime` with another date and time, or another offset.
ghost use Rattle.std.specs.Prelude.{◌≡◌};
ghost use Rattle.datetime_wall.specs.Wall.{IsWallClock};
ghost use Rattle.calendar.specs.UtcOffset.{IsOffset};

use crate::{OffsetDateTime, PlainDateTime};
use calendar::UtcOffset;

impl OffsetDateTime {
    /// Another date and time at the same offset.
    #[inline(always)]
    pub fn replace_date_time(self, date_time: PlainDateTime) -> OffsetDateTime
        ensures value { result ≡ record { wall = date_time; offset = self.offset } }
        ensures range { IsWallClock date_time }
    {
        OffsetDateTime::from_wall(date_time, self.offset)
    }

    /// The same date and time at another offset, and so another instant.
    #[inline(always)]
    pub fn replace_offset(self, offset: UtcOffset) -> OffsetDateTime
        ensures value { result ≡ record { wall = self.wall; offset = offset } }
        ensures range { IsWallClock self.wall × IsOffset offset }
    {
        OffsetDateTime::from_wall(self.wall, offset)
    }
}

//! What a UtcDateTime shows, and one with another date or time of day, by the names that every kind of moment has.
ghost use Rattle.std.specs.Prelude.{◌≡◌, ◌<◌};
ghost use Rattle.std.specs.Int.{IsInRange};
ghost use Rattle.calendar.specs.Range.{IsYear};
ghost use Rattle.calendar.specs.Calendar.{day_at, ordinal_at, weekday_at, ymd, IsDay, IsIsoDay};
ghost use Rattle.calendar.specs.Month.{month_number};
ghost use Rattle.calendar.specs.Weekday.{days_from_monday};
ghost use Rattle.calendar.specs.Time.{hour_at, minute_at, second_at, nanosecond_at};
ghost use Rattle.datetime_wall.specs.Wall.{wall_clock, day_of, nanosecond_of};

use crate::{UtcDateTime, WallClock};
use calendar::{Date, Month, Time, Weekday};

impl UtcDateTime {
    /// The day of the week.
    #[inline(always)]
    pub fn weekday(self) -> Weekday
        ensures value { days_from_monday result ≡ weekday_at (day_of self) }
    {
        self.wall.weekday()
    }

    /// The year, the month and the day of the month.
    #[inline(always)]
    pub fn to_calendar_date(self) -> (i32, Month, u8)
        ensures value { day_at (day_of self) ≡ ymd result.0 (month_number result.1) result.2 }
        ensures valid { IsDay result.0 (month_number result.1) result.2 }
    {
        self.wall.to_calendar_date()
    }

    /// The year and the place in it, from 1.
    #[inline(always)]
    pub fn to_ordinal_date(self) -> (i32, u16)
        ensures year { result.0 ≡ (day_at (day_of self)).year }
        ensures ordinal { result.1 ≡ ordinal_at (day_of self) }
        ensures bound { IsYear result.0 × IsInRange 1 366 result.1 }
    {
        self.wall.to_ordinal_date()
    }

    /// The year and the week of ISO 8601, and the day of the week. The year is that of the week's Thursday,
    /// which may not be `year`.
    #[inline(always)]
    pub fn to_iso_week_date(self) -> (i32, u8, Weekday)
        ensures value { IsIsoDay result.0 result.1 (days_from_monday result.2) (day_of self) }
        ensures year { IsYear result.0 }
        ensures week { IsInRange 1 53 result.1 }
    {
        self.wall.to_iso_week_date()
    }

    /// The hour, the minute, the second and the nanosecond.
    #[inline(always)]
    pub fn as_hms_nano(self) -> (u8, u8, u8, u32)
        ensures hour { result.0 ≡ hour_at (nanosecond_of self) }
        ensures minute { result.1 ≡ minute_at (nanosecond_of self) }
        ensures second { result.2 ≡ second_at (nanosecond_of self) }
        ensures nanosecond { result.3 ≡ nanosecond_at (nanosecond_of self) }
        ensures bound { (result.0 < 24) × (result.1 < 60) × (result.2 < 60)
            × (result.3 < 1_000_000_000) }
    {
        self.wall.as_hms_nano()
    }

    /// The same time of day on another date.
    #[inline(always)]
    pub fn replace_date(self, date: Date) -> UtcDateTime
        ensures value { result ≡ wall_clock date (nanosecond_of self) }
        ensures day { day_of result ≡ date }
        ensures time { nanosecond_of result ≡ nanosecond_of self }
    {
        WallClock::replace_date(self, date)
    }

    /// Another time of day on the same date.
    #[inline(always)]
    pub fn replace_time(self, time: Time) -> UtcDateTime
        ensures { result ≡ wall_clock (day_of self) time }
    {
        WallClock::replace_time(self, time)
    }
}

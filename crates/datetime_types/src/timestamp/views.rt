//! What a Timestamp shows, and one with another date or time of day.
ghost use Rattle.std.specs.Prelude.{◌≡◌, ◌<◌, ◌≤◌, pos, ◌-ℤ◌};
ghost use Rattle.std.specs.Int.{IsInRange};
ghost use Rattle.calendar.specs.Range.{julian_zero, IsYear};
ghost use Rattle.calendar.specs.Calendar.{day_at, ordinal_at, weekday_at, sunday_week_at, monday_week_at, iso_week_at, ymd, IsDay, IsIsoDay};
ghost use Rattle.calendar.specs.Month.{month_number};
ghost use Rattle.calendar.specs.Weekday.{days_from_monday};
ghost use Rattle.calendar.specs.Time.{hour_at, minute_at, second_at, millisecond_at, microsecond_at, nanosecond_at};
ghost use Rattle.datetime_wall.specs.Wall.{wall_clock, day_of, nanosecond_of};

use crate::{Timestamp, WallClock};
use calendar::{Date, Month, Time, Weekday};
use calendar_count::range::JULIAN_ZERO;
use datetime_wall::{
    clock_of_second, day_of_count, iso_week_of_count, monday_week_of_count, place_of_count,
    sunday_week_of_count, weekday_of_count,
};

impl Timestamp {
    /// The year, -999999 to 999999.
    #[inline(always)]
    pub fn year(self) -> i32
        ensures value { result ≡ (day_at (day_of self)).year }
        ensures bound { IsYear result }
    {
        self.to_ordinal_date().0
    }

    /// The month.
    #[inline(always)]
    pub fn month(self) -> Month
        ensures value { month_number result ≡ (day_at (day_of self)).month }
    {
        self.to_calendar_date().1
    }

    /// The day of the month, from 1.
    #[inline(always)]
    pub fn day(self) -> u8
        ensures value { result ≡ (day_at (day_of self)).day }
        ensures bound { IsInRange 1 31 result }
    {
        self.to_calendar_date().2
    }

    /// The place in the year, from 1.
    #[inline(always)]
    pub fn ordinal(self) -> u16
        ensures value { result ≡ ordinal_at (day_of self) }
        ensures bound { IsInRange 1 366 result }
    {
        self.to_ordinal_date().1
    }

    /// The week of ISO 8601, 1 to 53.
    #[inline(always)]
    pub fn iso_week(self) -> u8
        ensures value { result ≡ iso_week_at (day_of self) }
        ensures bound { IsInRange 1 53 result }
    {
        iso_week_of_count(self.count()).1
    }

    /// The Sundays of the year up to and including the day, 0 to 53.
    #[inline(always)]
    pub fn sunday_based_week(self) -> u8
        ensures value { result ≡ sunday_week_at (day_of self) }
        ensures bound { result ≤ 53 }
    {
        sunday_week_of_count(self.count())
    }

    /// The Mondays of the year up to and including the day, 0 to 53.
    #[inline(always)]
    pub fn monday_based_week(self) -> u8
        ensures value { result ≡ monday_week_at (day_of self) }
        ensures bound { result ≤ 53 }
    {
        monday_week_of_count(self.count())
    }

    /// The day of the week.
    #[inline(always)]
    pub fn weekday(self) -> Weekday
        ensures value { days_from_monday result ≡ weekday_at (day_of self) }
    {
        Weekday::from_number(weekday_of_count(self.count()))
    }

    /// The year, the month and the day of the month.
    #[inline(always)]
    pub fn to_calendar_date(self) -> (i32, Month, u8)
        ensures value { day_at (day_of self) ≡ ymd result.0 (month_number result.1) result.2 }
        ensures valid { IsDay result.0 (month_number result.1) result.2 }
    {
        let (year, month, day) = day_of_count(self.count());
        (year, Month::from_number(month), day)
    }

    /// The year and the place in it, from 1.
    #[inline(always)]
    pub fn to_ordinal_date(self) -> (i32, u16)
        ensures year { result.0 ≡ (day_at (day_of self)).year }
        ensures ordinal { result.1 ≡ ordinal_at (day_of self) }
        ensures bound { IsYear result.0 × IsInRange 1 366 result.1 }
    {
        place_of_count(self.count())
    }

    /// The year and the week of ISO 8601, and the day of the week. The year is that of the week's Thursday,
    /// which may not be `year`.
    #[inline(always)]
    pub fn to_iso_week_date(self) -> (i32, u8, Weekday)
        ensures value { IsIsoDay result.0 result.1 (days_from_monday result.2) (day_of self) }
        ensures year { IsYear result.0 }
        ensures week { IsInRange 1 53 result.1 }
    {
        let (year, week) = iso_week_of_count(self.count());
        (year, week, self.weekday())
    }

    /// The Julian day of the date, which is 2,440,588 for all of 1970-01-01.
    #[inline(always)]
    pub fn to_julian_day(self) -> i32
        ensures value { result ≡ pos (day_of self) -ℤ pos julian_zero }
    {
        self.count() as i32 - JULIAN_ZERO
    }

    /// The hour, below 24.
    #[inline(always)]
    pub fn hour(self) -> u8
        ensures value { result ≡ hour_at (nanosecond_of self) }
        ensures bound { result < 24 }
    {
        self.as_hms().0
    }

    /// The minute of the hour, below 60.
    #[inline(always)]
    pub fn minute(self) -> u8
        ensures value { result ≡ minute_at (nanosecond_of self) }
        ensures bound { result < 60 }
    {
        self.as_hms().1
    }

    /// The second of the minute, below 60.
    #[inline(always)]
    pub fn second(self) -> u8
        ensures value { result ≡ second_at (nanosecond_of self) }
        ensures bound { result < 60 }
    {
        self.as_hms().2
    }

    /// The whole milliseconds of the second, below 1000.
    #[inline(always)]
    pub fn millisecond(self) -> u16
        ensures value { result ≡ millisecond_at (nanosecond_of self) }
        ensures bound { result < 1000 }
    {
        (self.nanosecond() / 1_000_000) as u16
    }

    /// The whole microseconds of the second, below 1,000,000.
    #[inline(always)]
    pub fn microsecond(self) -> u32
        ensures value { result ≡ microsecond_at (nanosecond_of self) }
        ensures bound { result < 1_000_000 }
    {
        self.nanosecond() / 1000
    }

    /// The nanoseconds of the second, below 1,000,000,000.
    #[inline(always)]
    pub fn nanosecond(self) -> u32
        ensures value { result ≡ nanosecond_at (nanosecond_of self) }
        ensures bound { result < 1_000_000_000 }
    {
        self.nanoseconds
    }

    /// The hour, the minute and the second.
    #[inline(always)]
    pub fn as_hms(self) -> (u8, u8, u8)
        ensures hour { result.0 ≡ hour_at (nanosecond_of self) }
        ensures minute { result.1 ≡ minute_at (nanosecond_of self) }
        ensures second { result.2 ≡ second_at (nanosecond_of self) }
        ensures bound { (result.0 < 24) × (result.1 < 60) × (result.2 < 60) }
    {
        clock_of_second(self.second_of_day())
    }

    /// The hour, the minute, the second and the millisecond.
    #[inline(always)]
    pub fn as_hms_milli(self) -> (u8, u8, u8, u16)
        ensures hour { result.0 ≡ hour_at (nanosecond_of self) }
        ensures minute { result.1 ≡ minute_at (nanosecond_of self) }
        ensures second { result.2 ≡ second_at (nanosecond_of self) }
        ensures millisecond { result.3 ≡ millisecond_at (nanosecond_of self) }
        ensures bound { (result.0 < 24) × (result.1 < 60) × (result.2 < 60) × (result.3 < 1000) }
    {
        let (hour, minute, second) = self.as_hms();
        (hour, minute, second, self.millisecond())
    }

    /// The hour, the minute, the second and the microsecond.
    #[inline(always)]
    pub fn as_hms_micro(self) -> (u8, u8, u8, u32)
        ensures hour { result.0 ≡ hour_at (nanosecond_of self) }
        ensures minute { result.1 ≡ minute_at (nanosecond_of self) }
        ensures second { result.2 ≡ second_at (nanosecond_of self) }
        ensures microsecond { result.3 ≡ microsecond_at (nanosecond_of self) }
        ensures bound { (result.0 < 24) × (result.1 < 60) × (result.2 < 60)
            × (result.3 < 1_000_000) }
    {
        let (hour, minute, second) = self.as_hms();
        (hour, minute, second, self.microsecond())
    }

    /// The hour, the minute, the second and the nanosecond.
    #[inline(always)]
    pub fn as_hms_nano(self) -> (u8, u8, u8, u32)
        ensures hour { result.0 ≡ hour_at (nanosecond_of self) }
        ensures minute { result.1 ≡ minute_at (nanosecond_of self) }
        ensures second { result.2 ≡ second_at (nanosecond_of self) }
        ensures nanosecond { result.3 ≡ nanosecond_at (nanosecond_of self) }
        ensures bound { (result.0 < 24) × (result.1 < 60) × (result.2 < 60)
            × (result.3 < 1_000_000_000) }
    {
        let (hour, minute, second) = self.as_hms();
        (hour, minute, second, self.nanosecond())
    }

    /// The same time of day on another date.
    #[inline(always)]
    pub fn replace_date(self, date: Date) -> Timestamp
        ensures value { result ≡ wall_clock date (nanosecond_of self) }
        ensures day { day_of result ≡ date }
        ensures time { nanosecond_of result ≡ nanosecond_of self }
    {
        WallClock::replace_date(self, date)
    }

    /// Another time of day on the same date.
    #[inline(always)]
    pub fn replace_time(self, time: Time) -> Timestamp
        ensures { result ≡ wall_clock (day_of self) time }
    {
        WallClock::replace_time(self, time)
    }
}

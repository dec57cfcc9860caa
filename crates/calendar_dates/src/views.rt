//! A day by its year, month, week and day of the week.
ghost use Rattle.std.specs.Prelude.{◌≡◌, ◌+◌, ◌<◌, ◌≤◌, pos, ◌-ℤ◌};
ghost use Rattle.std.specs.Int.{IsInRange};
ghost use Rattle.calendar_count.specs.Range.{greatest_year, julian_zero, IsYear, IsCount};
ghost use Rattle.calendar_count.specs.Calendar.{day_at, ordinal_at, weekday_at, sunday_week_at, monday_week_at, iso_week_at, thursday_of, IsIsoDay, IsDay, ymd};
ghost use Rattle.calendar_count.specs.Closed.{days_before_year};
ghost use Rattle.calendar_count.specs.Month.{month_number};
ghost use Rattle.calendar_count.specs.Weekday.{days_from_monday};

use crate::date::Date;
use calendar_count::range::JULIAN_ZERO;
use calendar_count::{Month, Weekday, closed, march};

impl Date {
    /// The Julian day, -363,521,074 to 366,963,559: that of 1970-01-01 is 2,440,588.
    pub fn to_julian_day(self) -> i32
        ensures value { result ≡ pos self -ℤ pos julian_zero }
        ensures range { IsCount self }
    {
        self.count() as i32 - JULIAN_ZERO
    }

    /// The year, -999999 to 999999.
    pub fn year(self) -> i32
        ensures value { result ≡ (day_at self).year }
        ensures bound { IsYear result }
    {
        self.to_ordinal_date().0
    }

    /// The place in the year, from 1.
    pub fn ordinal(self) -> u16
        ensures value { result ≡ ordinal_at self }
        ensures bound { IsInRange 1 366 result }
    {
        self.to_ordinal_date().1
    }

    /// The month.
    #[inline(always)]
    pub fn month(self) -> Month
        ensures { month_number result ≡ (day_at self).month }
    {
        self.to_calendar_date().1
    }

    /// The day of the month, from 1.
    #[inline(always)]
    pub fn day(self) -> u8
        ensures value { result ≡ (day_at self).day }
        ensures bound { IsInRange 1 31 result }
    {
        self.to_calendar_date().2
    }

    /// The year and the place in it, from 1.
    pub fn to_ordinal_date(self) -> (i32, u16)
        ensures year { result.0 ≡ (day_at self).year }
        ensures ordinal { result.1 ≡ ordinal_at self }
        ensures bound { IsYear result.0 × IsInRange 1 366 result.1 }
    {
        self.place()
    }

    /// The year, the month and the day of the month.
    #[inline(always)]
    pub fn to_calendar_date(self) -> (i32, Month, u8)
        ensures value { day_at self ≡ ymd result.0 (month_number result.1) result.2 }
        ensures valid { IsDay result.0 (month_number result.1) result.2 }
    {
        let (year, month, day) = march::day_of_count(self.count());
        (year, Month::from_number(month), day)
    }

    /// The day of the week.
    pub fn weekday(self) -> Weekday
        ensures { days_from_monday result ≡ weekday_at self }
    {
        Weekday::from_number((self.count() % 7) as u8)
    }

    /// The Mondays of the year up to and including the day, 0 to 53: `%W` of strftime.
    pub fn monday_based_week(self) -> u8
        ensures value { result ≡ monday_week_at self }
        ensures bound { result ≤ 53 }
    {
        let (_, ordinal) = self.place();
        let since_monday = self.count() % 7;
        ((ordinal as u32 + 6 - since_monday) / 7) as u8
    }

    /// The Sundays of the year up to and including the day, 0 to 53: `%U` of strftime.
    pub fn sunday_based_week(self) -> u8
        ensures value { result ≡ sunday_week_at self }
        ensures bound { result ≤ 53 }
    {
        let (_, ordinal) = self.place();
        let since_sunday = (self.count() + 1) % 7;
        ((ordinal as u32 + 6 - since_sunday) / 7) as u8
    }

    // The year and the ordinal of the Thursday of the week, the ordinal from 0.
    fn thursday(self) -> (u32, u16)
        ensures value { days_before_year result.0 + result.1 ≡ thursday_of self }
        ensures within { thursday_of self < days_before_year (result.0 + 1) }
        ensures bound { result.0 ≤ greatest_year + greatest_year }
    {
        let count = self.count();
        closed::split_years(count - count % 7 + 3)
    }

    /// The week of ISO 8601, 1 to 53: weeks begin on Monday and belong to the year of their
    /// Thursday.
    pub fn iso_week(self) -> u8
        ensures value { result ≡ iso_week_at self }
        ensures bound { IsInRange 1 53 result }
    {
        self.to_iso_week_date().1
    }

    /// The year and the week of ISO 8601, and the day of the week. The year is that of the week's Thursday,
    /// which may not be `year`.
    pub fn to_iso_week_date(self) -> (i32, u8, Weekday)
        ensures value { IsIsoDay result.0 result.1 (days_from_monday result.2) self }
        ensures year { IsYear result.0 }
        ensures week { IsInRange 1 53 result.1 }
    {
        let (years, days) = self.thursday();
        (
            closed::year_after(years),
            (days / 7 + 1) as u8,
            self.weekday(),
        )
    }
}

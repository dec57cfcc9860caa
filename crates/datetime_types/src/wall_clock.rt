//! What every date-time shows, and a date-time with one part changed or cut to a unit.
ghost use Rattle.std.specs.Prelude.{◌≡◌, ◌<◌, ◌≤◌, ◌↔◌, IsOk, IfOk, IfErr, ℤ, pos, ◌-ℤ◌, if◌then◌else◌};
ghost use Rattle.std.specs.Int.{IsInRange};
ghost use Rattle.calendar.specs.Range.{julian_zero, IsYear};
ghost use Rattle.calendar.specs.Calendar.{day_at, ordinal_at, weekday_at, sunday_week_at, monday_week_at, iso_week_at, ymd, is_year, days_in_year, IsDay, IsIsoDay};
ghost use Rattle.calendar.specs.Month.{month_number};
ghost use Rattle.calendar.specs.Weekday.{days_from_monday};
ghost use Rattle.calendar.specs.ComponentRange.{out_of_range, out_of_conditional_range};
ghost use Rattle.calendar_count.specs.declared.component_range.ComponentName.TheVariants as component;
ghost use Rattle.calendar.specs.Time.{micro_nanos, milli_nanos, second_nanos, minute_nanos, hour_nanos, day_nanos, hour_at, minute_at, second_at, millisecond_at, microsecond_at, nanosecond_at, time_of, time_of_milli, time_of_micro};
ghost use Rattle.datetime_wall.specs.Wall.{wall_clock, day_of, nanosecond_of, at_time, cut_to, IsWallClock};

use crate::PlainDateTime;
use calendar::{ComponentRange, Date, Month, Time, Weekday};

/// A date and a time of day, as a clock shows them: the views and the changes that all date-times have.
/// An `OffsetDateTime` shows what a clock at its offset shows; a `UtcDateTime` and a `Timestamp` what a
/// clock in UTC shows. A change keeps an offset as it is.
pub trait WallClock: Copy {
    // The wall clock of a value: the nanoseconds since 1970 began on that clock.
    ghost wall_of: { Self → ℤ };

    // A value with another wall clock, and the rest as it is.
    ghost with_wall: { Self → ℤ → Self };

    /// The date and the time of day that it shows.
    fn wall_clock(self) -> PlainDateTime
        ensures value { result ≡ wall_of self }
        ensures range { IsWallClock (wall_of self) };

    /// This value with another date and time of day; what else it has, such as an offset, stays.
    fn with_wall_clock(self, wall: PlainDateTime) -> Self
        ensures value { result ≡ with_wall self wall }
        ensures shown { wall_of result ≡ wall };

    /// The year, -999999 to 999999.
    #[inline(always)]
    final fn year(self) -> i32
        ensures value { result ≡ (day_at (day_of (wall_of self))).year }
        ensures bound { IsYear result }
    {
        self.wall_clock().date().year()
    }

    /// The month.
    #[inline(always)]
    final fn month(self) -> Month
        ensures value { month_number result ≡ (day_at (day_of (wall_of self))).month }
    {
        self.wall_clock().date().month()
    }

    /// The day of the month, from 1.
    #[inline(always)]
    final fn day(self) -> u8
        ensures value { result ≡ (day_at (day_of (wall_of self))).day }
        ensures bound { IsInRange 1 31 result }
    {
        self.wall_clock().date().day()
    }

    /// The place in the year, from 1.
    #[inline(always)]
    final fn ordinal(self) -> u16
        ensures value { result ≡ ordinal_at (day_of (wall_of self)) }
        ensures bound { IsInRange 1 366 result }
    {
        self.wall_clock().date().ordinal()
    }

    /// The week of ISO 8601, 1 to 53.
    #[inline(always)]
    final fn iso_week(self) -> u8
        ensures value { result ≡ iso_week_at (day_of (wall_of self)) }
        ensures bound { IsInRange 1 53 result }
    {
        self.wall_clock().date().iso_week()
    }

    /// The Sundays of the year up to and including the day, 0 to 53.
    #[inline(always)]
    final fn sunday_based_week(self) -> u8
        ensures value { result ≡ sunday_week_at (day_of (wall_of self)) }
        ensures bound { result ≤ 53 }
    {
        self.wall_clock().date().sunday_based_week()
    }

    /// The Mondays of the year up to and including the day, 0 to 53.
    #[inline(always)]
    final fn monday_based_week(self) -> u8
        ensures value { result ≡ monday_week_at (day_of (wall_of self)) }
        ensures bound { result ≤ 53 }
    {
        self.wall_clock().date().monday_based_week()
    }

    /// The day of the week.
    #[inline(always)]
    final fn weekday(self) -> Weekday
        ensures value { days_from_monday result ≡ weekday_at (day_of (wall_of self)) }
    {
        self.wall_clock().date().weekday()
    }

    /// The year, the month and the day of the month.
    #[inline(always)]
    final fn to_calendar_date(self) -> (i32, Month, u8)
        ensures value { day_at (day_of (wall_of self)) ≡ ymd result.0 (month_number result.1) result.2 }
        ensures valid { IsDay result.0 (month_number result.1) result.2 }
    {
        self.wall_clock().date().to_calendar_date()
    }

    /// The year and the place in it, from 1.
    #[inline(always)]
    final fn to_ordinal_date(self) -> (i32, u16)
        ensures year { result.0 ≡ (day_at (day_of (wall_of self))).year }
        ensures ordinal { result.1 ≡ ordinal_at (day_of (wall_of self)) }
        ensures bound { IsYear result.0 × IsInRange 1 366 result.1 }
    {
        self.wall_clock().date().to_ordinal_date()
    }

    /// The year and the week of ISO 8601, and the day of the week. The year is that of the week's Thursday,
    /// which may not be `year`.
    #[inline(always)]
    final fn to_iso_week_date(self) -> (i32, u8, Weekday)
        ensures value { IsIsoDay result.0 result.1 (days_from_monday result.2) (day_of (wall_of self)) }
        ensures year { IsYear result.0 }
        ensures week { IsInRange 1 53 result.1 }
    {
        self.wall_clock().date().to_iso_week_date()
    }

    /// The Julian day of the date, which is 2,440,588 for all of 1970-01-01.
    #[inline(always)]
    final fn to_julian_day(self) -> i32
        ensures value { result ≡ pos (day_of (wall_of self)) -ℤ pos julian_zero }
    {
        self.wall_clock().date().to_julian_day()
    }

    /// The hour, below 24.
    #[inline(always)]
    final fn hour(self) -> u8
        ensures value { result ≡ hour_at (nanosecond_of (wall_of self)) }
        ensures bound { result < 24 }
    {
        self.wall_clock().time().hour()
    }

    /// The minute of the hour, below 60.
    #[inline(always)]
    final fn minute(self) -> u8
        ensures value { result ≡ minute_at (nanosecond_of (wall_of self)) }
        ensures bound { result < 60 }
    {
        self.wall_clock().time().minute()
    }

    /// The second of the minute, below 60.
    #[inline(always)]
    final fn second(self) -> u8
        ensures value { result ≡ second_at (nanosecond_of (wall_of self)) }
        ensures bound { result < 60 }
    {
        self.wall_clock().time().second()
    }

    /// The whole milliseconds of the second, below 1000.
    #[inline(always)]
    final fn millisecond(self) -> u16
        ensures value { result ≡ millisecond_at (nanosecond_of (wall_of self)) }
        ensures bound { result < 1000 }
    {
        self.wall_clock().time().millisecond()
    }

    /// The whole microseconds of the second, below 1,000,000.
    #[inline(always)]
    final fn microsecond(self) -> u32
        ensures value { result ≡ microsecond_at (nanosecond_of (wall_of self)) }
        ensures bound { result < 1_000_000 }
    {
        self.wall_clock().time().microsecond()
    }

    /// The nanoseconds of the second, below 1,000,000,000.
    #[inline(always)]
    final fn nanosecond(self) -> u32
        ensures value { result ≡ nanosecond_at (nanosecond_of (wall_of self)) }
        ensures bound { result < 1_000_000_000 }
    {
        self.wall_clock().time().nanosecond()
    }

    /// The hour, the minute and the second.
    #[inline(always)]
    final fn as_hms(self) -> (u8, u8, u8)
        ensures hour { result.0 ≡ hour_at (nanosecond_of (wall_of self)) }
        ensures minute { result.1 ≡ minute_at (nanosecond_of (wall_of self)) }
        ensures second { result.2 ≡ second_at (nanosecond_of (wall_of self)) }
        ensures bound { (result.0 < 24) × (result.1 < 60) × (result.2 < 60) }
    {
        self.wall_clock().time().as_hms()
    }

    /// The hour, the minute, the second and the millisecond.
    #[inline(always)]
    final fn as_hms_milli(self) -> (u8, u8, u8, u16)
        ensures hour { result.0 ≡ hour_at (nanosecond_of (wall_of self)) }
        ensures minute { result.1 ≡ minute_at (nanosecond_of (wall_of self)) }
        ensures second { result.2 ≡ second_at (nanosecond_of (wall_of self)) }
        ensures millisecond { result.3 ≡ millisecond_at (nanosecond_of (wall_of self)) }
        ensures bound { (result.0 < 24) × (result.1 < 60) × (result.2 < 60) × (result.3 < 1000) }
    {
        self.wall_clock().time().as_hms_milli()
    }

    /// The hour, the minute, the second and the microsecond.
    #[inline(always)]
    final fn as_hms_micro(self) -> (u8, u8, u8, u32)
        ensures hour { result.0 ≡ hour_at (nanosecond_of (wall_of self)) }
        ensures minute { result.1 ≡ minute_at (nanosecond_of (wall_of self)) }
        ensures second { result.2 ≡ second_at (nanosecond_of (wall_of self)) }
        ensures microsecond { result.3 ≡ microsecond_at (nanosecond_of (wall_of self)) }
        ensures bound { (result.0 < 24) × (result.1 < 60) × (result.2 < 60)
            × (result.3 < 1_000_000) }
    {
        self.wall_clock().time().as_hms_micro()
    }

    /// The hour, the minute, the second and the nanosecond.
    #[inline(always)]
    final fn as_hms_nano(self) -> (u8, u8, u8, u32)
        ensures hour { result.0 ≡ hour_at (nanosecond_of (wall_of self)) }
        ensures minute { result.1 ≡ minute_at (nanosecond_of (wall_of self)) }
        ensures second { result.2 ≡ second_at (nanosecond_of (wall_of self)) }
        ensures nanosecond { result.3 ≡ nanosecond_at (nanosecond_of (wall_of self)) }
        ensures bound { (result.0 < 24) × (result.1 < 60) × (result.2 < 60)
            × (result.3 < 1_000_000_000) }
    {
        self.wall_clock().time().as_hms_nano()
    }

    /// The same time of day on another date.
    #[inline(always)]
    final fn replace_date(self, date: Date) -> Self
        ensures value { result ≡ with_wall self (wall_clock date (nanosecond_of (wall_of self))) }
        ensures same { result ≡ with_wall self (wall_of result) }
        ensures day { day_of (wall_of result) ≡ date }
        ensures time { nanosecond_of (wall_of result) ≡ nanosecond_of (wall_of self) }
    {
        self.with_wall_clock(PlainDateTime::new(date, self.wall_clock().time()))
    }

    /// Another time of day on the same date.
    #[inline(always)]
    final fn replace_time(self, time: Time) -> Self
        ensures value { result ≡ with_wall self (wall_clock (day_of (wall_of self)) time) }
    {
        self.with_wall_clock(PlainDateTime::new(self.wall_clock().date(), time))
    }

    /// The same month, day of the month and time of another year.
    ///
    /// A year beyond ±999999 is refused as `year`, and else 29 February, where the year does not have it, as
    /// `day`.
    final fn replace_year(self, year: i32) -> Result<Self, ComponentRange>
        ensures succeeds { IsOk result
            ↔ IsDay year (day_at (day_of (wall_of self))).month (day_at (day_of (wall_of self))).day }
        ensures value { IfOk result
            (λ m. day_at (day_of (wall_of m))
            ≡ ymd year (day_at (day_of (wall_of self))).month (day_at (day_of (wall_of self))).day) }
        ensures kept { IfOk result (λ m. nanosecond_of (wall_of m) ≡ nanosecond_of (wall_of self)) }
        ensures same { IfOk result (λ m. m ≡ with_wall self (wall_of m)) }
        ensures err { IfErr result
            (λ e. e ≡ (if is_year year then out_of_conditional_range component.Day
            else out_of_range component.Year)) }
    {
        Ok(self.replace_date(self.wall_clock().date().replace_year(year)?))
    }

    /// The same day of the month and time in another month of the year, refused where that month does
    /// not have it, as `day`.
    final fn replace_month(self, month: Month) -> Result<Self, ComponentRange>
        ensures succeeds { IsOk result
            ↔ IsDay (day_at (day_of (wall_of self))).year (month_number month) (day_at (day_of (wall_of self))).day }
        ensures value { IfOk result
            (λ m. day_at (day_of (wall_of m))
            ≡ ymd (day_at (day_of (wall_of self))).year (month_number month) (day_at (day_of (wall_of self))).day) }
        ensures kept { IfOk result (λ m. nanosecond_of (wall_of m) ≡ nanosecond_of (wall_of self)) }
        ensures same { IfOk result (λ m. m ≡ with_wall self (wall_of m)) }
        ensures err { IfErr result (λ e. e ≡ out_of_conditional_range component.Day) }
    {
        Ok(self.replace_date(self.wall_clock().date().replace_month(month)?))
    }

    /// The same time on another day of the month, from 1, refused where the month does not have it.
    final fn replace_day(self, day: u8) -> Result<Self, ComponentRange>
        ensures succeeds { IsOk result
            ↔ IsDay (day_at (day_of (wall_of self))).year (day_at (day_of (wall_of self))).month day }
        ensures value { IfOk result
            (λ m. day_at (day_of (wall_of m))
            ≡ ymd (day_at (day_of (wall_of self))).year (day_at (day_of (wall_of self))).month day) }
        ensures kept { IfOk result (λ m. nanosecond_of (wall_of m) ≡ nanosecond_of (wall_of self)) }
        ensures same { IfOk result (λ m. m ≡ with_wall self (wall_of m)) }
        ensures err { IfErr result (λ e. e ≡ out_of_conditional_range component.Day) }
    {
        Ok(self.replace_date(self.wall_clock().date().replace_day(day)?))
    }

    /// The same time on the day with this place in the year, from 1, refused where the year does not
    /// have it.
    final fn replace_ordinal(self, ordinal: u16) -> Result<Self, ComponentRange>
        ensures succeeds { IsOk result
            ↔ IsInRange 1 (days_in_year (day_at (day_of (wall_of self))).year) ordinal }
        ensures value { IfOk result (λ m. ((day_at (day_of (wall_of m))).year ≡ (day_at (day_of (wall_of self))).year)
            × (ordinal_at (day_of (wall_of m)) ≡ ordinal)) }
        ensures kept { IfOk result (λ m. nanosecond_of (wall_of m) ≡ nanosecond_of (wall_of self)) }
        ensures same { IfOk result (λ m. m ≡ with_wall self (wall_of m)) }
        ensures err { IfErr result (λ e. e ≡ out_of_conditional_range component.Ordinal) }
    {
        Ok(self.replace_date(self.wall_clock().date().replace_ordinal(ordinal)?))
    }

    /// The same date at another hour, refused from 24 on.
    final fn replace_hour(self, hour: u8) -> Result<Self, ComponentRange>
        ensures { result ≡ at_time (λ t. with_wall self (wall_clock (day_of (wall_of self)) t))
            (time_of hour (minute_at (nanosecond_of (wall_of self))) (second_at (nanosecond_of (wall_of self)))
            (nanosecond_at (nanosecond_of (wall_of self)))) }
    {
        Ok(self.replace_time(self.wall_clock().time().replace_hour(hour)?))
    }

    /// The same date at another minute of the hour, refused from 60 on.
    final fn replace_minute(self, minute: u8) -> Result<Self, ComponentRange>
        ensures { result ≡ at_time (λ t. with_wall self (wall_clock (day_of (wall_of self)) t))
            (time_of (hour_at (nanosecond_of (wall_of self))) minute (second_at (nanosecond_of (wall_of self)))
            (nanosecond_at (nanosecond_of (wall_of self)))) }
    {
        Ok(self.replace_time(self.wall_clock().time().replace_minute(minute)?))
    }

    /// The same date at another second of the minute, refused from 60 on.
    final fn replace_second(self, second: u8) -> Result<Self, ComponentRange>
        ensures { result ≡ at_time (λ t. with_wall self (wall_clock (day_of (wall_of self)) t))
            (time_of (hour_at (nanosecond_of (wall_of self))) (minute_at (nanosecond_of (wall_of self))) second
            (nanosecond_at (nanosecond_of (wall_of self)))) }
    {
        Ok(self.replace_time(self.wall_clock().time().replace_second(second)?))
    }

    /// The same date at so many whole milliseconds past the second, refused from 1000 on.
    final fn replace_millisecond(self, millisecond: u16) -> Result<Self, ComponentRange>
        ensures { result ≡ at_time (λ t. with_wall self (wall_clock (day_of (wall_of self)) t))
            (time_of_milli (hour_at (nanosecond_of (wall_of self))) (minute_at (nanosecond_of (wall_of self)))
            (second_at (nanosecond_of (wall_of self))) millisecond) }
    {
        Ok(self.replace_time(self.wall_clock().time().replace_millisecond(millisecond)?))
    }

    /// The same date at so many whole microseconds past the second, refused from 1,000,000 on.
    final fn replace_microsecond(self, microsecond: u32) -> Result<Self, ComponentRange>
        ensures { result ≡ at_time (λ t. with_wall self (wall_clock (day_of (wall_of self)) t))
            (time_of_micro (hour_at (nanosecond_of (wall_of self))) (minute_at (nanosecond_of (wall_of self)))
            (second_at (nanosecond_of (wall_of self))) microsecond) }
    {
        Ok(self.replace_time(self.wall_clock().time().replace_microsecond(microsecond)?))
    }

    /// The same date at so many nanoseconds past the second, refused from 1,000,000,000 on.
    final fn replace_nanosecond(self, nanosecond: u32) -> Result<Self, ComponentRange>
        ensures { result ≡ at_time (λ t. with_wall self (wall_clock (day_of (wall_of self)) t))
            (time_of (hour_at (nanosecond_of (wall_of self))) (minute_at (nanosecond_of (wall_of self)))
            (second_at (nanosecond_of (wall_of self))) nanosecond) }
    {
        Ok(self.replace_time(self.wall_clock().time().replace_nanosecond(nanosecond)?))
    }

    /// The moment at which its day began on the clock.
    #[inline(always)]
    final fn truncate_to_day(self) -> Self
        ensures { result ≡ with_wall self (cut_to day_nanos (wall_of self)) }
    {
        self.with_wall_clock(PlainDateTime::new(self.wall_clock().date(), Time::MIDNIGHT))
    }

    /// The moment at which its hour began on the clock.
    #[inline(always)]
    final fn truncate_to_hour(self) -> Self
        ensures { result ≡ with_wall self (cut_to hour_nanos (wall_of self)) }
    {
        self.replace_time(self.wall_clock().time().truncate_to_hour())
    }

    /// The moment at which its minute began on the clock.
    #[inline(always)]
    final fn truncate_to_minute(self) -> Self
        ensures { result ≡ with_wall self (cut_to minute_nanos (wall_of self)) }
    {
        self.replace_time(self.wall_clock().time().truncate_to_minute())
    }

    /// The moment at which its second began on the clock.
    #[inline(always)]
    final fn truncate_to_second(self) -> Self
        ensures { result ≡ with_wall self (cut_to second_nanos (wall_of self)) }
    {
        self.replace_time(self.wall_clock().time().truncate_to_second())
    }

    /// The moment at which its millisecond began on the clock.
    #[inline(always)]
    final fn truncate_to_millisecond(self) -> Self
        ensures { result ≡ with_wall self (cut_to milli_nanos (wall_of self)) }
    {
        self.replace_time(self.wall_clock().time().truncate_to_millisecond())
    }

    /// The moment at which its microsecond began on the clock.
    #[inline(always)]
    final fn truncate_to_microsecond(self) -> Self
        ensures { result ≡ with_wall self (cut_to micro_nanos (wall_of self)) }
    {
        self.replace_time(self.wall_clock().time().truncate_to_microsecond())
    }
}

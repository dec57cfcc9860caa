//! Dates.
ghost use Rattle.std.specs.Prelude.{◌≡◌, ◌↔◌, ◌+◌, ◌<◌, pos, ◌+ℤ◌, IsOk, IfOk, IfErr, IsSome, IfSome, OnErr, ℕ, if◌then◌else◌};
ghost use Rattle.std.specs.Int.{IsInRange};
ghost use Rattle.std.specs.Result.{result_ok};
ghost use Rattle.calendar_count.specs.Range.{last_count, julian_zero, IsYear, IsCount};
ghost use Rattle.calendar_count.specs.Calendar.{day_at, ordinal_at, IsIsoDay, is_year, days_in_year, IsDay, ymd, IsJulianDay};
ghost use Rattle.calendar_count.specs.TheDay.{the_day, is_day_of};
ghost use Rattle.calendar_count.specs.Place.{IsPlace, place_count};
ghost use Rattle.calendar_count.specs.Month.{month_number};
ghost use Rattle.calendar_count.specs.Weekday.{days_from_monday};
ghost use Rattle.calendar_count.specs.ComponentRange.{out_of_range, out_of_conditional_range};
ghost use Rattle.calendar_count.specs.declared.component_range.ComponentName.TheVariants as component;

use calendar_count::range::{self, JULIAN_ZERO, LAST_COUNT};
use calendar_count::{ComponentName, ComponentRange, Month, Weekday, closed, march, util};
use std::marker::Model;

/// A day of the proleptic Gregorian calendar, as ISO 8601 counts its years: from -999999 to 999999,
/// with a year 0.
///
/// It is printed as `2024-06-19`, and with a sign before a year that is not 0 to 9999: `-0044-03-15`,
/// `+10000-01-01`.
///
/// A contract sees it as its count: the days from the first day to it.
#[derive(Clone, Copy)]
pub struct Date {
    count: u32,
}

impl Model for Date {
    ghost use Rattle.std.specs.Prelude.{ℕ};
    ghost use Rattle.calendar_count.specs.Range.{IsCount};

    ghost Value = { ℕ };

    ghost view = { λ s. s.count };

    ghost invariant = { λ s. IsCount s.count };

    ghost inverse = { λ n. record { count = n } };
}

impl Date {
    /// The first day, -999999-01-01.
    pub const MIN: Date = Date { count: 0 };

    /// The last day, 999999-12-31.
    pub const MAX: Date = Date { count: LAST_COUNT };

    /// 1970-01-01.
    pub const UNIX_EPOCH: Date = Date {
        count: range::UNIX_EPOCH,
    };

    // What the count says of the year and the ordinal.
    pub(crate) fn place(self) -> (i32, u16)
        ensures year { result.0 ≡ (day_at self).year }
        ensures ordinal { result.1 ≡ ordinal_at self }
        ensures count { place_count result.0 result.1 ≡ self }
        ensures valid { IsPlace result.0 result.1 }
    {
        let (years, days) = closed::split_years(self.count);
        (closed::year_after(years), days + 1)
    }

    #[tactic(auto, unfolding(calendar_count::specs::Place::place_count))]
    fn at_place(year: i32, ordinal: u16) -> Date
        requires { IsPlace year ordinal }
        ensures { result ≡ place_count year ordinal }
    {
        Date::from_count(closed::before_year(closed::years_since(year)) + ordinal as u32 - 1)
    }

    /// The days from the first day to this one, 0 to 730,484,633.
    #[inline(always)]
    pub fn count(self) -> u32
        ensures value { result ≡ self }
        ensures bound { IsCount result }
    {
        self.count
    }

    /// The day so many days after the first one, 0 to 730,484,633.
    #[inline(always)]
    pub fn from_count(count: u32) -> Date
        requires { IsCount count }
        ensures value { result ≡ count }
        ensures bound { IsCount result }
    {
        Date { count }
    }

    /// The day with this year, month and day of the month.
    ///
    /// A year beyond ±999999 is refused as `year`, and else a day that the month does not have as `day`.
    #[inline(always)]
    pub fn from_calendar_date(year: i32, month: Month, day: u8) -> Result<Date, ComponentRange>
        ensures succeeds { IsOk result ↔ IsDay year (month_number month) day }
        ensures value { IfOk result (λ d. day_at d ≡ ymd year (month_number month) day) }
        ensures named { result_ok result ≡ the_day (is_day_of year (month_number month) day) }
        ensures bound { IfOk result IsCount }
        ensures err { IfErr result (λ e. e
            ≡ (if is_year year then out_of_conditional_range component.Day
            else out_of_range component.Year)) }
    {
        if !closed::has_year(year) {
            return Err(ComponentRange::unconditional(ComponentName::Year));
        }
        let number = month.number();
        if !closed::has_day(year, number, day) {
            return Err(ComponentRange::conditional(ComponentName::Day));
        }
        Ok(Date::from_count(march::count_of_day(year, number, day)))
    }

    /// The day with this place in the year, from 1.
    ///
    /// A year beyond ±999999 is refused as `year`, and else a place that the year does not have as `ordinal`.
    pub fn from_ordinal_date(year: i32, ordinal: u16) -> Result<Date, ComponentRange>
        ensures succeeds { IsOk result
            ↔ (IsYear year × IsInRange 1 (days_in_year year) ordinal) }
        ensures value { IfOk result (λ d. ((day_at d).year ≡ year) × (ordinal_at d ≡ ordinal)) }
        ensures bound { IfOk result IsCount }
        ensures err { IfErr result (λ e. e
            ≡ (if is_year year then out_of_conditional_range component.Ordinal
            else out_of_range component.Year)) }
    {
        if !closed::has_year(year) {
            return Err(ComponentRange::unconditional(ComponentName::Year));
        }
        if !closed::has_ordinal(year, ordinal) {
            return Err(ComponentRange::conditional(ComponentName::Ordinal));
        }
        Ok(Date::at_place(year, ordinal))
    }

    /// The day with this Julian day, refused beyond the first and the last day as `julian_day`. 1970-01-01 is
    /// Julian day 2,440,588.
    pub fn from_julian_day(julian_day: i32) -> Result<Date, ComponentRange>
        ensures succeeds { IsOk result ↔ IsJulianDay julian_day }
        ensures value { IfOk result (λ d. pos d ≡ julian_day +ℤ pos julian_zero) }
        ensures bound { IfOk result IsCount }
        ensures err { IfErr result (λ e. e ≡ out_of_range component.JulianDay) }
    {
        if julian_day < -JULIAN_ZERO || julian_day > LAST_COUNT as i32 - JULIAN_ZERO {
            return Err(ComponentRange::unconditional(ComponentName::JulianDay));
        }
        Ok(Date::from_count((julian_day + JULIAN_ZERO) as u32))
    }

    /// The day with this year and week of ISO 8601 and this day of the week.
    ///
    /// A year beyond ±999999 is refused as `year`, and else a week that the year does not have, or a day of
    /// it after the calendar's last, as `week`.
    pub fn from_iso_week_date(year: i32, week: u8, weekday: Weekday) -> Result<Date, ComponentRange>
        ensures value { IfOk result (IsIsoDay year week (days_from_monday weekday)) }
        ensures bound { IfOk result IsCount }
        ensures none { OnErr result ((n : ℕ) → IsCount n
            → ¬ IsIsoDay year week (days_from_monday weekday) n) }
        ensures err { IfErr result (λ e. e
            ≡ (if is_year year then out_of_conditional_range component.Week
            else out_of_range component.Year)) }
    {
        if !closed::has_year(year) {
            return Err(ComponentRange::unconditional(ComponentName::Year));
        }
        let start = closed::before_year(closed::years_since(year));
        let thursday = start + (10 - start % 7) % 7 + 7 * week as u32;
        let end = start + util::days_in_year(year) as u32 + 7;
        if week == 0 || thursday >= end {
            return Err(ComponentRange::conditional(ComponentName::Week));
        }
        let count = thursday - 10 + weekday.number_days_from_monday() as u32;
        if count > LAST_COUNT {
            return Err(ComponentRange::conditional(ComponentName::Week));
        }
        Ok(Date::from_count(count))
    }

    /// The next day, or `None` after the last one.
    pub fn next_day(self) -> Option<Date>
        ensures some { IsSome result ↔ (self < last_count) }
        ensures value { IfSome result (λ d. d ≡ self + 1) }
    {
        if self == Date::MAX {
            return None;
        }
        Some(Date::from_count(self.count() + 1))
    }

    /// The previous day, or `None` before the first one.
    pub fn previous_day(self) -> Option<Date>
        ensures some { IsSome result ↔ (0 < self) }
        ensures value { IfSome result (λ d. d + 1 ≡ self) }
    {
        if self == Date::MIN {
            return None;
        }
        Some(Date::from_count(self.count() - 1))
    }
}

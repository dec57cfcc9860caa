//! Lengths of months and years, for any year: the calendar is the proleptic Gregorian one.
ghost use Rattle.std.specs.Prelude.{◌≡◌};
ghost use Rattle.std.specs.Int.{IsInRange};
ghost use Rattle.calendar_count.specs.Range.{IsYear};
ghost use Rattle.calendar_count.specs.Calendar.{is_leap_year, days_in_year, days_in_month, weeks_in_year, thursdays_of};
ghost use Rattle.calendar_count.specs.Month.{month_number};

use crate::{Month, closed};

/// Whether the year has 29 February: every fourth has, but of the centuries only every fourth.
#[inline(always)]
pub fn is_leap_year(year: i32) -> bool
    ensures { result ≡ is_leap_year year }
{
    let y = year.unsigned_abs();
    y % 4 == 0 && (y % 100 != 0 || y % 400 == 0)
}

/// The days of a year, 365 or 366.
#[inline(always)]
pub fn days_in_year(year: i32) -> u16
    ensures { result ≡ days_in_year year }
{
    if is_leap_year(year) { 366 } else { 365 }
}

/// The days of a month, 28 to 31.
pub fn days_in_month(month: Month, year: i32) -> u8
    ensures { result ≡ days_in_month year (month_number month) }
{
    closed::month_length(year, month.number())
}

/// The days of a month, 28 to 31: `days_in_month` with its arguments the other way round.
pub fn days_in_year_month(year: i32, month: Month) -> u8
    ensures { result ≡ days_in_month year (month_number month) }
{
    days_in_month(month, year)
}

/// The weeks of ISO 8601 of a year, 52 or 53.
pub fn weeks_in_year(year: i32) -> u8
    ensures value { result ≡ weeks_in_year year }
    ensures thursdays { IsYear year → result ≡ thursdays_of year }
    ensures bound { IsInRange 52 53 result }
{
    closed::weeks_in_year(year)
}

//! Years, months and days by division.
ghost use Rattle.std.specs.Prelude.{◌≡◌, ◌+◌, ◌<◌, ◌≤◌, pos, ◌+ℤ◌, ◌↔◌, IsTrue};
ghost use Rattle.std.specs.Int.{IsInRange, int_rem_euclid};
ghost use Rattle.calendar_count.specs.Range.{greatest_year, IsYear};
ghost use Rattle.calendar_count.specs.Calendar.{days_in_year, days_in_month, day_at, weeks_in_year, thursdays_of, has_four_digits};
ghost use Rattle.calendar_count.specs.Closed.{days_before_year};

use crate::range::{GREATEST_YEAR, YEAR_TEN_THOUSAND, YEAR_ZERO};
use crate::util;

/// The years from -999999 to this one.
#[inline(always)]
pub fn years_since(year: i32) -> u32
    requires { IsYear year }
    ensures value { year +ℤ pos greatest_year ≡ pos result }
    ensures bound { result ≤ greatest_year + greatest_year }
{
    (year + GREATEST_YEAR) as u32
}

/// The year so many years after -999999.
#[inline(always)]
pub fn year_after(years: u32) -> i32
    requires { years ≤ greatest_year + greatest_year }
    ensures value { result +ℤ pos greatest_year ≡ pos years }
    ensures bound { IsYear result }
{
    years as i32 - GREATEST_YEAR
}

/// The days of the first so many years, from -999999 on.
#[inline(always)]
pub fn before_year(years: u32) -> u32
    requires { years ≤ greatest_year + greatest_year + 1 }
    ensures { result ≡ days_before_year years }
{
    365 * years + years / 4 - years / 100 + years / 400
}

/// The whole years in so many days from the first one on, and the days after them, from 0.
#[inline(always)]
pub fn split_years(count: u32) -> (u32, u16)
    requires { count < 1_000_000_000 }
    ensures value { days_before_year result.0 + result.1 ≡ count }
    ensures within { count < days_before_year (result.0 + 1) }
{
    let scaled = 4 * count + 3;
    let century = scaled / 146_097;
    let in_century = scaled % 146_097 / 4 * 4 + 3;
    (
        100 * century + in_century / 1461,
        (in_century % 1461 / 4) as u16,
    )
}

/// Whether the calendar has the year: from -999999 to 999999.
#[inline(always)]
pub fn has_year(year: i32) -> bool
    ensures { IsTrue result ↔ IsYear year }
{
    -GREATEST_YEAR <= year && year <= GREATEST_YEAR
}

/// Whether four digits write the year of the day with this count: it is 0 to 9999.
#[inline(always)]
#[tactic(auto, using(crate::proofs::FourDigits::four_digit_years))]
pub fn has_four_digit_year(count: u32) -> bool
    ensures { result ≡ has_four_digits (day_at count).year }
{
    YEAR_ZERO <= count && count < YEAR_TEN_THOUSAND
}

/// The days of a month by its number, 1 for January: 28 to 31. A number that is no month's has 31.
#[inline(always)]
pub fn month_length(year: i32, month: u8) -> u8
    ensures { result ≡ days_in_month year month }
{
    match month {
        2 => { if util::is_leap_year(year) { 29 } else { 28 } }
        4 | 6 | 9 | 11 => 30,
        _ => 31,
    }
}

/// Whether the month, by its number from 1, has the day, counted from 1.
#[inline(always)]
pub fn has_day(year: i32, month: u8, day: u8) -> bool
    ensures { IsTrue result ↔ IsInRange 1 (days_in_month year month) day }
{
    if day <= 28 {
        1 <= day
    } else {
        day <= month_length(year, month)
    }
}

/// Whether the year has a day in this place, counted from 1.
#[inline(always)]
pub fn has_ordinal(year: i32, ordinal: u16) -> bool
    ensures { IsTrue result ↔ IsInRange 1 (days_in_year year) ordinal }
{
    if ordinal <= 365 {
        1 <= ordinal
    } else {
        ordinal <= util::days_in_year(year)
    }
}

// The place of a year in the 400 years from the first one on.
fn cycle_place(year: i32) -> u32
    ensures value { int_rem_euclid (year +ℤ pos greatest_year) (pos 400) ≡ pos result }
    ensures bound { result < 400 }
{
    (year.rem_euclid(400) + GREATEST_YEAR) as u32 % 400
}

/// The weeks of ISO 8601 of any year, 52 or 53: its Thursdays.
pub fn weeks_in_year(year: i32) -> u8
    ensures value { result ≡ weeks_in_year year }
    ensures thursdays { IsYear year → result ≡ thursdays_of year }
    ensures bound { IsInRange 52 53 result }
{
    let years = cycle_place(year);
    let start = before_year(years);
    let end = before_year(years + 1);
    ((end + 3) / 7 - (start + 3) / 7) as u8
}

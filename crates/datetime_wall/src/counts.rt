//! The calendar of a count of days from the first one, -999999-01-01, on.
ghost use Rattle.std.specs.Prelude.{◌≡◌, ◌+◌, ◌<◌, ◌≤◌};
ghost use Rattle.std.specs.Int.{IsInRange};
ghost use Rattle.calendar_count.specs.Range.{last_count, IsCount, IsYear};
ghost use Rattle.calendar_count.specs.Calendar.{day_at, ordinal_at, weekday_at, iso_year_at, iso_week_at, sunday_week_at, monday_week_at, ymd, IsDay};
ghost use Rattle.calendar_count.specs.Closed.{days_before_year};

use crate::quotients;
use calendar_count::closed;
use calendar_count::range::GREATEST_YEAR;

// The days from 1 March of the year before the first to the first day.
const MARCH_TO_JANUARY: u64 = 306;

// The year whose March is the first one.
const MARCH_YEAR: i32 = GREATEST_YEAR + 1;

// The years whose days have passed, and the days after them. With the days that centuries lack put
// back, every fourth year has a leap day.
#[inline(always)]
fn split_years(days: u64) -> (u64, u64)
    requires { days ≤ last_count + 306 }
    ensures value { days_before_year result.0 + result.1 ≡ days }
    ensures within { days < days_before_year (result.0 + 1) }
{
    let centuries = quotients::centuries(days);
    let even = days + centuries - (centuries >> 2);
    let (years, rest) = quotients::four_years(4 * even + 3);
    (years, rest >> 2)
}

/// The year, the month and the day of the month, both from 1, of the day with this count.
#[inline(always)]
pub fn day_of_count(count: u64) -> (i32, u8, u8)
    requires { IsCount count }
    ensures value { day_at count ≡ ymd result.0 result.1 result.2 }
    ensures valid { IsDay result.0 result.1 result.2 }
{
    let (years, days) = split_years(count + MARCH_TO_JANUARY);
    let (month, day) = quotients::month_from_march(days);
    if month <= 12 {
        (years as i32 - MARCH_YEAR, month as u8, (day + 1) as u8)
    } else {
        (
            years as i32 - GREATEST_YEAR,
            (month - 12) as u8,
            (day + 1) as u8,
        )
    }
}

/// The year, and the place in it from 1, of the day with this count.
#[inline(always)]
pub fn place_of_count(count: u64) -> (i32, u16)
    requires { IsCount count }
    ensures year { result.0 ≡ (day_at count).year }
    ensures ordinal { result.1 ≡ ordinal_at count }
    ensures bound { IsYear result.0 × IsInRange 1 366 result.1 }
{
    let (years, days) = split_years(count);
    (closed::year_after(years as u32), (days + 1) as u16)
}

/// The days after the last Monday, 0 to 6.
#[inline(always)]
pub fn weekday_of_count(count: u64) -> u8
    requires { IsCount count }
    ensures value { result ≡ weekday_at count }
    ensures bound { result < 7 }
{
    quotients::day_of_week(count) as u8
}

/// The year and the week of ISO 8601, 1 to 53, which are those of the week's Thursday.
#[inline(always)]
pub fn iso_week_of_count(count: u64) -> (i32, u8)
    requires { IsCount count }
    ensures year { result.0 ≡ iso_year_at count }
    ensures week { result.1 ≡ iso_week_at count }
    ensures bound { IsYear result.0 × IsInRange 1 53 result.1 }
{
    let (years, days) = split_years(count - quotients::day_of_week(count) + 3);
    let week = quotients::weeks_of_year(days) + 1;
    (closed::year_after(years as u32), week as u8)
}

/// The Sundays of the year up to and including the day, 0 to 53.
#[inline(always)]
pub fn sunday_week_of_count(count: u64) -> u8
    requires { IsCount count }
    ensures value { result ≡ sunday_week_at count }
    ensures bound { result ≤ 53 }
{
    let (_, days) = split_years(count);
    quotients::weeks_of_year(days + 7 - quotients::day_of_week(count + 1)) as u8
}

/// The Mondays of the year up to and including the day, 0 to 53.
#[inline(always)]
pub fn monday_week_of_count(count: u64) -> u8
    requires { IsCount count }
    ensures value { result ≡ monday_week_at count }
    ensures bound { result ≤ 53 }
{
    let (_, days) = split_years(count);
    quotients::weeks_of_year(days + 7 - quotients::day_of_week(count)) as u8
}

//! The day that a year names with what it says of the days in it.
ghost use Rattle.std.specs.Prelude.{◌≡◌, ◌<◌, ◌+◌, ◌-◌, ◌%◌};
ghost use Rattle.calendar_count.specs.Weekday.{days_from_monday};
ghost use Rattle.parsing_values.specs.NamedDay.{ordinal_date_of, iso_week_date_of, calendar_date_of, week_date_of, monday_week_date_of, sunday_week_date_of};
ghost use Rattle.calendar_count.specs.Month.{month_number};

use calendar::{ComponentName, ComponentRange, Date, Month, Weekday};
use calendar_count::{closed, util};

/// The day of the year with this place in it, from 1. A year out of range is refused first.
pub fn ordinal_date(year: i32, ordinal: u16) -> Result<Date, ComponentRange>
    ensures { result ≡ ordinal_date_of year ordinal }
{
    Date::from_ordinal_date(year, ordinal)
}

/// The day of the month of the year. A year out of range is refused first.
#[tactic(auto, unfolding(crate::specs::NamedDay::calendar_date_of))]
pub fn calendar_date(year: i32, month: Month, day: u8) -> Result<Date, ComponentRange>
    ensures { result ≡ calendar_date_of year (month_number month) day }
{
    Date::from_calendar_date(year, month, day)
}

/// The day of the week of the year of ISO 8601. A year out of range is refused first, then a week that the year does
/// not have.
#[tactic(auto, using(crate::proofs::ConstructorLemmas::iso_result, std::proofs::lemmas::Int::ints))]
pub fn iso_week_date(year: i32, week: u8, weekday: Weekday) -> Result<Date, ComponentRange>
    ensures { result ≡ iso_week_date_of year week (days_from_monday weekday) }
{
    Date::from_iso_week_date(year, week, weekday)
}

// The day of the week of the year, weeks beginning so many days after Monday, and the weekday so many days after the
// week's first.
fn week_date(
    begin: u8,
    year: i32,
    week: u8,
    weekday: u8,
    days_into_week: u8,
) -> Result<Date, ComponentRange>
    requires begin { begin < 7 }
    requires weekday { weekday < 7 }
    requires days_into_week { days_into_week ≡ (weekday + 7 - begin) % 7 }
    ensures { result ≡ week_date_of begin year week weekday }
{
    if !closed::has_year(year) {
        return Err(ComponentRange::unconditional(ComponentName::Year));
    }
    let start = closed::before_year(closed::years_since(year));
    let end = start + util::days_in_year(year) as u32;
    let weeks = week as u32 + (start + 6 - begin as u32) / 7;
    let later = 7 * weeks + days_into_week as u32 + begin as u32;
    if later < start + 7 || later >= end + 7 {
        return Err(ComponentRange::conditional(ComponentName::Ordinal));
    }
    Ok(Date::from_count(later - 7))
}

/// The day of the week of the year, where so many of the year's days up to and including it are Mondays.
pub fn monday_week_date(year: i32, week: u8, weekday: Weekday) -> Result<Date, ComponentRange>
    ensures { result ≡ monday_week_date_of year week (days_from_monday weekday) }
{
    let days = weekday.number_days_from_monday();
    week_date(0, year, week, days, days)
}

/// The day of the week of the year, where so many of the year's days up to and including it are Sundays.
pub fn sunday_week_date(year: i32, week: u8, weekday: Weekday) -> Result<Date, ComponentRange>
    ensures { result ≡ sunday_week_date_of year week (days_from_monday weekday) }
{
    let days = weekday.number_days_from_monday();
    week_date(6, year, week, days, weekday.number_days_from_sunday())
}

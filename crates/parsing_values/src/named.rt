//! The date that parts name.
ghost use Rattle.std.specs.Prelude.{◌≡◌};
ghost use Rattle.std.specs.Option.{option_or};
ghost use Rattle.parsing_combinator.specs.FaultOf.{Gives, resolution_fault};
ghost use Rattle.parsing_values.specs.NamedDate.{year_of, by_iso_week, by_sunday_week, by_monday_week, named_by, named_date};

use crate::date_parts::{DateParts, YearParts};
use crate::named_day;
use calendar::Date;
use parsing_combinator::TryFromParsed::{self, InsufficientInformation};

/// The year that is there, and else that of its century and its last two digits.
#[tactic(auto, using(std::proofs::lemmas::Int::ints), unfolding(crate::specs::NamedDate::year_of, crate::specs::NamedDate::split_year))]
pub fn year(parts: &YearParts) -> Option<i32>
    ensures { result ≡ year_of parts.now }
{
    if let Some(year) = parts.year {
        return Some(year);
    }
    let (century, last_two) = (parts.century? as i32, parts.last_two? as i32);
    Some(if parts.century_is_negative {
        century * 100 - last_two
    } else {
        century * 100 + last_two
    })
}

// The date of the first group with a weekday that is wholly there: the year is what `year` gives.
#[inline(always)]
#[tactic(auto, unfolding(crate::specs::NamedDate::by_iso_week, crate::specs::NamedDate::by_sunday_week, crate::specs::NamedDate::by_monday_week))]
fn date_by_weekday(parts: &DateParts, year_there: Option<i32>) -> Result<Date, TryFromParsed>
    requires { year_there ≡ year_of parts.now.year }
    ensures { Gives (λ d. d) resolution_fault result (named_by
        (option_or (by_iso_week parts.now)
        (option_or (by_sunday_week parts.now) (by_monday_week parts.now)))) }
{
    let weekday = parts.weekday.ok_or(InsufficientInformation)?;
    if let (Some(year), Some(week)) = (year(&parts.iso_year), parts.iso_week) {
        return Ok(named_day::iso_week_date(year, week, weekday)?);
    }
    if let (Some(year), Some(week)) = (year_there, parts.sunday_week) {
        return Ok(named_day::sunday_week_date(year, week, weekday)?);
    }
    if let (Some(year), Some(week)) = (year_there, parts.monday_week) {
        return Ok(named_day::monday_week_date(year, week, weekday)?);
    }
    Err(InsufficientInformation)
}

/// The date of the first group of parts that is wholly there; `InsufficientInformation` where none is.
///
/// The groups are the year and the place in it; the year, the month and its day; the year and the week of ISO 8601
/// and the weekday; the year, the Sundays up to the day and the weekday; the same with Mondays.
#[tactic(auto, unfolding(crate::specs::NamedDate::named_date, crate::specs::NamedDate::by_ordinal, crate::specs::NamedDate::by_day))]
pub fn date(parts: &DateParts) -> Result<Date, TryFromParsed>
    ensures { Gives (λ d. d) resolution_fault result (named_date parts.now) }
{
    let year_there = year(&parts.year);
    if let (Some(year), Some(ordinal)) = (year_there, parts.ordinal) {
        return Ok(named_day::ordinal_date(year, ordinal)?);
    }
    if let (Some(year), Some(month), Some(day)) = (year_there, parts.month, parts.day) {
        return Ok(named_day::calendar_date(year, month, day)?);
    }
    date_by_weekday(parts, year_there)
}

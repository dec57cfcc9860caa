//! The days that dates name, as days of a month, in years of four digits.
ghost use Rattle.std.specs.Prelude.{◌≡◌, ◌≤◌, ◌<◌, IfSome, pos, ◌-◌};
ghost use Rattle.std.specs.Int.{IsInRange};
ghost use Rattle.calendar_count.specs.Calendar.{days_in_year};
ghost use Rattle.parsing_iso8601_shapes.specs.Days.{NamesOrdinal, NamesWeek, first_thursday_of, months_row, year_by};
ghost use Rattle.parsing_iso8601.specs.Fractions as Fractions;
ghost use Rattle.parsing_iso8601_shapes.specs.Layout.{NamesDate};
ghost use Rattle.parsing_iso8601_shapes.specs.declared.form.Dating.TheVariants.{Ordinal, Week};

use parsing_combinator::two_pairs_at;
use parsing_values::Year;

// The two pairs of digits of a year.
#[inline(always)]
fn pairs_of(year: Year) -> (u8, u8)
    ensures year { year ≡ year_by result.0 result.1 }
    ensures century { result.0 ≤ 99 }
    ensures last_two { result.1 ≤ 99 }
{
    two_pairs_at(&year.digits(), 0)
}

// The days before each month of a year, from 1 on, and before the next year, then the same of a leap year, from 17 on.
static DAYS_BEFORE: [u16; 32] = [
    0, 0, 31, 59, 90, 120, 151, 181, 212, 243, 273, 304, 334, 365, 0, 0, 0, 0, 31, 60, 91, 121,
    152, 182, 213, 244, 274, 305, 335, 366, 0, 0,
];

// Where the months of a year stand in the table.
#[inline(always)]
fn months_at(century: u8, last_two: u8) -> usize
    requires century { century ≤ 99 }
    requires last_two { last_two ≤ 99 }
    ensures row { result ≡ months_row (days_in_year (pos (year_by century last_two))) }
    ensures bound { result ≤ 16 }
{
    if last_two % 4 == 0 && (last_two != 0 || century % 4 == 0) {
        16
    } else {
        0
    }
}

// A month's place, or that of the next one.
#[inline(always)]
fn next_if(is_next: bool, place: usize) -> usize
    requires { place < 31 }
    ensures { result ≡ Fractions.next_if is_next place }
{
    if is_next { place + 1 } else { place }
}

// The month, and the day of the month, of a day of the year but the 366th.
#[inline(always)]
fn of_ordinal(century: u8, last_two: u8, ordinal: u32) -> (u8, u8)
    requires century { century ≤ 99 }
    requires last_two { last_two ≤ 99 }
    requires ordinal { IsInRange 1 365 ordinal }
    ensures { NamesOrdinal (year_by century last_two) ordinal result.0 result.1 }
{
    let months = months_at(century, last_two);
    // A month has at most 32 days, so that this one or the next one has the day.
    let least = months + (ordinal / 32) as usize + 1;
    let month = next_if(ordinal > u32::from(DAYS_BEFORE[least + 1]), least);
    let day = ordinal - u32::from(DAYS_BEFORE[month]);
    ((month - months) as u8, day as u8)
}

// The days from the first one of a year to its first Thursday, for 400 years, after which they come again.
static FIRST_THURSDAYS: [u8; 400] = *b"\
    53210543206542106432165431065321054320654210643216543106532105432065421064321654\
    31065321054320654210654320654210643216543106532105432065421064321654310653210543\
    20654210643216543106532105432065421064321065421064321654310653210543206542106432\
    16543106532105432065421064321654310653210543206542106432165432106432165431065321\
    05432065421064321654310653210543206542106432165431065321054320654210643216543106";

// The days from the first one of a year to its first Thursday.
#[tactic(auto, using(crate::proofs::DayLemmas::thursday_by))]
#[inline(always)]
fn first_thursday(century: u8, last_two: u8) -> u32
    requires century { century ≤ 99 }
    requires last_two { last_two ≤ 99 }
    ensures value { result ≡ first_thursday_of (year_by century last_two) }
    ensures bound { result ≤ 6 }
{
    let place = usize::from(century % 4) * 100 + usize::from(last_two);
    u32::from(FIRST_THURSDAYS[place]) - u32::from(b'0')
}

// The day of the year of a day of a week, counted from 1 for Monday, where that day and the week's Thursday are among the first
// 365.
#[inline(always)]
fn of_week(century: u8, last_two: u8, week: u8, weekday: u8) -> Option<u32>
    requires century { century ≤ 99 }
    requires last_two { last_two ≤ 99 }
    requires weekday { IsInRange 1 7 weekday }
    ensures named { IfSome result (NamesWeek (year_by century last_two) week (weekday - 1)) }
    ensures bound { IfSome result (λ ordinal. IsInRange 1 365 ordinal) }
{
    // The Thursday of the week, seven days later, and the day, ten days later.
    let thursday = first_thursday(century, last_two) + 7 * u32::from(week);
    let day = thursday + u32::from(weekday);
    if thursday < 7 || thursday > 371 || day < 11 || day > 375 {
        return None;
    }
    Some(day - 10)
}

/// The month and the day of a day of the year, whose number is in two parts: `None` says nothing of them.
#[inline(always)]
pub(crate) fn of_year(year: Year, first_two: u8, last: u8) -> Option<(u8, u8)>
    requires year { year ≤ 9999 }
    ensures { IfSome result (λ d. NamesDate Ordinal year first_two last d.0 d.1) }
{
    let ordinal = u32::from(first_two) * 10 + u32::from(last);
    if ordinal < 1 || ordinal > 365 {
        return None;
    }
    let (century, last_two) = pairs_of(year);
    Some(of_ordinal(century, last_two, ordinal))
}

/// The month and the day of a day of a week: `None` says nothing of them.
#[inline(always)]
pub(crate) fn of_weeks(year: Year, week: u8, weekday: u8) -> Option<(u8, u8)>
    requires year { year ≤ 9999 }
    ensures { IfSome result (λ d. NamesDate Week year week weekday d.0 d.1) }
{
    if weekday < 1 || weekday > 7 {
        return None;
    }
    let (century, last_two) = pairs_of(year);
    let ordinal = of_week(century, last_two, week, weekday)?;
    Some(of_ordinal(century, last_two, ordinal))
}

//! Readings of the parts of a text.
ghost use Rattle.std.specs.Prelude.{◌≡◌, ◌<◌, IfOk, IfErr, true};
ghost use Rattle.parsing_combinator.specs.FaultOf.{Gives, reading_fault};
ghost use Rattle.parsing_combinator.specs.Pieces as Pieces;
ghost use Rattle.parsing_combinator.specs.ShortName.{HasShortName};
ghost use Rattle.parsing_combinator.specs.Tame.{EndsWith};
ghost use Rattle.parsing_rfc2822.specs.Range.{AreInRange};
ghost use Rattle.parsing_rfc2822.specs.Reading as Reading;

use crate::names::{month, weekday, zone_name};
use crate::parts::Rfc2822Parts;
use crate::spacing::{past_spacing, spaced_colon};
use crate::{comments_and_white_space, folding_white_space};
use calendar_count::{Month, Weekday};
use parsing_combinator::ParseFromDescription::{self, InvalidComponent, InvalidLiteral};
use parsing_combinator::{Zone, byte, four_digits, one_digit, sign, two_digits, within};

// The number that is there and passes, with what follows it.
macro_rules! number {
    ($read:expr, $is_strict:expr, $low:literal, $high:literal, $name:literal) => {{
        let (value, rest) = $read.ok_or(InvalidComponent($name))?;
        if !within($is_strict, $low, $high, value) {
            return Err(InvalidComponent($name));
        }
        (value, rest)
    }};
}

// One digit, or two where there are two.
#[tactic(auto, unfolding(crate::specs::Reading::one_or_two_digits))]
#[inline(always)]
fn one_or_two_digits(bytes: &[u8]) -> Option<(u8, &[u8])>
    ensures { Pieces.cut_view result ≡ Reading.one_or_two_digits bytes.now }
{
    two_digits(bytes).or_else(|| one_digit(bytes))
}

// The weekday and its comma, where they are there.
#[tactic(auto, unfolding(crate::specs::Reading::optional_weekday, crate::specs::Reading::named_day))]
#[inline(always)]
fn optional_weekday(bytes: &[u8]) -> Result<(Option<Weekday>, &[u8]), ParseFromDescription>
    ensures { Gives (λ x. (x.0, x.1.now)) reading_fault result
        (Reading.optional_weekday bytes.now) }
{
    let Some((day, rest)) = weekday(bytes) else {
        return Ok((None, bytes));
    };
    let rest = byte(b',', rest).ok_or(InvalidLiteral)?;
    Ok((Some(day), past_spacing(rest)))
}

// The day of the month, and the weekday before it, where there is one.
#[tactic(auto, unfolding(crate::specs::Reading::day))]
#[inline(always)]
fn day(
    is_strict: bool,
    bytes: &[u8],
) -> Result<((Option<Weekday>, u8), &[u8]), ParseFromDescription>
    ensures { Gives (λ x. (x.0, x.1.now)) reading_fault result (Reading.day is_strict bytes.now) }
{
    let (weekday, rest) = optional_weekday(past_spacing(bytes))?;
    let (day, rest) = number!(one_or_two_digits(rest), is_strict, 1, 31, "day");
    Ok(((weekday, day), rest))
}

// A year of four digits, not before 1900, or one of two, from 1950 to 2049, and the white space after it.
#[tactic(auto, unfolding(crate::specs::Reading::year, crate::specs::Reading::full_year, crate::specs::Reading::short_year))]
#[inline(always)]
fn year(bytes: &[u8]) -> Result<(u16, &[u8]), ParseFromDescription>
    ensures { Gives (λ x. (x.0, x.1.now)) reading_fault result (Reading.year bytes.now) }
{
    let Some((year, rest)) = four_digits(bytes) else {
        let (year, rest) = two_digits(bytes).ok_or(InvalidComponent("year"))?;
        let rest = comments_and_white_space(rest).ok_or(InvalidLiteral)?;
        let century = if year < 50 { 2000 } else { 1900 };
        return Ok((u16::from(year) + century, rest));
    };
    if year < 1900 {
        return Err(InvalidComponent("year"));
    }
    let rest = folding_white_space(rest).ok_or(InvalidLiteral)?;
    Ok((year, rest))
}

// A month and a year, with white space before each and after the year.
#[tactic(auto, unfolding(crate::specs::Reading::month_and_year))]
#[inline(always)]
fn month_and_year(bytes: &[u8]) -> Result<((Month, u16), &[u8]), ParseFromDescription>
    ensures { Gives (λ x. (x.0, x.1.now)) reading_fault result (Reading.month_and_year bytes.now) }
{
    let rest = comments_and_white_space(bytes).ok_or(InvalidLiteral)?;
    let (month, rest) = month(rest).ok_or(InvalidComponent("month"))?;
    let rest = comments_and_white_space(rest).ok_or(InvalidLiteral)?;
    let (year, rest) = year(rest)?;
    Ok(((month, year), rest))
}

// The second, where one is written.
#[tactic(auto, unfolding(crate::specs::Reading::second, crate::specs::Reading::due_second))]
#[inline(always)]
fn second(is_strict: bool, bytes: &[u8]) -> Result<(Option<u8>, &[u8]), ParseFromDescription>
    ensures { Gives (λ x. (x.0, x.1.now)) reading_fault result
        (Reading.second is_strict bytes.now) }
{
    let Some(rest) = spaced_colon(bytes) else {
        return Ok((None, bytes));
    };
    let (second, rest) = number!(two_digits(rest), is_strict, 0, 60, "second");
    Ok((Some(second), rest))
}

// The time of day.
#[tactic(auto, unfolding(crate::specs::Reading::clock, crate::specs::Reading::hour_and_minute))]
#[inline(always)]
fn clock(
    is_strict: bool,
    bytes: &[u8],
) -> Result<((u8, u8, Option<u8>), &[u8]), ParseFromDescription>
    ensures { Gives (λ x. (x.0, x.1.now)) reading_fault result (Reading.clock is_strict bytes.now) }
{
    let (hour, rest) = number!(two_digits(bytes), is_strict, 0, 23, "hour");
    let rest = spaced_colon(rest).ok_or(InvalidLiteral)?;
    let (minute, rest) = number!(two_digits(rest), is_strict, 0, 59, "minute");
    let (second, rest) = second(is_strict, rest)?;
    Ok(((hour, minute, second), rest))
}

// The zone: a sign with hours and minutes, both under it, or a name.
#[tactic(auto, unfolding(crate::specs::Reading::zone, crate::specs::Reading::signed_zone, crate::specs::Reading::named_zone))]
#[inline(always)]
fn zone(is_strict: bool, bytes: &[u8]) -> Result<(Zone, &[u8]), ParseFromDescription>
    ensures gives { Gives (λ x. (x.0, x.1.now)) reading_fault result
        (Reading.zone is_strict bytes.now) }
    ensures hours { IfOk result (λ x. x.0.hours < 100) }
    ensures minutes { IfOk result (λ x. x.0.minutes < 100) }
{
    let Some((mark, rest)) = sign(bytes) else {
        let (hours, rest) = zone_name(bytes).ok_or(InvalidComponent("offset hour"))?;
        let zone = Zone {
            is_named: true,
            is_negative: true,
            hours,
            minutes: 0,
        };
        return Ok((zone, rest));
    };
    let (hours, rest) = number!(two_digits(rest), is_strict, 0, 25, "offset hour");
    let (minutes, rest) = number!(two_digits(rest), is_strict, 0, 59, "offset minute");
    let zone = Zone {
        is_named: false,
        is_negative: mark == b'-',
        hours,
        minutes,
    };
    Ok((zone, rest))
}

// All parts of a date-time, in order.
#[tactic(auto, unfolding(crate::specs::Reading::rfc2822, crate::specs::Reading::spaced_zone))]
#[inline(always)]
fn parts(is_strict: bool, bytes: &[u8]) -> Result<(Rfc2822Parts, &[u8]), ParseFromDescription>
    ensures gives { Gives (λ x. (x.0, x.1.now)) reading_fault result
        (Reading.rfc2822 is_strict bytes.now) }
    ensures hours { IfOk result (λ x. x.0.zone.hours < 100) }
    ensures minutes { IfOk result (λ x. x.0.zone.minutes < 100) }
{
    let ((weekday, day), rest) = day(is_strict, bytes)?;
    let ((month, year), rest) = month_and_year(rest)?;
    let ((hour, minute, second), rest) = clock(is_strict, rest)?;
    let rest = comments_and_white_space(rest).ok_or(InvalidLiteral)?;
    let (zone, rest) = zone(is_strict, rest)?;
    let parts = Rfc2822Parts {
        weekday,
        day,
        month,
        year,
        hour,
        minute,
        second,
        zone,
    };
    Ok((parts, past_spacing(rest)))
}

/// What is written at the start of the bytes, and the rest: RFC 2822, section 3.3, with the obsolete years and zones.
///
/// A strict reading refuses each number out of range where it stands. Each fault names the part that can't be read; one
/// of a zone is the offset hour's, or after a sign that of its minutes.
#[inline(always)]
pub fn parse_prefix(
    is_strict: bool,
    bytes: &[u8],
) -> Result<(Rfc2822Parts, &[u8]), ParseFromDescription>
    ensures gives { Gives (λ x. (x.0, x.1.now)) reading_fault result
        (Reading.rfc2822 is_strict bytes.now) }
    ensures range { is_strict ≡ true → IfOk result (λ x. AreInRange x.0) }
    ensures hours { IfOk result (λ x. x.0.zone.hours < 100) }
    ensures minutes { IfOk result (λ x. x.0.zone.minutes < 100) }
    ensures end { IfOk result (λ x. EndsWith bytes.now x.1.now) }
    ensures short_name { IfErr result (λ e. HasShortName (reading_fault e)) }
{
    parts(is_strict, bytes)
}

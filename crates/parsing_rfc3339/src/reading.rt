//! Readings of the parts of a text.
ghost use Rattle.std.specs.Prelude.{◌≡◌, ◌≤◌, ◌<◌, IfOk, IfErr, IfSome, Ok, true};
ghost use Rattle.parsing_combinator.specs.FaultOf.{Gives, reading_fault};
ghost use Rattle.parsing_combinator.specs.Pieces.{rest_view};
ghost use Rattle.parsing_combinator.specs.ShortName.{HasShortName};
ghost use Rattle.parsing_combinator.specs.Tame.{EndsWith};
ghost use Rattle.parsing_rfc3339.specs.Range.{AreInRange};
ghost use Rattle.parsing_rfc3339.specs.Reading as Reading;

use crate::parts::Rfc3339Parts;
use parsing_combinator::ParseFromDescription::{self, InvalidComponent, InvalidLiteral};
use parsing_combinator::{Zone, any_byte, byte, four_digits, fraction, sign, two_digits, within};

// The year, the month and the day, with hyphens between them.
#[tactic(auto, unfolding(crate::specs::Reading::date))]
#[inline(always)]
fn date(is_strict: bool, bytes: &[u8]) -> Result<((u16, u8, u8), &[u8]), ParseFromDescription>
    ensures { Gives (λ x. (x.0, x.1.now)) reading_fault result (Reading.date is_strict bytes.now) }
{
    let (year, rest) = four_digits(bytes).ok_or(InvalidComponent("year"))?;
    let rest = byte(b'-', rest).ok_or(InvalidLiteral)?;
    let (month, rest) = two_digits(rest).ok_or(InvalidComponent("month"))?;
    if !within(is_strict, 1, 12, month) || month == 0 {
        return Err(InvalidComponent("month"));
    }
    let rest = byte(b'-', rest).ok_or(InvalidLiteral)?;
    let (day, rest) = two_digits(rest).ok_or(InvalidComponent("day"))?;
    if !within(is_strict, 1, 31, day) {
        return Err(InvalidComponent("day"));
    }
    Ok(((year, month, day), rest))
}

// The hour, the minute and the second, with colons between them.
#[tactic(auto, unfolding(crate::specs::Reading::clock))]
#[inline(always)]
fn clock(is_strict: bool, bytes: &[u8]) -> Result<((u8, u8, u8), &[u8]), ParseFromDescription>
    ensures { Gives (λ x. (x.0, x.1.now)) reading_fault result (Reading.clock is_strict bytes.now) }
{
    let (hour, rest) = two_digits(bytes).ok_or(InvalidComponent("hour"))?;
    if !within(is_strict, 0, 23, hour) {
        return Err(InvalidComponent("hour"));
    }
    let rest = byte(b':', rest).ok_or(InvalidLiteral)?;
    let (minute, rest) = two_digits(rest).ok_or(InvalidComponent("minute"))?;
    if !within(is_strict, 0, 59, minute) {
        return Err(InvalidComponent("minute"));
    }
    let rest = byte(b':', rest).ok_or(InvalidLiteral)?;
    let (second, rest) = two_digits(rest).ok_or(InvalidComponent("second"))?;
    if !within(is_strict, 0, 60, second) {
        return Err(InvalidComponent("second"));
    }
    Ok(((hour, minute, second), rest))
}

// The nanoseconds after a point, where one is written.
#[tactic(auto, unfolding(crate::specs::Reading::subsecond, crate::specs::Reading::due_fraction))]
#[inline(always)]
fn subsecond(bytes: &[u8]) -> Result<(Option<u32>, &[u8]), ParseFromDescription>
    ensures gives { Gives (λ x. (x.0, x.1.now)) reading_fault result (Reading.subsecond bytes.now) }
    ensures bound { IfOk result (λ x. IfSome x.0 (λ n. n < 1_000_000_000)) }
{
    let Some(rest) = byte(b'.', bytes) else {
        return Ok((None, bytes));
    };
    let (nanosecond, rest) = fraction(rest).ok_or(InvalidComponent("subsecond"))?;
    Ok((Some(nanosecond), rest))
}

// The letter `Z` in either case.
#[tactic(auto, unfolding(crate::specs::Reading::zulu, parsing_combinator::specs::Pieces::skip_of))]
#[inline(always)]
fn zulu(bytes: &[u8]) -> Option<&[u8]>
    ensures { rest_view result ≡ Reading.zulu bytes.now }
{
    match bytes {
        [b, rest @ ..] if *b == b'Z' || *b == b'z' => Some(rest),
        _ => None,
    }
}

// A sign, and the hours and minutes under it.
#[tactic(auto, unfolding(crate::specs::Reading::signed_offset))]
#[inline(always)]
fn signed_offset(is_strict: bool, bytes: &[u8]) -> Result<(Zone, &[u8]), ParseFromDescription>
    ensures gives { Gives (λ x. (x.0, x.1.now)) reading_fault result
        (Reading.signed_offset is_strict bytes.now) }
    ensures few { IfOk result (λ x. (x.0.hours ≤ 23) × (x.0.minutes < 100)) }
{
    let (mark, rest) = sign(bytes).ok_or(InvalidComponent("offset hour"))?;
    let (hour, rest) = two_digits(rest).ok_or(InvalidComponent("offset hour"))?;
    if hour > 23 {
        return Err(InvalidComponent("offset hour"));
    }
    let rest = byte(b':', rest).ok_or(InvalidLiteral)?;
    let (minute, rest) = two_digits(rest).ok_or(InvalidComponent("offset minute"))?;
    if !within(is_strict, 0, 59, minute) {
        return Err(InvalidComponent("offset minute"));
    }
    let zone = Zone {
        is_named: false,
        is_negative: mark == b'-',
        hours: hour,
        minutes: minute,
    };
    Ok((zone, rest))
}

// The offset: `Z`, or a sign with hours and minutes.
#[tactic(auto, unfolding(crate::specs::Reading::offset))]
#[inline(always)]
fn offset(is_strict: bool, bytes: &[u8]) -> Result<(Zone, &[u8]), ParseFromDescription>
    ensures gives { Gives (λ x. (x.0, x.1.now)) reading_fault result
        (Reading.offset is_strict bytes.now) }
    ensures few { IfOk result (λ x. (x.0.hours ≤ 23) × (x.0.minutes < 100)) }
{
    if let Some(rest) = zulu(bytes) {
        let zone = Zone {
            is_named: true,
            is_negative: false,
            hours: 0,
            minutes: 0,
        };
        return Ok((zone, rest));
    }
    signed_offset(is_strict, bytes)
}

// All parts of a date-time, in order.
#[tactic(auto, unfolding(crate::specs::Reading::rfc3339))]
#[inline(always)]
fn parts(is_strict: bool, bytes: &[u8]) -> Result<(Rfc3339Parts, &[u8]), ParseFromDescription>
    ensures gives { Gives (λ x. (x.0, x.1.now)) reading_fault result
        (Reading.rfc3339 is_strict bytes.now) }
    ensures subsecond { IfOk result (λ x. IfSome x.0.subsecond (λ n. n < 1_000_000_000)) }
    ensures hours { IfOk result (λ x. x.0.zone.hours ≤ 23) }
    ensures minutes { IfOk result (λ x. x.0.zone.minutes < 100) }
{
    let ((year, month, day), rest) = date(is_strict, bytes)?;
    let rest = any_byte(rest).ok_or(InvalidComponent("separator"))?;
    let ((hour, minute, second), rest) = clock(is_strict, rest)?;
    let (subsecond, rest) = subsecond(rest)?;
    let (zone, rest) = offset(is_strict, rest)?;
    let parts = Rfc3339Parts {
        year,
        month,
        day,
        hour,
        minute,
        second,
        subsecond,
        zone,
    };
    Ok((parts, rest))
}

/// The numbers at the start of the bytes, and the rest, piece by piece: RFC 3339, section 5.6.
///
/// A strict reading refuses each number out of range where it stands. Each fault names the part that can't be read.
#[inline(always)]
pub fn parse_prefix(
    is_strict: bool,
    bytes: &[u8],
) -> Result<(Rfc3339Parts, &[u8]), ParseFromDescription>
    ensures gives { Gives (λ x. (x.0, x.1.now)) reading_fault result
        (Reading.rfc3339 is_strict bytes.now) }
    ensures range { is_strict ≡ true → IfOk result (λ x. AreInRange x.0) }
    ensures subsecond { IfOk result (λ x. IfSome x.0.subsecond (λ n. n < 1_000_000_000)) }
    ensures hours { IfOk result (λ x. x.0.zone.hours ≤ 23) }
    ensures minutes { IfOk result (λ x. x.0.zone.minutes < 100) }
    ensures end { IfOk result (λ x. EndsWith bytes.now x.1.now) }
    ensures short_name { IfErr result (λ e. HasShortName (reading_fault e)) }
{
    parts(is_strict, bytes)
}

//! What is read beside lanes.
ghost use Rattle.std.specs.Prelude.{◌≡◌, ◌≤◌, ◌<◌, ◌+◌, ◌-◌, ◌/◌, ◌%◌, ℤ, Option, Some, get_or, length, true, unsigned_abs, IfSome, IsSome};
ghost use Rattle.std.specs.Option.{ForSome};
ghost use Rattle.parsing_shapes.specs.Beside.{HasSpaced, IsFraction, ReadAt, is_ready};
ghost use Rattle.parsing_layout.specs.declared.parts.Field.TheVariants as field;
ghost use Rattle.parsing_layout.specs.declared.parts.Names.TheVariants as names;
ghost use Rattle.parsing_layout.specs.declared.parts.Part.TheVariants as part;
ghost use Rattle.parsing_item_parts.specs.Assumed.{Assumes};
ghost use Rattle.parsing_plan.specs.Fields.{IsOffset};

use parsing_item_parts::Minutes;
use parsing_layout::{month_name_at, weekday_name_at};
use parsing_places::signed;
use parsing_shapes::{Beside, Shape};
use parsing_values::Fraction;

/// The number of the weekday, where there is one, and else any number.
#[inline(always)]
pub(crate) fn weekday_of(shape: &Shape, beside: &Beside, line: &[u8], days: u32) -> Option<u8>
    requires ready { is_ready shape.now beside.now ≡ true }
    requires long { shape.now.length ≤ length line.now }
    requires few { days < 16_384 }
    ensures says { IfSome result (ReadAt beside.now.weekday (part.Name names.ShortWeekday true) line.now (days / 64)) }
    ensures bound { IsSome beside.now.weekday → IfSome result (λ n. (1 ≤ n) × (n ≤ 7)) }
{
    let _ = shape;
    match beside.weekday {
        Some(place) => weekday_name_at(line, place),
        None => Some((days / 64) as u8),
    }
}

/// The number of the month, by its name or of the sum of days.
#[inline(always)]
pub(crate) fn month_of(shape: &Shape, beside: &Beside, line: &[u8], days: u32) -> Option<u8>
    requires ready { is_ready shape.now beside.now ≡ true }
    requires long { shape.now.length ≤ length line.now }
    ensures says { IfSome result (ReadAt beside.now.month (part.Name names.ShortMonth true) line.now (days % 64)) }
    ensures bound { IfSome result (λ n. (1 ≤ n) × (n ≤ 12)) }
{
    let _ = shape;
    if let Some(place) = beside.month {
        return month_name_at(line, place);
    }
    let number = (days % 64) as u8;
    if number < 1 || number > 12 {
        return None;
    }
    Some(number)
}

// The day after a byte that may be a space, and the ones at the next place. Of a space the low half is 0, and of a digit its
// number.
#[inline(always)]
fn spaced_day(line: &[u8], place: usize, ones: u8) -> Option<u8>
    requires bytes { HasSpaced line.now place }
    requires ones { ones ≡ get_or line.now (place + 1) 0 - 48 }
    ensures { IfSome result (ReadAt (Some place) (part.Spaced field.Day) line.now ones) }
{
    let first = line[place];
    if first > b' ' && first < b'0' {
        return None;
    }
    Some((first & 15) * 10 + ones)
}

/// The day of the sum of days, or after a space.
#[inline(always)]
pub(crate) fn day_of(beside: &Beside, line: &[u8], days: u32) -> Option<u8>
    requires few { days < 16_384 }
    requires spaced { ForSome beside.now.day (HasSpaced line.now) }
    requires ones { ForSome beside.now.day (λ place. days / 64 ≡ get_or line.now (place + 1) 0 - 48) }
    ensures { IfSome result (ReadAt beside.now.day (part.Spaced field.Day) line.now (days / 64)) }
{
    let number = (days / 64) as u8;
    match beside.day {
        Some(place) => spaced_day(line, place, number),
        None => Some(number),
    }
}

/// The fraction of a second, which was found after a front, or is read beside lanes, or is none.
#[inline(always)]
pub(crate) fn fraction_of(
    shape: &Shape,
    beside: &Beside,
    line: &[u8],
    found: Option<Fraction>,
) -> Option<Fraction>
    requires ready { is_ready shape.now beside.now ≡ true }
    requires long { shape.now.length ≤ length line.now }
    requires found { IfSome found (λ f. f < 1_000_000_000) }
    ensures says { IfSome result (IsFraction found beside.now.fraction line.now) }
    ensures bound { IfSome result (λ f. f < 1_000_000_000) }
{
    let _ = shape;
    if let Some(fraction) = found {
        return Some(fraction);
    }
    match beside.fraction {
        Some((place, count)) => Fraction::of_digits(line, place + count, count),
        None => Some(Fraction::new(0)),
    }
}

/// The minutes of the offset, of the sums or else those that are assumed.
#[inline(always)]
pub(crate) fn offset_of(beside: &Beside, offset: u32, seconds: u32, minutes: Minutes) -> i16
    requires few { offset < 1440 }
    requires even { seconds % 2 ≡ 0 }
    ensures says { (assumed : Option ℤ) → Assumes beside.now.has_offset assumed minutes.number
        → IsOffset beside.now.has_offset offset seconds assumed result }
    ensures bound { unsigned_abs result ≤ 1559 }
{
    if beside.has_offset {
        signed(offset, seconds % 4 == 2)
    } else {
        minutes.number
    }
}

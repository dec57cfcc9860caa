//! The numbers of a text, which are all read at once, before its day is one of a month.
ghost use Rattle.std.specs.Prelude.{◌≡◌, ◌≤◌, ◌<◌, ◌+◌, ℕ, length, false, true, IfSome, List};
ghost use Rattle.parsing_places.specs.Tail.{is_written, is_zulu};
ghost use Rattle.parsing_places.specs.declared.ending.Ending.{Ending};
ghost use Rattle.parsing_layout.specs.declared.parts.Part.{Part};
ghost use Rattle.parsing_shapes.specs.Moment.{AreInRange};
ghost use Rattle.parsing_shapes.specs.Numbers.{AreOfSums, SaysNumbers, second_if};
ghost use Rattle.parsing_shapes.specs.Shape.{fits};
ghost use Rattle.parsing_shapes.specs.Tail.{small_parts, zone_parts};

use crate::moment::{long_fraction, tailed_sums_of};
use crate::numbers::Numbers;
use crate::shape::Shape;
use crate::sums::Sums;
use crate::tails::{length_of, tail_of};
use parsing_places::{Ending, LANES, ending_of, fraction_of, signed};
use parsing_values::{Fraction, Year};

// A second, if there is one, and else 0.
#[inline(always)]
fn second_if(has_second: bool, second: u8) -> u8
    ensures is { result ≡ second_if has_second second }
    ensures bound { result ≤ second }
{
    if has_second { second } else { 0 }
}

/// The numbers of sums, of the year at a place, and of a fraction, with the second or without.
#[inline(always)]
pub(crate) fn numbers_of(
    text: &[u8],
    year: usize,
    has_second: bool,
    sums: Sums,
    fraction: Fraction,
) -> Option<Numbers>
    requires { AreInRange text.now year sums.0 sums.2 sums.3 }
    ensures { IfSome result (λ n. AreOfSums n has_second text.now year sums.0 sums.1 sums.2 sums.3
        fraction) }
{
    let (days, minute, offset, seconds) = sums;
    if minute >= 1440 || seconds % 2 != 0 {
        return None;
    }
    let year = Year::of_digits(text, year);
    let second = second_if(has_second, (seconds / 64) as u8);
    let shift = signed(offset, seconds % 4 == 2);
    Some(Numbers {
        year,
        high: (days % 64) as u8,
        low: (days / 64) as u8,
        minute: minute as u16,
        second,
        offset: shift,
        fraction,
    })
}

/// The numbers of a text that has a shape, and then maybe a point and at most nine digits, and `Z` or an offset, which has a colon
/// or none: `None` says nothing of the text.
///
/// Without a second no fraction follows.
#[inline(always)]
pub fn read_numbers(
    shape: &Shape,
    has_colon: bool,
    has_second: bool,
    text: &[u8],
) -> Option<Numbers>
    requires tail { shape.now.has_tail ≡ true }
    ensures { (front : List Part) → fits shape.now front ≡ true
        → IfSome result (λ n. (e : Ending) × (bytes : ℕ) × (is_written has_colon e ≡ true)
        × (bytes ≤ 10)
        × SaysNumbers has_second (is_zulu e) front bytes (zone_parts e) text.now n) }
{
    if text.len() < LANES {
        return None;
    }
    let ending = ending_of(text[text.len() - 1], has_colon);
    let tail = tail_of(ending, text.len().wrapping_sub(shape.length))?;
    if !has_second && tail.fraction != 0 {
        return None;
    }
    let (sums, digits) = tailed_sums_of(shape, &tail.window, &tail.digits, text)?;
    numbers_of(text, shape.year, has_second, sums, fraction_of(digits))
}

/// The same with a second, and with a small `z` in the place of an offset.
#[inline(always)]
pub(crate) fn read_small_numbers(shape: &Shape, text: &[u8]) -> Option<Numbers>
    requires tail { shape.now.has_tail ≡ true }
    ensures { (front : List Part) → fits shape.now front ≡ true
        → IfSome result (λ n. (bytes : ℕ) × SaysNumbers true true front bytes small_parts text.now n) }
{
    if text.len() < LANES {
        return None;
    }
    let tail = tail_of(Ending::Zulu, text.len().wrapping_sub(shape.length))?;
    // (the rows of other fractions have a last byte that rules them out)
    if tail.fraction == 1 || tail.fraction > 10 {
        return None;
    }
    let mut last = tail.window;
    last.low[LANES - 1] = b'z';
    let (sums, digits) = tailed_sums_of(shape, &last, &tail.digits, text)?;
    numbers_of(text, shape.year, true, sums, fraction_of(digits))
}

/// The same with a second and more than nine digits after the point, of which the first nine are the fraction.
#[inline(always)]
pub fn read_long_numbers(shape: &Shape, has_colon: bool, text: &[u8]) -> Option<Numbers>
    requires tail { shape.now.has_tail ≡ true }
    ensures long { IfSome result (λ _. shape.now.length + 10 < length text.now) }
    ensures bound { IfSome result (λ n. n.fraction < 1_000_000_000) }
    ensures says { (front : List Part) → fits shape.now front ≡ true
        → IfSome result (λ n. (e : Ending) × (bytes : ℕ) × (is_written has_colon e ≡ true)
        × (10 < bytes)
        × SaysNumbers true (is_zulu e) front bytes (zone_parts e) text.now n) }
{
    if text.len() < LANES || text.len() <= shape.length || text[shape.length] != b'.' {
        return None;
    }
    let ending = ending_of(text[text.len() - 1], has_colon);
    // (the tail without a fraction, which is read by itself)
    let width = length_of(ending);
    let tail = tail_of(ending, width)?;
    let fraction = long_fraction(text, shape.length + 1, text.len() - width)?;
    let (sums, _) = tailed_sums_of(shape, &tail.window, &tail.digits, text)?;
    numbers_of(text, shape.year, true, sums, fraction)
}

//! The fields of a text, whose numbers are all read at once.
ghost use Rattle.std.specs.Prelude.{◌≡◌, ◌≤◌, ◌<◌, ◌+◌, ◌-◌, drop, length, true, IfSome, List};
ghost use Rattle.parsing_combinator.specs.Written.{WriteFraction};
ghost use Rattle.parsing_places.specs.Last.{HaveEnd, with_moves};
ghost use Rattle.parsing_places.specs.Tail.{is_written, is_zulu};
ghost use Rattle.parsing_places.specs.declared.ending.Ending.{Ending};
ghost use Rattle.parsing_layout.specs.declared.parts.Part.{Part};
ghost use Rattle.parsing_shapes.specs.Moment.{AreTaken, SaysTailed};
ghost use Rattle.parsing_shapes.specs.Shape.{fits};
ghost use Rattle.parsing_shapes.specs.Tail.{zone_parts, small_parts};

use crate::dated::{read_long_numbers, read_numbers, read_small_numbers};
use crate::shape::Shape;
use crate::sums::Sums;
use parsing_places::{LANES, Moves, Window, are_digits, digits_of_whole, joined, paired, sums};
use parsing_values::{Fields, Fraction};
use std::simd::prelude::*;

// The sums of a text that has a shape and an end, and the digits that other lanes take of its end.
#[inline(always)]
pub(crate) fn tailed_sums_of(
    shape: &Shape,
    last: &Window,
    fraction: &Moves,
    text: &[u8],
) -> Option<(Sums, u8x16)>
    requires { shape.now.windows.back_at + LANES ≤ length text.now }
    ensures sums { IfSome result (λ x. AreTaken shape.now last.now text.now (length text.now)
        x.0.0 x.0.1 x.0.2 x.0.3) }
    ensures fraction { IfSome result
        (λ x. HaveEnd (with_moves last.now fraction.now) text.now (length text.now) x.1) }
{
    let (fits, front, end, digits) = digits_of_whole(&shape.windows, last, fraction, text);
    if !fits {
        return None;
    }
    Some((sums(paired(joined(front, end))), digits))
}

// How many digits a fraction keeps.
const KEPT: usize = 9;

// The fraction of more than nine digits from a place to another one.
#[inline(always)]
pub(crate) fn long_fraction(text: &[u8], from: usize, end: usize) -> Option<Fraction>
    requires { end ≤ length text.now }
    ensures many { IfSome result (λ _. from + 9 < end) }
    ensures writes { IfSome result (WriteFraction (drop from text.now) (end - from)) }
    ensures bound { IfSome result (λ n. n < 1_000_000_000) }
{
    if from > end || end - from <= KEPT {
        return None;
    }
    let Some(read) = Fraction::read(&text[from..from + KEPT]) else {
        return None;
    };
    let (fraction, rest) = read;
    if !rest.is_empty() || !are_digits(text, from + KEPT, end) {
        return None;
    }
    Some(fraction)
}

/// The fields of a text that has a shape, whose month is a number, and then maybe a point and at most nine digits, and `Z` or an
/// offset, which has a colon or none: `None` says nothing of the text.
#[inline(always)]
pub fn read_moment(shape: &Shape, has_colon: bool, text: &[u8]) -> Option<Fields>
    requires tail { shape.now.has_tail ≡ true }
    ensures { (front : List Part) → fits shape.now front ≡ true
        → IfSome result (λ f. (e : Ending) × (is_written has_colon e ≡ true)
        × SaysTailed front (is_zulu e) (zone_parts e) text.now f) }
{
    let numbers = read_numbers(shape, has_colon, true, text)?;
    numbers.on_day(numbers.high, numbers.low)
}

/// The same with a small `z` in the place of an offset.
#[inline(always)]
pub fn read_small_moment(shape: &Shape, text: &[u8]) -> Option<Fields>
    requires tail { shape.now.has_tail ≡ true }
    ensures { (front : List Part) → fits shape.now front ≡ true
        → IfSome result (SaysTailed front true small_parts text.now) }
{
    let numbers = read_small_numbers(shape, text)?;
    numbers.on_day(numbers.high, numbers.low)
}

/// The same as `read_moment`, with more than nine digits after the point.
#[inline(always)]
pub fn read_long_moment(shape: &Shape, has_colon: bool, text: &[u8]) -> Option<Fields>
    requires tail { shape.now.has_tail ≡ true }
    ensures { (front : List Part) → fits shape.now front ≡ true
        → IfSome result (λ f. (e : Ending) × (is_written has_colon e ≡ true)
        × SaysTailed front (is_zulu e) (zone_parts e) text.now f) }
{
    let numbers = read_long_numbers(shape, has_colon, text)?;
    numbers.on_day(numbers.high, numbers.low)
}

//! Numbers in their ranges.
ghost use Rattle.std.specs.Prelude.{◌≡◌, ◌≤◌, ◌<◌, Some, IfSome, if◌then◌else◌};
ghost use Rattle.calendar_count.specs.Range.{greatest_year};
ghost use Rattle.parsing_combinator.specs.Pieces.{cut_view};
ghost use Rattle.parsing_combinator.specs.Shape.{taken};
ghost use Rattle.parsing_combinator.specs.Numbers as Numbers;
ghost use Rattle.parsing_components.specs.Record.{IsInRange};
ghost use Rattle.parsing_components.specs.declared.said.Read.TheVariants as read;
ghost use Rattle.parsing_components.specs.Ranged.{greatest_century, says, between, up_to};
ghost use Rattle.parsing_components.specs.Ranged as Ranged;
ghost use Rattle.parsing_components.specs.Component as Components;

use crate::said::Read;
use description_items::modifier::{Padding, SubsecondDigits};
use parsing_combinator::{century, fraction_between, padded, padded_two, year};

/// A number of two digits under a padding, in its range.
#[inline(always)]
pub(crate) fn two(padding: Padding, low: u8, high: u8, bytes: &[u8]) -> Option<(u8, &[u8])>
    ensures reads { cut_view result
        ≡ says (between low high (λ n. n)) (taken (Numbers.padded padding 2 2)) bytes.now }
    ensures range { IfSome result (λ x. (low ≤ x.0) × (x.0 ≤ high)) }
{
    let (n, rest) = padded_two(padding, bytes)?;
    if n < low || n > high {
        return None;
    }
    Some((n, rest))
}

/// A number of three digits under a padding, in its range.
#[inline(always)]
pub(crate) fn three(padding: Padding, low: u16, high: u16, bytes: &[u8]) -> Option<(u16, &[u8])>
    ensures reads { cut_view result
        ≡ says (between low high (λ n. n)) (taken (Numbers.padded padding 3 3)) bytes.now }
    ensures range { IfSome result (λ x. (low ≤ x.0) × (x.0 ≤ high)) }
{
    let (n, rest) = padded(padding, 3, 3, bytes)?;
    if n < u32::from(low) || n > u32::from(high) {
        return None;
    }
    Some((n as u16, rest))
}

// The number under its sign.
#[inline(always)]
fn under(negative: bool, n: u32) -> i32
    requires { n < 1_000_000 }
    ensures value { result ≡ Ranged.under negative n }
{
    if negative { -(n as i32) } else { n as i32 }
}

/// A year, with the sign that it may have.
#[inline(always)]
pub(crate) fn full_year(
    is_iso: bool,
    padding: Padding,
    mandatory: bool,
    extended: bool,
    bytes: &[u8],
) -> Option<(Read, &[u8])>
    ensures reads { cut_view result
        ≡ says (up_to greatest_year (λ negative y. if is_iso then read.IsoYear y else read.Year y))
        (taken (Numbers.year padding mandatory extended)) bytes.now }
    ensures range { IfSome result (λ x. IsInRange x.0) }
{
    let ((negative, n), rest) = year(padding, mandatory, extended, bytes)?;
    let year = under(negative, n);
    Some((
        if is_iso {
            Read::IsoYear(year)
        } else {
            Read::Year(year)
        },
        rest,
    ))
}

/// A century, with the sign that it may have, and whether that is a minus.
#[inline(always)]
pub(crate) fn full_century(
    is_iso: bool,
    padding: Padding,
    mandatory: bool,
    extended: bool,
    bytes: &[u8],
) -> Option<(Read, &[u8])>
    ensures reads { cut_view result
        ≡ says (up_to greatest_century (λ negative c. if is_iso then read.IsoYearCentury c negative else read.YearCentury c negative))
        (taken (Numbers.century padding mandatory extended)) bytes.now }
    ensures range { IfSome result (λ x. IsInRange x.0) }
{
    let ((negative, n), rest) = century(padding, mandatory, extended, bytes)?;
    let n = n as i16;
    let century = if negative { -n } else { n };
    Some((
        if is_iso {
            Read::IsoYearCentury(century, negative)
        } else {
            Read::YearCentury(century, negative)
        },
        rest,
    ))
}

/// The nanoseconds of the digits of a fraction of a second.
#[inline(always)]
pub(crate) fn subsecond(digits: SubsecondDigits, bytes: &[u8]) -> Option<(u32, &[u8])>
    ensures reads { cut_view result ≡ taken (Components.fraction_of digits) bytes.now }
    ensures range { IfSome result (λ x. x.0 < 1_000_000_000) }
{
    match digits {
        SubsecondDigits::OneOrMore => fraction_between(1, 32, bytes),
        SubsecondDigits::One => fraction_between(1, 1, bytes),
        SubsecondDigits::Two => fraction_between(2, 2, bytes),
        SubsecondDigits::Three => fraction_between(3, 3, bytes),
        SubsecondDigits::Four => fraction_between(4, 4, bytes),
        SubsecondDigits::Five => fraction_between(5, 5, bytes),
        SubsecondDigits::Six => fraction_between(6, 6, bytes),
        SubsecondDigits::Seven => fraction_between(7, 7, bytes),
        SubsecondDigits::Eight => fraction_between(8, 8, bytes),
        SubsecondDigits::Nine => fraction_between(9, 9, bytes),
    }
}

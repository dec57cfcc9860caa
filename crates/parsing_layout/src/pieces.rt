//! Numbers at the start of a text.
ghost use Rattle.std.specs.Prelude.{◌≡◌, ◌≤◌, ◌<◌, ◌^◌, None, Some, IfSome, length};
ghost use Rattle.parsing_combinator.specs.Pieces as Pieces;
ghost use Rattle.parsing_combinator.specs.Shape as Shape;
ghost use Rattle.parsing_layout.specs.Layout as Layout;

use crate::parts::{Names, Part};
use calendar_count::Weekday;
use description_modifiers::Padding;
use parsing_combinator::{
    any_byte, byte, digit_run, four_digits, fraction, fraction_between, long_month, long_number,
    long_weekday, one_digit, padded_two, period, short_month, short_weekday, sign, three_digits,
    two_digits,
};

// A number of so many digits, at most four.
#[inline(always)]
fn digits(count: usize, text: &[u8]) -> Option<(u64, &[u8])>
    ensures { IfSome result (λ x. Pieces.digits count text.now ≡ Some (x.0, x.1.now)) }
{
    match count {
        2 => {
            let (number, rest) = two_digits(text)?;
            Some((u64::from(number), rest))
        }
        4 => {
            let (number, rest) = four_digits(text)?;
            Some((u64::from(number), rest))
        }
        3 => {
            let (number, rest) = three_digits(text)?;
            Some((u64::from(number), rest))
        }
        1 => {
            let (number, rest) = one_digit(text)?;
            Some((u64::from(number), rest))
        }
        _ => None,
    }
}

// The most digits whose number always fits.
const MOST_DIGITS: usize = 19;

// The number of all digits, at least one: `None` where they are more than so many, or than always fit.
#[tactic(auto, using(crate::proofs::RunLemmas::run_taken))]
#[inline(always)]
fn run(most: usize, text: &[u8]) -> Option<(u64, &[u8])>
    ensures { IfSome result (λ x. Shape.taken (Shape.digits_between 1 most) text.now ≡ Some (x.0, x.1.now)) }
{
    let (digits, rest) = digit_run(text)?;
    if digits.len() > most.min(MOST_DIGITS) {
        return None;
    }
    Some((long_number(digits), rest))
}

// So many digits, at least one, as the nanoseconds of a fraction of a second.
#[tactic(auto, using(crate::proofs::RunLemmas::exact_taken))]
#[inline(always)]
fn exact_fraction(count: usize, text: &[u8]) -> Option<(u64, &[u8])>
    ensures { IfSome result (λ x. Layout.exact_fraction count text.now ≡ Some (x.0, x.1.now)) }
{
    if count > text.len() {
        return None;
    }
    let (digits, rest) = text.split_at(count);
    let (nanosecond, left) = fraction(digits)?;
    if !left.is_empty() {
        return None;
    }
    Some((u64::from(nanosecond), rest))
}

// A number of two digits, the first of which may be a space.
#[tactic(auto, using(crate::proofs::SpacedLemmas::after_space, crate::proofs::SpacedLemmas::without_space))]
#[inline(always)]
fn spaced(text: &[u8]) -> Option<(u8, &[u8])>
    ensures { IfSome result (λ x. Shape.taken (Shape.spaced_between 2 2) text.now ≡ Some (x.0, x.1.now)) }
{
    match byte(b' ', text) {
        Some(rest) => one_digit(rest),
        None => two_digits(text),
    }
}

// The number of a weekday, from 1 on Monday.
#[inline(always)]
fn weekday_number(weekday: Weekday) -> u64
    ensures { result ≡ Layout.weekday_number weekday }
{
    u64::from(weekday as u8) + 1
}

// The number of a name.
#[tactic(auto, unfolding(parsing_combinator::specs::Names::period))]
#[inline(always)]
fn name(names: Names, case_counts: bool, text: &[u8]) -> Option<(u64, &[u8])>
    ensures { IfSome result (λ x. Layout.name_piece names case_counts text.now ≡ Some (x.0, x.1.now)) }
{
    match names {
        Names::ShortMonth => {
            let (month, rest) = short_month(case_counts, text)?;
            Some((u64::from(month.number()), rest))
        }
        Names::LongMonth => {
            let (month, rest) = long_month(case_counts, text)?;
            Some((u64::from(month.number()), rest))
        }
        Names::ShortWeekday => {
            let (weekday, rest) = short_weekday(case_counts, text)?;
            Some((weekday_number(weekday), rest))
        }
        Names::LongWeekday => {
            let (weekday, rest) = long_weekday(case_counts, text)?;
            Some((weekday_number(weekday), rest))
        }
        Names::HalfOfDay => {
            let (is_later, rest) = period(true, case_counts, text)?;
            Some((if is_later { 1 } else { 0 }, rest))
        }
    }
}

/// The number that a part reads at the start of a text, or 0 for a byte, and what follows it: `None` says nothing of the text.
#[tactic(auto, unfolding(parsing_combinator::specs::Numbers::padded))]
#[inline(always)]
pub fn number_at(part: Part, text: &[u8]) -> Option<(u64, &[u8])>
    ensures reads { IfSome result (λ x. Layout.piece_of part text.now ≡ Some (x.0, x.1.now)) }
    ensures literal { IfSome result (λ x. Layout.field_of part ≡ None → x.0 ≡ 0) }
{
    match part {
        Part::Byte(wanted) => {
            let rest = byte(wanted, text)?;
            Some((0, rest))
        }
        Part::Any => {
            let rest = any_byte(text)?;
            Some((0, rest))
        }
        Part::Digits(_, count) => digits(count, text),
        Part::Bare(_) => {
            let (number, rest) = padded_two(Padding::None, text)?;
            Some((u64::from(number), rest))
        }
        Part::Spaced(_) => {
            let (number, rest) = spaced(text)?;
            Some((u64::from(number), rest))
        }
        Part::Name(names, case_counts) => name(names, case_counts, text),
        Part::Sign => {
            let (byte, rest) = sign(text)?;
            Some((u64::from(byte), rest))
        }
        Part::Fraction(count) => exact_fraction(count, text),
        Part::OpenFraction => {
            let (nanosecond, rest) = fraction_between(1, 32, text)?;
            Some((u64::from(nanosecond), rest))
        }
        Part::Run(_, most) => run(most, text),
    }
}

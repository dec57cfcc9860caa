//! The numbers of a text.
ghost use Rattle.std.specs.Prelude.{◌≡◌, ◌<◌, IfSome, option_map};
ghost use Rattle.std.specs.Int.{IsInRange};
ghost use Rattle.calendar_count.specs.Range.{IsYear};
ghost use Rattle.parsing_combinator.specs.Pieces.{cut_view};
ghost use Rattle.parsing_iso8601.specs.Numbers as Numbers;
ghost use Rattle.parsing_iso8601.specs.ReadView.{digits_view, AreDigits};

use calendar_count::{Month, Weekday};
use parsing_combinator::{
    digit_run, four_digits, one_digit, sign, six_digits, three_digits, two_digits,
};

// The digits of a fraction, where there is one.
#[tactic(auto, unfolding(crate::specs::Numbers::fraction_digits, crate::specs::Numbers::due_digits, crate::specs::Numbers::decimal_mark, parsing_combinator::specs::Pieces::skip_of))]
#[inline(always)]
fn fraction_digits(bytes: &[u8]) -> Option<(Option<&[u8]>, &[u8])>
    ensures cut { option_map (λ x. (digits_view x.0, x.1.now)) result
        ≡ Numbers.fraction_digits bytes.now }
    ensures all { IfSome result (λ x. AreDigits x.0) }
{
    match bytes {
        [b, after @ ..] if *b == b'.' || *b == b',' => {
            let (run, rest) = digit_run(after)?;
            Some((Some(run), rest))
        }
        _ => Some((None, bytes)),
    }
}

/// Two digits, and the digits of their fraction.
#[tactic(auto, unfolding(crate::specs::Numbers::number))]
#[inline(always)]
pub fn number(bytes: &[u8]) -> Option<((u8, Option<&[u8]>), &[u8])>
    ensures cut { option_map (λ x. ((x.0.0, digits_view x.0.1), x.1.now)) result
        ≡ Numbers.number bytes.now }
    ensures bound { IfSome result (λ x. x.0.0 < 100) }
    ensures all { IfSome result (λ x. AreDigits x.0.1) }
{
    let (value, rest) = two_digits(bytes)?;
    let (run, rest) = fraction_digits(rest)?;
    Some(((value, run), rest))
}

/// Two digits that write a number from 1 to 99.
#[tactic(auto, unfolding(crate::specs::Numbers::digits_within))]
#[inline(always)]
pub fn two_from_one(bytes: &[u8]) -> Option<(u8, &[u8])>
    ensures cut { cut_view result ≡ Numbers.digits_within 2 1 99 bytes.now }
    ensures bound { IfSome result (λ x. IsInRange 1 99 x.0) }
{
    two_digits(bytes).filter(|x| x.0 >= 1)
}

/// The two digits of a month.
#[tactic(auto, using(crate::proofs::Entries::month_entry, crate::proofs::Entries::past), unfolding(crate::specs::Numbers::numbered))]
#[inline(always)]
pub fn month(bytes: &[u8]) -> Option<(Month, &[u8])>
    ensures { cut_view result ≡ Numbers.numbered 2 Numbers.months bytes.now }
{
    let (value, rest) = two_digits(bytes)?;
    if value < 1 || value > 12 {
        return None;
    }
    Some((Month::from_number(value), rest))
}

/// The digit of a day of the week, from 1 for Monday.
#[tactic(auto, using(crate::proofs::Entries::weekday_entry, crate::proofs::Entries::past), unfolding(crate::specs::Numbers::numbered))]
#[inline(always)]
pub fn weekday(bytes: &[u8]) -> Option<(Weekday, &[u8])>
    ensures { cut_view result ≡ Numbers.numbered 1 Numbers.weekdays bytes.now }
{
    let (value, rest) = one_digit(bytes)?;
    if value < 1 || value > 7 {
        return None;
    }
    Some((Weekday::from_number(value - 1), rest))
}

/// Three digits, of which at least one isn't zero.
#[tactic(auto, unfolding(crate::specs::Numbers::digits_within))]
#[inline(always)]
pub fn ordinal(bytes: &[u8]) -> Option<(u16, &[u8])>
    ensures cut { cut_view result ≡ Numbers.digits_within 3 1 999 bytes.now }
    ensures bound { IfSome result (λ x. IsInRange 1 999 x.0) }
{
    three_digits(bytes).filter(|x| x.0 >= 1)
}

/// A year: four digits, or a sign and six.
#[tactic(auto, unfolding(crate::specs::Numbers::year, crate::specs::Numbers::signed_year, crate::specs::Numbers::plain_year))]
#[inline(always)]
pub fn year(bytes: &[u8]) -> Option<(i32, &[u8])>
    ensures cut { cut_view result ≡ Numbers.year bytes.now }
    ensures bound { IfSome result (λ x. IsYear x.0) }
{
    if let Some((mark, rest)) = sign(bytes) {
        let (value, rest) = six_digits(rest)?;
        let value = value as i32;
        return Some((if mark == b'-' { -value } else { value }, rest));
    }
    let (value, rest) = four_digits(bytes)?;
    Some((i32::from(value), rest))
}

//! Parts that are read one by one.
ghost use Rattle.std.specs.Prelude.{◌≡◌, ◌+◌, ◌*◌, ◌<◌, false, Some, IfSome};
ghost use Rattle.parsing_combinator.specs.Shape.{taken, digits_between, fraction_between};
ghost use Rattle.parsing_layout.specs.Layout.{exact_fraction, field_of, piece_of, value_of};
ghost use Rattle.parsing_layout.specs.declared.parts.Field.{Field};
ghost use Rattle.parsing_layout.specs.Said.{is_of};
ghost use Rattle.parsing_strides.specs.Found.{values_in};

use crate::found::Found;
use parsing_combinator::{nine_digits, one_digit};
use parsing_layout::{Field, Part, field_of, number_at};
use parsing_values::Fraction;

// All digits of a fraction of a second, at most nine.
#[inline(always)]
#[tactic(auto, using(crate::proofs::DigitLemmas::fraction_taken))]
fn open_fraction(text: &[u8]) -> Option<(Fraction, &[u8])>
    ensures taken { IfSome result
        (λ x. taken (fraction_between 1 32) text.now ≡ Some (x.0, x.1.now)) }
    ensures bound { IfSome result (λ x. x.0 < 1_000_000_000) }
{
    Fraction::read(text)
}

// So many digits of a fraction of a second, at most nine.
#[inline(always)]
fn fraction_of(count: usize, text: &[u8]) -> Option<(Fraction, &[u8])>
    ensures cut { IfSome result (λ x. exact_fraction count text.now ≡ Some (x.0, x.1.now)) }
    ensures bound { IfSome result (λ x. x.0 < 1_000_000_000) }
{
    if count > text.len() {
        return None;
    }
    let (digits, rest) = text.split_at(count);
    let Some(read) = Fraction::read(digits) else {
        return None;
    };
    let (fraction, left) = read;
    if !left.is_empty() {
        return None;
    }
    Some((fraction, rest))
}

// A number of ten digits, where so many may stand.
#[inline(always)]
#[tactic(auto, using(crate::proofs::DigitLemmas::ten_taken))]
fn ten_digits(most: usize, text: &[u8]) -> Option<(u64, &[u8])>
    ensures { IfSome result (λ x. taken (digits_between 1 most) text.now ≡ Some (x.0, x.1.now)) }
{
    if most < 10 {
        return None;
    }
    let (first, rest) = one_digit(text)?;
    let (last, rest) = nine_digits(rest)?;
    if one_digit(rest).is_some() {
        return None;
    }
    Some((u64::from(first) * 1_000_000_000 + u64::from(last), rest))
}

// Reads the number of a part.
#[inline(always)]
fn read_number<'l>(part: Part, text: &'l [u8], found: &mut Found) -> Option<&'l [u8]>
    ensures says { IfSome result (λ rest. piece_of part text.now
        ≡ Some (value_of part (values_in found.new), rest.now)) }
    ensures kept { (f : Field) → is_of f (field_of part) ≡ false
        → values_in found.new f ≡ values_in found.old f }
{
    let (number, rest) = number_at(part, text)?;
    let Some(field) = field_of(part) else {
        return Some(rest);
    };
    if !found.put(field, number) {
        return None;
    }
    Some(rest)
}

/// Reads a part at the start of a text, and returns what follows it: `None` says nothing of the text.
#[inline(always)]
pub(crate) fn read_part<'l>(part: Part, text: &'l [u8], found: &mut Found) -> Option<&'l [u8]>
    ensures says { IfSome result (λ rest. piece_of part text.now
        ≡ Some (value_of part (values_in found.new), rest.now)) }
    ensures kept { (f : Field) → is_of f (field_of part) ≡ false
        → values_in found.new f ≡ values_in found.old f }
{
    match part {
        Part::OpenFraction => {
            let Some((fraction, rest)) = open_fraction(text) else {
                return None;
            };
            found.fraction = fraction;
            Some(rest)
        }
        Part::Fraction(count) => {
            let Some((fraction, rest)) = fraction_of(count, text) else {
                return None;
            };
            found.fraction = fraction;
            Some(rest)
        }
        Part::Run(Field::Unix, most) => {
            let (number, rest) = ten_digits(most, text)?;
            found.unix = number;
            Some(rest)
        }
        _ => read_number(part, text, found),
    }
}

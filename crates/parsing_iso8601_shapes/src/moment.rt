//! The moment that a text names.
ghost use Rattle.std.specs.Prelude.{◌≡◌, ◌<◌, IfSome, true};
ghost use Rattle.parsing_values.specs.Moment.{moment_of};
ghost use Rattle.parsing_shapes.specs.Shape.{fits};
ghost use Rattle.parsing_iso8601_shapes.specs.Layout.{AreDated, front_parts};
ghost use Rattle.parsing_iso8601.specs.Fractions.{next_if};
ghost use Rattle.parsing_iso8601.specs.Moment.{IsOfOffset};

use crate::calendar_days::{of_weeks, of_year};
use crate::form::{Dating, Form};
use crate::forms::{form_at, form_of};
use parsing_places::LANES;
use parsing_shapes::{Numbers, read_long_numbers, read_numbers};
use parsing_values::{Fields, Fraction, OffsetDateTime};

// The fields of the numbers of a text, where their date is one of a form.
#[inline(always)]
fn fields_of(dating: Dating, numbers: Numbers) -> Option<Fields>
    ensures { IfSome result (AreDated dating numbers) }
{
    match dating {
        Dating::Calendar => numbers.on_day(numbers.high, numbers.low),
        Dating::Ordinal => {
            let (month, day) = of_year(numbers.year, numbers.high, numbers.low)?;
            Some(numbers.on(month, day))
        }
        Dating::Week => {
            let (month, day) = of_weeks(numbers.year, numbers.high, numbers.low)?;
            Some(numbers.on(month, day))
        }
    }
}

// The fields of a text that has a form, and whose offset has a colon or none.
#[inline(always)]
fn read_form(form: &Form, has_colon: bool, has_second: bool, input: &[u8]) -> Option<Fields>
    requires made { fits form.now.shape (front_parts form.now.dating form.now.is_extended has_second) ≡ true }
    requires colon { has_colon ≡ true → form.now.is_extended ≡ true }
    ensures { IfSome result (λ fields. IsOfOffset input.now (moment_of fields)) }
{
    let numbers = read_numbers(&form.shape, has_colon, has_second, input)?;
    let fields = fields_of(form.dating, numbers)?;
    Some(fields)
}

// A fraction, or the next one: after the last one of a second there is none.
#[inline(always)]
fn rounded(fraction: Fraction, is_up: bool) -> Option<Fraction>
    requires { fraction < 1_000_000_000 }
    ensures value { IfSome result (λ f. f ≡ next_if is_up fraction) }
    ensures bound { IfSome result (λ f. f < 1_000_000_000) }
{
    if !is_up {
        return Some(fraction);
    }
    let nanosecond = fraction.nanosecond();
    if nanosecond >= 999_999_999 {
        return None;
    }
    Some(Fraction::new(nanosecond + 1))
}

// The fields of a text that has a form, with more than nine digits of a fraction: the tenth one rounds it.
#[inline(always)]
fn read_long_form(form: &Form, input: &[u8]) -> Option<Fields>
    requires { fits form.now.shape (front_parts form.now.dating form.now.is_extended true) ≡ true }
    ensures { IfSome result (λ fields. IsOfOffset input.now (moment_of fields)) }
{
    let mut numbers = read_long_numbers(&form.shape, form.is_extended, input)?;
    let is_up = input[form.shape.length + 10] >= b'5';
    numbers.fraction = rounded(numbers.fraction, is_up)?;
    let fields = fields_of(form.dating, numbers)?;
    Some(fields)
}

/// The fields of a text with a second, where the fast way finds them: `None` says nothing of the text.
///
/// It finds those of a date of any kind in a year of four digits, a time of day without a leap second, after it maybe a point and at
/// most nine digits, and an offset of less than 20 hours to the minute.
#[inline(always)]
pub fn read_usual_fields(input: &[u8]) -> Option<Fields>
    ensures { IfSome result (λ fields. IsOfOffset input.now (moment_of fields)) }
{
    if input.len() < LANES {
        return None;
    }
    let form = form_at(form_of(input), true);
    read_form(&form, form.is_extended, true, input)
}

/// The fields of a text without a second, where the fast way finds them: `None` says nothing of the text.
#[inline(always)]
pub fn read_fields_to_minute(input: &[u8]) -> Option<Fields>
    ensures { IfSome result (λ fields. IsOfOffset input.now (moment_of fields)) }
{
    if input.len() < LANES {
        return None;
    }
    let form = form_at(form_of(input), false);
    read_form(&form, form.is_extended, false, input)
}

/// The fields of a text with more than nine digits of a fraction of a second, or with an offset that has no colon after an extended
/// date, where the fast way finds them: `None` says nothing of the text.
#[inline(always)]
pub fn read_rare_fields(input: &[u8]) -> Option<Fields>
    ensures { IfSome result (λ fields. IsOfOffset input.now (moment_of fields)) }
{
    if input.len() < LANES {
        return None;
    }
    let form = form_at(form_of(input), true);
    // (the sign of an offset without a colon is the fifth byte from the end)
    let sign = input[input.len() - 5];
    let fields = if form.is_extended && (sign == b'+' || sign == b'-') {
        read_form(&form, false, true, input)?
    } else {
        read_long_form(&form, input)?
    };
    Some(fields)
}

// The fields of a text of one of these two kinds, in a call of its own, so that `read_fields` stays small.
#[inline(never)]
fn read_others(input: &[u8]) -> Option<Fields>
    ensures { IfSome result (λ fields. IsOfOffset input.now (moment_of fields)) }
{
    match read_fields_to_minute(input) {
        Some(fields) => Some(fields),
        None => read_rare_fields(input),
    }
}

/// The fields of a text, where the fast way finds them: `None` says nothing of the text.
///
/// It finds those of most texts, with a second or without.
#[inline(always)]
pub fn read_fields(input: &[u8]) -> Option<Fields>
    ensures { IfSome result (λ fields. IsOfOffset input.now (moment_of fields)) }
{
    match read_usual_fields(input) {
        Some(fields) => Some(fields),
        None => read_others(input),
    }
}

/// The moment that a text of ISO 8601 names, where the fast way finds one: `None` says nothing of the text.
#[inline(always)]
pub fn read_fast(input: &[u8]) -> Option<OffsetDateTime>
    ensures { IfSome result (IsOfOffset input.now) }
{
    let fields = read_fields(input)?;
    Some(fields.moment())
}

//! The fields of texts such as `Tue, 01 Jul 2003 10:52:37 +0200`.
//!
//! From its day on a text has one of four layouts, each with a day of two digits or of one: the usual one, which may have white
//! space and comments at its end, one with a zone's name, one without seconds, and one with a year of two digits. Before the day
//! of other texts than the usual one a weekday may be missing, or have two spaces after it.
ghost use Rattle.std.specs.Prelude.{◌≡◌, ◌≤◌, ◌+◌, ◌⊎◌, if◌then◌else◌, nat_lt, [], drop, length, true, IfSome, List, Ok};
ghost use Rattle.parsing_values.specs.Moment.{moment_of};
ghost use Rattle.parsing_values.specs.Numbers.{HaveNumbers};
ghost use Rattle.parsing_layout.specs.declared.parts.Part.{Part};
ghost use Rattle.parsing_shapes.specs.Shape.{fits};
ghost use Rattle.parsing_rfc2822.specs.Direct.{direct};
ghost use Rattle.parsing_rfc2822.specs.Skips as Skips;
ghost use Rattle.parsing_rfc2822.specs.WhiteSpace as White;
ghost use Rattle.parsing_rfc2822_shapes.specs.Layout.{BeginsDay, HasZone, IsNamed, SaysDate, SaysFields};
ghost use Rattle.parsing_rfc2822_shapes.specs.Layout.{from_day, short_from_day};

use crate::letters::{has_weekday, month_number};
use crate::shape::{
    ONE_DIGIT_NAMED, ONE_DIGIT_SHORT_YEAR, ONE_DIGIT_USUAL, ONE_DIGIT_WITHOUT_SECOND,
    TWO_DIGITS_NAMED, TWO_DIGITS_SHORT_YEAR, TWO_DIGITS_USUAL, TWO_DIGITS_WITHOUT_SECOND,
};
use parsing_combinator::two_digits as digit_pair;
use parsing_rfc2822::{is_plain_comment, past_spacing, zone_of};
use parsing_shapes::{Shape, read_named_moment};
use parsing_values::{Fields, OffsetDateTime, Year, has_day, offset_minutes};

// The first year that four digits may write.
const FIRST_YEAR: u16 = 1900;

// Where the day begins: after a weekday, a comma, and one space or two, or at once.
#[inline(always)]
fn at_day(input: &[u8]) -> Option<&[u8]>
    requires { 8 ≤ length input.now }
    ensures begins { IfSome result (λ text. BeginsDay input.now text.now) }
    ensures long { IfSome result (λ text. 2 ≤ length text.now) }
{
    if input[0] <= b'9' {
        return Some(input);
    }
    if !has_weekday(input) {
        return None;
    }
    if input[5] == b' ' {
        return Some(&input[6..]);
    }
    Some(&input[5..])
}

// The fields that a shape tells of a text that begins with its day, of so many digits.
#[inline(always)]
fn read_shape(shape: &Shape, count: usize, text: &[u8]) -> Option<Fields>
    requires named { IsNamed shape.now }
    requires long { shape.now.length ≤ length text.now }
    requires room { count + 4 ≤ length text.now }
    ensures { (time : List Part) → fits shape.now (from_day count time) ≡ true
        → IfSome result (SaysDate count time text.now (drop shape.now.length text.now)) }
{
    let month = month_number(&text[count..])?;
    let fields = read_named_moment(shape, month, text)?;
    if fields.year.is_before(Year::new(FIRST_YEAR)) {
        return None;
    }
    Some(fields)
}

// Whether nothing but white space and comments is there.
#[inline(always)]
fn is_spacing(rest: &[u8]) -> bool
    ensures { result ≡ true → Skips.optional White.comments_and_white_space rest.now ≡ [] }
{
    if is_plain_comment(rest) {
        return true;
    }
    past_spacing(rest).is_empty()
}

// The fields of a text that begins with its day and ends with an offset in digits, with single spaces and all numbers of the
// clock.
#[inline(always)]
fn read_usual(text: &[u8]) -> Option<Fields>
    requires low { 25 ≤ length text.now }
    requires high { length text.now ≤ 26 }
    ensures { IfSome result (SaysFields text.now) }
{
    if text.len() == 25 {
        return read_shape(&ONE_DIGIT_USUAL, 1, text);
    }
    read_shape(&TWO_DIGITS_USUAL, 2, text)
}

// The same with white space or comments after the offset.
#[inline(always)]
fn read_spaced(text: &[u8]) -> Option<Fields>
    requires { 27 ≤ length text.now }
    ensures { IfSome result (SaysFields text.now) }
{
    if text[1] == b' ' {
        if !is_spacing(&text[25..]) {
            return None;
        }
        return read_shape(&ONE_DIGIT_USUAL, 1, text);
    }
    if !is_spacing(&text[26..]) {
        return None;
    }
    read_shape(&TWO_DIGITS_USUAL, 2, text)
}

// The fields with the zone that three letters after a space name.
#[inline(always)]
fn with_name(mut fields: Fields, end: &[u8]) -> Option<Fields>
    requires { length end.now ≡ 4 }
    ensures { IfSome result (HasZone fields end.now) }
{
    if end[0] != b' ' || end[1] < b'A' {
        return None;
    }
    let hours = zone_of(&end[1..])?;
    fields.offset = i32::from(offset_minutes(true, hours, 0));
    Some(fields)
}

// Fields at the full minute.
#[inline(always)]
fn at_minute(mut fields: Fields) -> Fields
    ensures { HaveNumbers result fields.year fields.month fields.day fields.minute 0
        fields.fraction fields.offset }
{
    fields.second = 0;
    fields
}

// The year from 1950 to 2049 that two digits name.
#[inline(always)]
fn full_year(year: u8) -> Year
    requires { year ≤ 99 }
    ensures value { result ≡ (if nat_lt year 50 then year + 2000 else year + 1900) }
    ensures bound { result ≤ 9999 }
{
    if year < 50 {
        return Year::new(u16::from(year) + 2000);
    }
    Year::new(u16::from(year) + 1900)
}

// The fields that a shape tells of a text that begins with its day, of so many digits, and has a year of two digits. (The year of
// its lanes is that of other digits, in which a 29 February may be missing: such a text is left to the exact way.)
#[inline(always)]
fn read_short_shape(shape: &Shape, count: usize, text: &[u8]) -> Option<Fields>
    requires named { IsNamed shape.now }
    requires whole { length text.now ≡ shape.now.length }
    requires room { count + 6 ≤ length text.now }
    ensures { (count ≡ 1) ⊎ (count ≡ 2) → fits shape.now (short_from_day count) ≡ true
        → IfSome result (SaysFields text.now) }
{
    let month = month_number(&text[count..])?;
    let (year, _) = digit_pair(&text[count + 5..])?;
    let mut date = read_named_moment(shape, month, text)?;
    let year = full_year(year);
    if !has_day(year, date.month, date.day) {
        return None;
    }
    date.year = year;
    Some(date)
}

// The fields of a text that begins with its day, by how many bytes it has. (The name of a zone ends with a letter.)
#[inline(always)]
fn read_from_day(text: &[u8]) -> Option<Fields>
    ensures { IfSome result (SaysFields text.now) }
{
    match text.len() {
        25 | 26 => read_usual(text),
        0..=21 => None,
        // with a zone's name
        23 if text[22] > b'9' => with_name(read_shape(&ONE_DIGIT_NAMED, 1, text)?, &text[19..]),
        24 if text[23] > b'9' => with_name(read_shape(&TWO_DIGITS_NAMED, 2, text)?, &text[20..]),
        // with no second, or with a year of two digits
        22 => Some(at_minute(read_shape(&ONE_DIGIT_WITHOUT_SECOND, 1, text)?)),
        23 if text[1] == b' ' => read_short_shape(&ONE_DIGIT_SHORT_YEAR, 1, text),
        23 => Some(at_minute(read_shape(&TWO_DIGITS_WITHOUT_SECOND, 2, text)?)),
        24 => read_short_shape(&TWO_DIGITS_SHORT_YEAR, 2, text),
        // with white space or comments after an offset
        _ => read_spaced(text),
    }
}

/// The fields of a text of another shape than the usual one: with a zone's name, two spaces after the comma, no seconds, a year
/// of two digits, or a comment at the end. `None` says nothing of the text.
// A call of its own, so that `read_fields` stays small enough to be inlined into a loop over lines.
#[inline(never)]
pub fn read_other_fields(input: &[u8]) -> Option<Fields>
    ensures { IfSome result (λ fields. direct input.now ≡ Ok (moment_of fields)) }
{
    if input.len() < 8 {
        return None;
    }
    let text = at_day(input)?;
    read_from_day(text)
}

/// The fields of a text with a weekday, single spaces between its parts, all numbers of the clock, and an offset in digits, where
/// its numbers are in range and its second is no leap second: `None` says nothing of the text.
#[inline(always)]
pub fn read_usual_fields(input: &[u8]) -> Option<Fields>
    ensures { IfSome result (λ fields. direct input.now ≡ Ok (moment_of fields)) }
{
    if input.len() != 30 && input.len() != 31 {
        return None;
    }
    if !has_weekday(input) {
        return None;
    }
    read_usual(&input[5..])
}

/// The fields of a text, where all its numbers are in range and its second is no leap second: `None` says nothing of the
/// text.
#[inline(always)]
pub fn read_fields(input: &[u8]) -> Option<Fields>
    ensures { IfSome result (λ fields. direct input.now ≡ Ok (moment_of fields)) }
{
    match read_usual_fields(input) {
        Some(fields) => Some(fields),
        None => read_other_fields(input),
    }
}

/// The moment that a text names, where the fast way finds one: `None` says nothing of the text.
#[inline(always)]
pub fn read_fast(input: &[u8]) -> Option<OffsetDateTime>
    ensures { IfSome result (λ moment. direct input.now ≡ Ok moment) }
{
    let fields = read_fields(input)?;
    Some(fields.moment())
}

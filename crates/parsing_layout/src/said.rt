//! The fields whose numbers parts say.
ghost use Rattle.std.specs.Prelude.{◌≡◌, ◌<◌};
ghost use Rattle.parsing_layout.specs.Layout.{name_field, field_of};
ghost use Rattle.parsing_layout.specs.Said.{are_apart, fields_of, is_of, place_of, says_again};

use crate::parts::{Field, Names, Part};

/// The place of a field: no two fields have one.
#[inline(always)]
pub fn place_of(field: Field) -> usize
    ensures place { result ≡ place_of field }
    ensures bound { result < 17 }
{
    match field {
        Field::Month => 0,
        Field::Day => 1,
        Field::Weekday => 2,
        Field::Hour => 3,
        Field::HourOfHalf => 4,
        Field::Half => 5,
        Field::Minute => 6,
        Field::Second => 7,
        Field::Sign => 8,
        Field::OffsetHour => 9,
        Field::OffsetMinute => 10,
        Field::IsoWeek => 11,
        Field::OrdinalTens => 12,
        Field::OrdinalOnes => 13,
        Field::Year => 14,
        Field::Nanosecond => 15,
        Field::Unix => 16,
    }
}

// The field of a name.
#[inline(always)]
fn name_field(names: Names) -> Field
    ensures { result ≡ name_field names }
{
    match names {
        Names::ShortMonth | Names::LongMonth => Field::Month,
        Names::ShortWeekday | Names::LongWeekday => Field::Weekday,
        Names::HalfOfDay => Field::Half,
    }
}

/// The field whose number a part says.
#[inline(always)]
pub fn field_of(part: Part) -> Option<Field>
    ensures { result ≡ field_of part }
{
    match part {
        Part::Byte(_) | Part::Any => None,
        Part::Digits(field, _) | Part::Bare(field) | Part::Spaced(field) | Part::Run(field, _) => {
            Some(field)
        }
        Part::Name(names, _) => Some(name_field(names)),
        Part::Sign => Some(Field::Sign),
        Part::Fraction(_) | Part::OpenFraction => Some(Field::Nanosecond),
    }
}

// Whether a part says the number of a field.
fn is_of(field: Field, part: Part) -> bool
    ensures { result ≡ is_of field (field_of part) }
{
    match field_of(part) {
        Some(other) => place_of(other) == place_of(field),
        None => false,
    }
}

/// Whether parts say the number of a field.
pub fn say(parts: &[Part], field: Field) -> bool
    ensures { result ≡ fields_of parts.now field }
{
    let [part, others @ ..] = parts else {
        return false;
    };
    is_of(field, *part) || say(others, field)
}

// Whether a part says the number of a field that one of these says.
fn says_again(parts: &[Part], part: Part) -> bool
    ensures { result ≡ says_again parts.now (field_of part) }
{
    match field_of(part) {
        Some(field) => say(parts, field),
        None => false,
    }
}

/// Whether parts say the number of no field twice.
pub fn are_apart(parts: &[Part]) -> bool
    ensures { result ≡ are_apart parts.now }
{
    let [part, others @ ..] = parts else {
        return true;
    };
    !says_again(others, *part) && are_apart(others)
}

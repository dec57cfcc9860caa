//! asctime's date: `Sun Nov  6 08:49:37 1994`, in UTC (RFC 9110, section 5.6.7).
ghost use Rattle.std.specs.Prelude.{◌≡◌, Ok, IfSome};
ghost use Rattle.parsing_combinator.specs.FaultOf.{Gives, fault_of, reading_fault};
ghost use Rattle.parsing_combinator.specs.Readings.{value_read};
ghost use Rattle.parsing_values.specs.Moment as Moment;
ghost use Rattle.asctime_tests.specs.Asctime.{asctime, numbers, moment_of};

use calendar::{Time, UtcOffset};
use calendar_count::Month;
use description_modifiers::Padding;
use parsing_combinator::ParseFromDescription::{InvalidComponent, InvalidLiteral};
use parsing_combinator::{
    Parse, ParseFromDescription, byte, four_digits, padded_two, short_month, short_weekday,
    two_digits,
};
use parsing_layout::{Field, Item, Names, Part};
use parsing_strides::{Found, Strides};
use parsing_values::{Fields, Fraction, OffsetDateTime, minute_of_day, resolve};

// The parts of a text, one after another.
static ITEMS: [Item; 13] = [
    Item::Part(Part::Name(Names::ShortWeekday, true)),
    Item::Part(Part::Byte(b' ')),
    Item::Part(Part::Name(Names::ShortMonth, true)),
    Item::Part(Part::Byte(b' ')),
    Item::Part(Part::Spaced(Field::Day)),
    Item::Part(Part::Byte(b' ')),
    Item::Part(Part::Digits(Field::Hour, 2)),
    Item::Part(Part::Byte(b':')),
    Item::Part(Part::Digits(Field::Minute, 2)),
    Item::Part(Part::Byte(b':')),
    Item::Part(Part::Digits(Field::Second, 2)),
    Item::Part(Part::Byte(b' ')),
    Item::Part(Part::Digits(Field::Year, 4)),
];

/// The fields of a text, where its numbers are in range: `None` says nothing of the text.
pub fn read_fields(text: &[u8]) -> Option<Fields>
    ensures { IfSome result (λ fields. asctime text.now ≡ Ok (Moment.moment_of fields)) }
{
    let strides = Strides::of_items(&ITEMS)?;
    let mut found = Found::usual();
    let rest = strides.read(text, &mut found)?;
    if !rest.is_empty() {
        return None;
    }
    let minute = minute_of_day(found.get(Field::Hour), found.get(Field::Minute))?;
    let (month, day) = (found.get(Field::Month), found.get(Field::Day));
    let (second, fraction) = (found.get(Field::Second), Fraction::new(0));
    Fields::new(found.year(), month, day, minute, second, fraction, 0)
}

// The year, the month, the day, and the time of day.
type Numbers = (u16, Month, u8, u8, u8, u8);

// The numbers of a text, and what follows them.
#[tactic(auto, unfolding(crate::specs::Asctime::numbers, parsing_combinator::specs::Numbers::padded))]
fn numbers(text: &[u8]) -> Result<(Numbers, &[u8]), ParseFromDescription>
    ensures { Gives (λ x. (x.0, x.1.now)) reading_fault result (numbers text.now) }
{
    let (_, rest) = short_weekday(true, text).ok_or(InvalidComponent("weekday"))?;
    let rest = byte(b' ', rest).ok_or(InvalidLiteral)?;
    let (month, rest) = short_month(true, rest).ok_or(InvalidComponent("month"))?;
    let rest = byte(b' ', rest).ok_or(InvalidLiteral)?;
    let (day, rest) = padded_two(Padding::Space, rest).ok_or(InvalidComponent("day"))?;
    let rest = byte(b' ', rest).ok_or(InvalidLiteral)?;
    let (hour, rest) = two_digits(rest).ok_or(InvalidComponent("hour"))?;
    let rest = byte(b':', rest).ok_or(InvalidLiteral)?;
    let (minute, rest) = two_digits(rest).ok_or(InvalidComponent("minute"))?;
    let rest = byte(b':', rest).ok_or(InvalidLiteral)?;
    let (second, rest) = two_digits(rest).ok_or(InvalidComponent("second"))?;
    let rest = byte(b' ', rest).ok_or(InvalidLiteral)?;
    let (year, rest) = four_digits(rest).ok_or(InvalidComponent("year"))?;
    Ok(((year, month, day, hour, minute, second), rest))
}

// The moment of the numbers that a text has, with what follows them.
#[tactic(auto, unfolding(crate::specs::Asctime::moment_of))]
fn resolved(numbers: Numbers, rest: &[u8]) -> Result<OffsetDateTime, Parse>
    ensures { Gives (λ d. d) fault_of result (value_read (moment_of numbers rest.now)) }
{
    let (year, month, day, hour, minute, second) = numbers;
    if !rest.is_empty() {
        return Err(ParseFromDescription::UnexpectedTrailingCharacters.into());
    }
    let date = resolve::date(i32::from(year), month.number(), day)?;
    let time = Time::from_hms_nano(hour, minute, second, 0)?;
    Ok(OffsetDateTime::new_in_offset(date, time, UtcOffset::UTC))
}

/// The moment that a text names, or its first fault.
#[tactic(auto, unfolding(crate::specs::Asctime::asctime))]
pub fn read_exact(text: &[u8]) -> Result<OffsetDateTime, Parse>
    ensures { Gives (λ d. d) fault_of result (asctime text.now) }
{
    let (numbers, rest) = numbers(text)?;
    resolved(numbers, rest)
}

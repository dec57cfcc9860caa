//! The values of modifiers.

ghost use Rattle.std.specs.Prelude.{◌≡◌, map};
ghost use Rattle.std.specs.Char.{is_ascii_digit};
ghost use Rattle.std.specs.List.{list_all};
ghost use Rattle.description_tables.specs.Values.{reprs, count_of};

use crate::names::Name;
use description_items::modifier::{
    Padding, SubsecondDigits, TrailingInput, UnixTimestampPrecision, YearRange,
};

/// What `repr` may say, of whatever component.
#[derive(Clone, Copy)]
pub enum Repr {
    Numerical,
    Long,
    Short,
    Sunday,
    Monday,
    Iso,
    Full,
    Century,
    LastTwo,
    TwentyFour,
    Twelve,
}

/// How a number is filled up.
pub static PADDINGS: [(&str, Padding); 3] = [
    ("zero", Padding::Zero),
    ("space", Padding::Space),
    ("none", Padding::None),
];

/// Yes or no.
pub static FLAGS: [(&str, bool); 2] = [("true", true), ("false", false)];

/// Whether the year is that of the ISO 8601 week.
pub static BASES: [(&str, bool); 2] = [("calendar", false), ("iso_week", true)];

/// Whether the sign must be written.
pub static SIGNS: [(&str, bool); 2] = [("automatic", false), ("mandatory", true)];

/// How far the years go.
pub static RANGES: [(&str, YearRange); 2] = [
    ("standard", YearRange::Standard),
    ("extended", YearRange::Extended),
];

/// Whether capitals are written.
pub static CASES: [(&str, bool); 2] = [("upper", true), ("lower", false)];

/// How many digits are written.
pub static DIGIT_COUNTS: [(&str, SubsecondDigits); 10] = [
    ("1+", SubsecondDigits::OneOrMore),
    ("1", SubsecondDigits::One),
    ("2", SubsecondDigits::Two),
    ("3", SubsecondDigits::Three),
    ("4", SubsecondDigits::Four),
    ("5", SubsecondDigits::Five),
    ("6", SubsecondDigits::Six),
    ("7", SubsecondDigits::Seven),
    ("8", SubsecondDigits::Eight),
    ("9", SubsecondDigits::Nine),
];

/// The unit of a timestamp.
pub static PRECISIONS: [(&str, UnixTimestampPrecision); 4] = [
    ("second", UnixTimestampPrecision::Second),
    ("millisecond", UnixTimestampPrecision::Millisecond),
    ("microsecond", UnixTimestampPrecision::Microsecond),
    ("nanosecond", UnixTimestampPrecision::Nanosecond),
];

/// What becomes of text that follows.
pub static TRAILING_INPUTS: [(&str, TrailingInput); 2] = [
    ("prohibit", TrailingInput::Prohibit),
    ("discard", TrailingInput::Discard),
];

/// How a component is written: each component has words of its own.
pub fn reprs(name: Name) -> &'static [(&'static str, Repr)]
    ensures { map (λ entry. (entry.0.now, entry.1)) result.now ≡ reprs name }
{
    match name {
        Name::Month => &[
            ("numerical", Repr::Numerical),
            ("long", Repr::Long),
            ("short", Repr::Short),
        ],
        Name::Weekday => &[
            ("short", Repr::Short),
            ("long", Repr::Long),
            ("sunday", Repr::Sunday),
            ("monday", Repr::Monday),
        ],
        Name::WeekNumber => &[
            ("iso", Repr::Iso),
            ("sunday", Repr::Sunday),
            ("monday", Repr::Monday),
        ],
        Name::Year => &[
            ("full", Repr::Full),
            ("century", Repr::Century),
            ("last_two", Repr::LastTwo),
        ],
        Name::Hour => &[("24", Repr::TwentyFour), ("12", Repr::Twelve)],
        _ => &[],
    }
}

fn are_digits(word: &[u8]) -> bool
    ensures { result ≡ list_all is_ascii_digit word.now }
{
    word.iter().all(u8::is_ascii_digit)
}

/// A number from 1 to 65535 in ASCII digits.
#[tactic(auto, unfolding(crate::specs::Values::count_of))]
pub fn count_of(word: &str) -> Option<u16>
    ensures { result ≡ count_of word.now }
{
    if !are_digits(word.as_bytes()) {
        return None;
    }
    let Ok(count) = word.parse::<u16>() else {
        return None;
    };
    if count == 0 { None } else { Some(count) }
}

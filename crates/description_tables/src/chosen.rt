//! What modifiers have chosen.

ghost use Rattle.std.specs.Prelude.{◌≡◌, Some, None, if◌then◌else◌};
ghost use Rattle.description_tables.specs.Chosen.{nothing, with_value, is_chosen, is_carried};

use crate::keys::Key;
use crate::lookup::lookup;
use crate::names::Name;
use crate::values::{
    BASES, CASES, DIGIT_COUNTS, FLAGS, PADDINGS, PRECISIONS, RANGES, Repr, SIGNS, TRAILING_INPUTS,
    count_of, reprs,
};
use description_items::modifier::{
    Padding, SubsecondDigits, TrailingInput, UnixTimestampPrecision, YearRange,
};
use description_lexer::DescriptionVersion;

/// The values chosen so far, by their keys.
#[derive(Clone, Copy)]
pub struct Chosen {
    pub padding: Option<Padding>,
    pub repr: Option<Repr>,
    pub case_sensitive: Option<bool>,
    pub one_indexed: Option<bool>,
    /// Whether the year is that of the ISO 8601 week.
    pub base: Option<bool>,
    /// Whether the sign must be written.
    pub sign: Option<bool>,
    pub range: Option<YearRange>,
    /// Whether capitals are written.
    pub case: Option<bool>,
    pub digits: Option<SubsecondDigits>,
    pub count: Option<u16>,
    pub precision: Option<UnixTimestampPrecision>,
    pub trailing_input: Option<TrailingInput>,
}

/// No value yet.
pub fn nothing() -> Chosen
    ensures { result ≡ nothing }
{
    Chosen {
        padding: None,
        repr: None,
        case_sensitive: None,
        one_indexed: None,
        base: None,
        sign: None,
        range: None,
        case: None,
        digits: None,
        count: None,
        precision: None,
        trailing_input: None,
    }
}

// The chosen values with what the word names for the key, if anything, in place of the earlier one.
fn looked_up(
    version: DescriptionVersion,
    name: Name,
    mut chosen: Chosen,
    key: Key,
    word: &str,
) -> Chosen
    ensures { with_value version name chosen key word.now
        ≡ (if is_chosen result key then Some result else None) }
{
    match key {
        Key::Padding => chosen.padding = lookup(version, &PADDINGS, word),
        Key::Repr => chosen.repr = lookup(version, reprs(name), word),
        Key::CaseSensitive => chosen.case_sensitive = lookup(version, &FLAGS, word),
        Key::OneIndexed => chosen.one_indexed = lookup(version, &FLAGS, word),
        Key::Base => chosen.base = lookup(version, &BASES, word),
        Key::Sign => chosen.sign = lookup(version, &SIGNS, word),
        Key::Range => chosen.range = lookup(version, &RANGES, word),
        Key::Case => chosen.case = lookup(version, &CASES, word),
        Key::Digits => chosen.digits = lookup(version, &DIGIT_COUNTS, word),
        Key::Count => chosen.count = count_of(word),
        Key::Precision => chosen.precision = lookup(version, &PRECISIONS, word),
        Key::TrailingInput => chosen.trailing_input = lookup(version, &TRAILING_INPUTS, word),
    }
    chosen
}

/// The chosen values with one more, if the word is one of the key's.
pub fn with_value(
    version: DescriptionVersion,
    name: Name,
    chosen: Chosen,
    key: Key,
    word: &str,
) -> Option<Chosen>
    ensures { result ≡ with_value version name chosen key word.now }
{
    let chosen = looked_up(version, name, chosen, key, word);
    if is_chosen(chosen, key) {
        Some(chosen)
    } else {
        None
    }
}

/// Whether the key has a value already.
pub fn is_chosen(chosen: Chosen, key: Key) -> bool
    ensures { result ≡ is_chosen chosen key }
{
    match key {
        Key::Padding => chosen.padding.is_some(),
        Key::Repr => chosen.repr.is_some(),
        Key::CaseSensitive => chosen.case_sensitive.is_some(),
        Key::OneIndexed => chosen.one_indexed.is_some(),
        Key::Base => chosen.base.is_some(),
        Key::Sign => chosen.sign.is_some(),
        Key::Range => chosen.range.is_some(),
        Key::Case => chosen.case.is_some(),
        Key::Digits => chosen.digits.is_some(),
        Key::Count => chosen.count.is_some(),
        Key::Precision => chosen.precision.is_some(),
        Key::TrailingInput => chosen.trailing_input.is_some(),
    }
}

/// Whether the modifier says anything of the component as it was chosen.
pub fn is_carried(name: Name, chosen: Chosen, key: Key) -> bool
    ensures { result ≡ is_carried name chosen.repr key }
{
    match (name, key) {
        (Name::Month, Key::Padding) => !matches!(chosen.repr, Some(Repr::Long | Repr::Short)),
        (Name::Month, Key::CaseSensitive) => matches!(chosen.repr, Some(Repr::Long | Repr::Short)),
        (Name::Weekday, Key::CaseSensitive) => {
            !matches!(chosen.repr, Some(Repr::Sunday | Repr::Monday))
        }
        (Name::Weekday, Key::OneIndexed) => {
            matches!(chosen.repr, Some(Repr::Sunday | Repr::Monday))
        }
        (Name::Year, Key::Sign | Key::Range) => !matches!(chosen.repr, Some(Repr::LastTwo)),
        _ => true,
    }
}

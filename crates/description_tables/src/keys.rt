//! The keys of modifiers.

ghost use Rattle.std.specs.Prelude.{◌≡◌};
ghost use Rattle.description_tables.specs.Keys.{key_of, has_key};

use crate::lookup::lookup;
use crate::names::Name;
use description_lexer::DescriptionVersion;

/// What a modifier is called.
#[derive(Clone, Copy)]
pub enum Key {
    Padding,
    Repr,
    CaseSensitive,
    OneIndexed,
    Base,
    Sign,
    Range,
    Case,
    Digits,
    Count,
    Precision,
    TrailingInput,
}

static KEYS: [(&str, Key); 12] = [
    ("padding", Key::Padding),
    ("repr", Key::Repr),
    ("case_sensitive", Key::CaseSensitive),
    ("one_indexed", Key::OneIndexed),
    ("base", Key::Base),
    ("sign", Key::Sign),
    ("range", Key::Range),
    ("case", Key::Case),
    ("digits", Key::Digits),
    ("count", Key::Count),
    ("precision", Key::Precision),
    ("trailing_input", Key::TrailingInput),
];

/// The key of this name.
#[tactic(auto, unfolding(crate::specs::Keys::key_of))]
pub fn key_of(version: DescriptionVersion, word: &str) -> Option<Key>
    ensures { result ≡ key_of version word.now }
{
    lookup(version, &KEYS, word)
}

/// Whether the component has such a modifier.
pub fn has_key(name: Name, key: Key) -> bool
    ensures { result ≡ has_key key name }
{
    match key {
        Key::Padding => matches!(
            name,
            Name::Day
                | Name::Ordinal
                | Name::Minute
                | Name::Second
                | Name::OffsetMinute
                | Name::OffsetSecond
                | Name::Month
                | Name::WeekNumber
                | Name::Year
                | Name::Hour
                | Name::OffsetHour
        ),
        Key::Repr => matches!(
            name,
            Name::Month | Name::Weekday | Name::WeekNumber | Name::Year | Name::Hour
        ),
        Key::CaseSensitive => matches!(name, Name::Month | Name::Weekday | Name::Period),
        Key::OneIndexed => matches!(name, Name::Weekday),
        Key::Base => matches!(name, Name::Year),
        Key::Sign => matches!(name, Name::Year | Name::OffsetHour | Name::UnixTimestamp),
        Key::Range => matches!(name, Name::Year),
        Key::Case => matches!(name, Name::Period),
        Key::Digits => matches!(name, Name::Subsecond),
        Key::Count => matches!(name, Name::Ignore),
        Key::Precision => matches!(name, Name::UnixTimestamp),
        Key::TrailingInput => matches!(name, Name::End),
    }
}

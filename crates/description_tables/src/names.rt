//! The names of components.

ghost use Rattle.std.specs.Prelude.{◌≡◌};
ghost use Rattle.description_tables.specs.Names.{name_of, name_text};

use crate::lookup::lookup;
use description_lexer::DescriptionVersion;

/// What a component is called.
#[derive(Clone, Copy)]
pub enum Name {
    Day,
    Ordinal,
    Minute,
    Second,
    OffsetMinute,
    OffsetSecond,
    Month,
    Weekday,
    WeekNumber,
    Year,
    Hour,
    Period,
    Subsecond,
    OffsetHour,
    Ignore,
    UnixTimestamp,
    End,
}

static NAMES: [(&str, Name); 17] = [
    ("day", Name::Day),
    ("ordinal", Name::Ordinal),
    ("month", Name::Month),
    ("weekday", Name::Weekday),
    ("week_number", Name::WeekNumber),
    ("year", Name::Year),
    ("hour", Name::Hour),
    ("minute", Name::Minute),
    ("second", Name::Second),
    ("period", Name::Period),
    ("subsecond", Name::Subsecond),
    ("offset_hour", Name::OffsetHour),
    ("offset_minute", Name::OffsetMinute),
    ("offset_second", Name::OffsetSecond),
    ("unix_timestamp", Name::UnixTimestamp),
    ("ignore", Name::Ignore),
    ("end", Name::End),
];

/// The component of this name.
#[tactic(auto, unfolding(crate::specs::Names::name_of))]
pub fn name_of(version: DescriptionVersion, word: &str) -> Option<Name>
    ensures { result ≡ name_of version word.now }
{
    lookup(version, &NAMES, word)
}

/// The name in small letters.
pub fn name_text(name: Name) -> &'static str
    ensures { result.now ≡ name_text name }
{
    match name {
        Name::Day => "day",
        Name::Ordinal => "ordinal",
        Name::Minute => "minute",
        Name::Second => "second",
        Name::OffsetMinute => "offset_minute",
        Name::OffsetSecond => "offset_second",
        Name::Month => "month",
        Name::Weekday => "weekday",
        Name::WeekNumber => "week_number",
        Name::Year => "year",
        Name::Hour => "hour",
        Name::Period => "period",
        Name::Subsecond => "subsecond",
        Name::OffsetHour => "offset_hour",
        Name::Ignore => "ignore",
        Name::UnixTimestamp => "unix_timestamp",
        Name::End => "end",
    }
}

//! What a source never names, and nobody gives.
ghost use Rattle.std.specs.Prelude.{◌≡◌};
ghost use Rattle.instants_sources.specs.Grammar.{grammar_of, written};
ghost use Rattle.instants_prefixes.specs.Lacks as Lacks;

use crate::contents::stands_in_description;
use crate::given::{Given, Years};
use crate::kind::Kind;
use description::Description;
use instants_sources::Source;

/// What a source lacks, so that it finds no date in any line.
#[derive(Clone, Copy, Debug, PartialEq, Eq)]
pub enum Lack {
    /// No year.
    Year,
    /// No day of a year.
    Day,
    /// No time of day.
    Time,
    /// No hour of an offset.
    Offset,
}

// Whether a component of a kind may stand in a description.
fn may(kind: Kind, description: &Description<'_>) -> bool
    ensures { result ≡ Lacks.may kind (written description.now) }
{
    stands_in_description(description, kind, true)
}

// Whether one always stands there.
fn always(kind: Kind, description: &Description<'_>) -> bool
    ensures { result ≡ Lacks.always kind (written description.now) }
{
    stands_in_description(description, kind, false)
}

// Whether a year that is given takes the place of one that need not stand there.
fn takes_year(given: &Given, description: &Description<'_>) -> bool
    ensures { result ≡ Lacks.takes_year given.now (written description.now) }
{
    let is_known = match given.years {
        Years::Unknown => false,
        Years::In(_) | Years::Near(_) => true,
    };
    let has_year = always(Kind::Year, description) || always(Kind::IsoYear, description);
    is_known && !(has_year || always(Kind::Century, description))
}

// Whether a description has a year, or one is given.
fn has_year(given: &Given, description: &Description<'_>) -> bool
    ensures { result ≡ Lacks.has_year given.now (written description.now) }
{
    let has_parts = may(Kind::Century, description) && may(Kind::LastTwo, description);
    may(Kind::Year, description) || takes_year(given, description) || has_parts
}

// Whether it has a year of the weeks of ISO 8601, or one is given by its last two digits.
fn has_iso_year(given: &Given, description: &Description<'_>) -> bool
    ensures { result ≡ Lacks.has_iso_year given.now (written description.now) }
{
    let takes_year = takes_year(given, description) && may(Kind::LastTwo, description);
    let has_parts = may(Kind::Century, description) && may(Kind::LastTwo, description);
    may(Kind::IsoYear, description) || takes_year || has_parts
}

// Whether it has a date.
fn has_date(given: &Given, description: &Description<'_>) -> bool
    ensures { result ≡ Lacks.has_date given.now (written description.now) }
{
    let has_month = may(Kind::Month, description) && may(Kind::Day, description);
    let has_week = may(Kind::Week, description) && may(Kind::Weekday, description);
    let has_day = may(Kind::Ordinal, description) || has_month || has_week;
    let has_iso_week = may(Kind::IsoWeek, description) && may(Kind::Weekday, description);
    (has_year(given, description) && has_day) || (has_iso_year(given, description) && has_iso_week)
}

// Whether a part of a time of day always stands there.
fn always_time(description: &Description<'_>) -> bool
    ensures { result ≡ Lacks.always_time (written description.now) }
{
    let has_hour = always(Kind::Hour24, description) || always(Kind::Hour12, description);
    let has_half = always(Kind::Half, description) || always(Kind::Minute, description);
    let has_second = always(Kind::Second, description) || always(Kind::Subsecond, description);
    has_hour || has_half || has_second
}

// Whether it has a time of day, without seconds that have no minutes and without a fraction that has no seconds, or one is given.
fn has_time(given: &Given, description: &Description<'_>) -> bool
    ensures { result ≡ Lacks.has_time given.now (written description.now) }
{
    let has_half = may(Kind::Hour12, description) && may(Kind::Half, description);
    let has_hour = may(Kind::Hour24, description) || has_half;
    let no_minute = always(Kind::Second, description) && !may(Kind::Minute, description);
    let no_second = always(Kind::Subsecond, description) && !may(Kind::Second, description);
    let takes_time = given.time.is_some() && !always_time(description);
    (has_hour && !(no_minute || no_second)) || takes_time
}

/// What a source lacks to name a moment with what is given, the first of these.
#[tactic(auto, unfolding(crate::specs::Lacks::lack))]
pub(crate) fn lack_of(source: &Source<'_>, given: &Given) -> Option<Lack>
    ensures { result ≡ Lacks.lack given.now (grammar_of source.now) }
{
    let description = match source {
        Source::Items(described) | Source::V3(described) => described.description(),
        Source::Rfc2822 | Source::Rfc3339 | Source::Iso8601 => return None,
    };
    if may(Kind::UnixTime, description) {
        return None;
    }
    if !(has_year(given, description) || has_iso_year(given, description)) {
        return Some(Lack::Year);
    }
    if !has_date(given, description) {
        return Some(Lack::Day);
    }
    if !has_time(given, description) {
        return Some(Lack::Time);
    }
    if !(may(Kind::OffsetHour, description) || given.offset.is_some()) {
        return Some(Lack::Offset);
    }
    None
}

//! The bytes that can stand at the first and at the fourth place of a date.
ghost use Rattle.std.specs.Prelude.{◌≡◌, true, false, All, map, get_or};
ghost use Rattle.instants_sources.specs.Grammar.{grammar_of};
ghost use Rattle.instants_prefixes.specs.NoPrefix.{begins_day, begins_year};
ghost use Rattle.instants_found.specs.Ranges.{AreWithin, is_within};
ghost use Rattle.instants_found.specs.Starts.{AreMarked, CannotStand, index_of};

use crate::range::Range;
use instants_sources::Source;

/// How far a date's fourth byte is from its first.
pub(crate) const FOURTH: usize = 3;

/// A place of a date whose byte says whether a date can be there.
#[derive(Clone, Copy)]
pub(crate) enum Place {
    First,
    Fourth,
}

// Whether a date of RFC 2822 can begin with a byte: its weekday, or its day.
#[tactic(auto, using(std::proofs::lemmas::Bool::Decides::nat_tests))]
fn begins_day(byte: u8) -> bool
    ensures { result ≡ begins_day byte }
{
    byte.is_ascii_digit() || matches!(byte.to_ascii_lowercase(), b'f' | b'm' | b's' | b't' | b'w')
}

// Whether one of ISO 8601 can: a year, with a sign or without one.
fn begins_year(byte: u8) -> bool
    ensures { result ≡ begins_year byte }
{
    byte.is_ascii_digit() || byte == b'+' || byte == b'-'
}

// Whether a date of a source can begin with a byte: `true` says nothing of it.
fn can_begin(source: &Source<'_>, byte: u8) -> bool
    ensures { result ≡ false → CannotStand 0 byte (grammar_of source.now) }
{
    match source {
        Source::Items(described) | Source::V3(described) => described.can_begin(byte),
        Source::Rfc2822 => begins_day(byte),
        Source::Rfc3339 => byte.is_ascii_digit(),
        Source::Iso8601 => begins_year(byte),
    }
}

// Whether a byte can stand at the fourth place: RFC 3339 has a year of four digits, and ISO 8601 four, or six after a sign.
fn can_be_fourth(source: &Source<'_>, byte: u8) -> bool
    ensures { result ≡ false → CannotStand 3 byte (grammar_of source.now) }
{
    match source {
        Source::Items(described) | Source::V3(described) => described
            .first_bytes()
            .can_stand(FOURTH, byte),
        Source::Rfc3339 => byte.is_ascii_digit(),
        Source::Iso8601 => byte.is_ascii_digit(),
        Source::Rfc2822 => true,
    }
}

// Whether a byte can stand at a place of a date of a source: `true` says nothing of it.
fn can_stand(source: &Source<'_>, place: Place, byte: u8) -> bool
    ensures { result ≡ false → CannotStand (index_of place) byte (grammar_of source.now) }
{
    match place {
        Place::First => can_begin(source, byte),
        Place::Fourth => can_be_fourth(source, byte),
    }
}

// Whether a byte can stand at a place of a date of some source.
fn some_has(sources: &[Source<'_>], place: Place, byte: u8) -> bool
    ensures { result ≡ false → All (CannotStand (index_of place) byte) (map grammar_of sources.now) }
{
    for number in 0..sources.len() {
        if can_stand(&sources[number], place, byte) {
            return true;
        }
    }
    false
}

/// For each byte whether it can stand at a place of a date of some source: `true` says nothing of it.
pub(crate) fn marked_at(sources: &[Source<'_>], place: Place) -> [bool; 256]
    ensures { AreMarked (index_of place) (map grammar_of sources.now) result }
{
    let mut marked = [true; 256];
    for byte in 0..=255u8 {
        marked[usize::from(byte)] = some_has(sources, place, byte);
    }
    marked
}

/// The range of the bytes that are marked in a table; `are_within` says whether it is.
pub(crate) fn range_of(table: &[bool; 256]) -> Range {
    let mut least = 255;
    let mut most = 0;
    for byte in 0..=255u8 {
        if table[usize::from(byte)] {
            least = byte.min(least);
            most = byte;
        }
    }
    Range::of(least, most)
}

/// Whether no byte outside of a range is marked in a table.
pub(crate) fn are_within(table: &[bool; 256], range: &Range) -> bool
    ensures { result ≡ true → AreWithin table.now range.now }
{
    for byte in 0..256usize {
        if !is_within(table, range, byte as u8) {
            return false;
        }
    }
    true
}

// Whether a byte is in a range if it is marked in a table.
fn is_within(table: &[bool; 256], range: &Range, byte: u8) -> bool
    ensures { result ≡ true → is_within range.now byte ≡ false → get_or table.now byte true ≡ false }
{
    range.has(byte) || !table[usize::from(byte)]
}

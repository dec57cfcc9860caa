//! Bytes at which a source reads no date, as their first ones show.
ghost use Rattle.std.specs.Prelude.{◌≡◌, true, get_or};
ghost use Rattle.std.specs.Char.{is_ascii_digit};
ghost use Rattle.instants_sources.specs.Grammar.{Iso8601, Rfc2822, grammar_of};
ghost use Rattle.instants_prefixes.specs.NoPrefix.{HasNoPrefix};

use crate::window::text_for;
use instants_edges::byte_at;
use instants_sources::Source;

// Whether neither white space nor a comment stands after the one digit or the two that begin the bytes.
#[inline(always)]
fn lacks_space(bytes: &[u8]) -> bool
    requires { is_ascii_digit (get_or bytes.now 0 0) ≡ true }
    ensures { result ≡ true → HasNoPrefix bytes.now Rfc2822 }
{
    if byte_at(bytes, 1).is_ascii_digit() {
        byte_at(bytes, 2) > b'('
    } else {
        byte_at(bytes, 1) > b'('
    }
}

// Whether a date of RFC 2822 lacks the space after its day, or the comma after its weekday. A call of its own, so that other sources
// make no room for it.
#[inline(never)]
#[tactic(auto, using(crate::proofs::RuledOut::comma_due))]
fn lacks_mark(bytes: &[u8]) -> bool
    ensures { result ≡ true → HasNoPrefix bytes.now Rfc2822 }
{
    if byte_at(bytes, 0).is_ascii_digit() {
        return lacks_space(bytes);
    }
    byte_at(bytes, 3) != b','
}

// Whether a date of ISO 8601 lacks a digit of its year, which has four, or six after a sign.
#[inline(never)]
fn lacks_digit(bytes: &[u8]) -> bool
    ensures { result ≡ true → HasNoPrefix bytes.now Iso8601 }
{
    if byte_at(bytes, 1).is_ascii_digit() {
        return !byte_at(bytes, 3).is_ascii_digit();
    }
    true
}

/// Whether a byte that is due in each date of a format is not there, so that no prefix of the bytes names a moment by a source,
/// whatever is given: `false` says nothing of them.
#[inline(always)]
#[tactic(auto, using(crate::proofs::RuledOut::hyphen_due))]
pub fn lacks_byte(source: &Source<'_>, bytes: &[u8]) -> bool
    ensures { result ≡ true → HasNoPrefix bytes.now (grammar_of source.now) }
{
    match source {
        Source::Rfc3339 => byte_at(bytes, 4) != b'-',
        Source::Rfc2822 => lacks_mark(bytes),
        Source::Iso8601 => lacks_digit(bytes),
        Source::Items(_) | Source::V3(_) => false,
    }
}

/// Whether the first bytes show that: `false` says nothing of them.
#[inline(always)]
#[tactic(auto, using(crate::proofs::RuledOut::described_due))]
pub fn rules_out(source: &Source<'_>, bytes: &[u8]) -> bool
    ensures { result ≡ true → HasNoPrefix bytes.now (grammar_of source.now) }
{
    match source {
        Source::Items(described) | Source::V3(described) => described.cannot_match(text_for(
            source, bytes,
        )),
        _ => lacks_byte(source, bytes),
    }
}

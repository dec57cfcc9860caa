//! The moment that a prefix of a text names by a source, and what stands after that prefix.
ghost use Rattle.std.specs.Prelude.{◌≡◌, option_map, if◌then◌else◌, None};
ghost use Rattle.parsing_record.specs.Record.{empty};
ghost use Rattle.parsing_record.specs.Whole.{ReadsInto};
ghost use Rattle.instants_sources.specs.Grammar.{grammar_of};
ghost use Rattle.instants_sources.specs.Reading.{reading_of};
ghost use Rattle.instants_prefixes.specs.Reading as Reading;
ghost use Rattle.instants_prefixes.specs.Reading.{prefix_of, prefix_named};

use crate::completed::moment_of;
use crate::contents::Contents;
use crate::fast_prefix::fast_prefix;
use crate::given::Given;
use calendar::UtcOffset;
use description::Description;
use description_items::{Iso8601, Rfc2822, Rfc3339};
use instants_edges::byte_at;
use instants_sources::{Named, Source};
use parsing_combinator::Parse;
use parsing_parsable::{Items, Parsable};
use parsing_record::Parsed;

const LEAST_LIKELY: u128 = 100_000_000_000_000_000;

const LEAST_UNLIKELY: u128 = 10_000_000_000_000_000_000;

// Whether a number of Unix time inside a line, where one was read, is likely to be one: it has nine or ten digits of seconds.
#[inline(always)]
fn is_likely(nanoseconds: Option<i128>) -> bool
    ensures { result ≡ Reading.is_likely nanoseconds }
{
    let Some(nanoseconds) = nanoseconds else {
        return true;
    };
    let far = nanoseconds.unsigned_abs();
    far >= LEAST_LIKELY && far < LEAST_UNLIKELY
}

// Reads the start of a text by a source into a record.
#[inline(always)]
fn read_into<'b>(
    source: &Source<'_>,
    text: &'b [u8],
    parsed: &mut Parsed,
) -> Result<&'b [u8], Parse>
    ensures reads { ReadsInto result parsed.old parsed.new
        (reading_of (grammar_of source.now) parsed.old text.now) }
{
    match source {
        Source::Items(described) | Source::V3(described) => match described.description() {
            Description::Items(items) => Items(items).parse_into(text, parsed),
            Description::V3(tree) => tree.parse_into(text, parsed),
        },
        Source::Rfc2822 => Rfc2822.parse_into(text, parsed),
        Source::Rfc3339 => Rfc3339.parse_into(text, parsed),
        Source::Iso8601 => Iso8601.parse_into(text, parsed),
    }
}

/// The record that a source reads at the start of a text: an empty one where it reads none.
pub(crate) fn record_of(source: &Source<'_>, text: &[u8]) -> Parsed
    ensures { result ≡ Reading.record_of (reading_of (grammar_of source.now) empty text.now) }
{
    let mut parsed = Parsed::new();
    let _ = read_into(source, text, &mut parsed);
    parsed
}

// By the record that a source reads.
#[inline(never)]
fn named_by_record<'b>(
    source: &Source<'_>,
    text: &'b [u8],
    given: &Given,
) -> Option<(Named, &'b [u8])>
    ensures { option_map (λ x. (x.0, x.1.now)) result
        ≡ prefix_of given.now (reading_of (grammar_of source.now) empty text.now) }
{
    let mut parsed = Parsed::new();
    let Ok(rest) = read_into(source, text, &mut parsed) else {
        return None;
    };
    if !is_likely(parsed.unix_timestamp_nanos()) {
        return None;
    }
    let moment = moment_of(given, &parsed)?;
    Some((Named::of_moment(moment), rest))
}

/// The offset that a plan is given: where a description reads no part of an offset, the one that is given.
#[inline(always)]
pub(crate) fn assumed(contents: Contents, given: &Given) -> Option<UtcOffset>
    ensures { result ≡ (if contents.has_offset_part then None else given.now.offset) }
{
    if contents.has_offset_part {
        None
    } else {
        given.offset
    }
}

/// The moment that a prefix of a text names by a source, with what is given where the prefix lacks it, and what stands after
/// that prefix. RFC 3339 goes the fast way first.
#[tactic(auto, unfolding(crate::specs::Reading::prefix_named), using(crate::proofs::ReadPrefixes::rfc3339_prefix))]
#[inline(always)]
pub(crate) fn prefix_named<'b>(
    source: &Source<'_>,
    text: &'b [u8],
    given: &Given,
) -> Option<(Named, &'b [u8])>
    ensures { option_map (λ x. (x.0, x.1.now)) result
        ≡ prefix_named given.now (grammar_of source.now) text.now }
{
    match source {
        Source::Rfc2822 if !byte_at(text, 0).is_ascii_alphanumeric() => None,
        Source::Rfc3339 => match fast_prefix(text) {
            Some((fields, rest)) => Some((Named::of_fields(fields), rest)),
            None => named_by_record(source, text, given),
        },
        _ => named_by_record(source, text, given),
    }
}

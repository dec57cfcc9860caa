//! Sources of dates inside lines.
ghost use Rattle.std.specs.Prelude.{◌≡◌, IfSome};
ghost use Rattle.instants_sources.specs.Grammar as grammar;
ghost use Rattle.instants_sources.specs.Grammar.{grammar_of, written};
ghost use Rattle.instants_prefixes.specs.Contents.{AreContents};
ghost use Rattle.instants_prefixes.specs.Ends.{AreEnds, items_in};

use crate::contents::Contents;
use crate::ends::Ends;
use crate::extent::{extent_by_texts, extent_of};
use crate::fast_prefix::fast_whole;
use crate::given::Given;
use crate::lacks::{Lack, lack_of};
use crate::named::{assumed, prefix_named, record_of};
use crate::prefix::Prefix;
use crate::ruled_out::rules_out;
use crate::window::{near, text_for};
use instants_sources::{Described, Named, Source};
use parsing_record::Parsed;

/// A source that reads dates inside lines, with what is found of it once.
#[derive(Drop)]
pub struct DateSource<'a> {
    source: Source<'a>,
    contents: Contents,
    ends: Ends,
    ghost has: { AreContents (grammar_of source) contents },
    ghost begins: { AreEnds (items_in (grammar_of source)) ends },
}

// The description that a source reads by, where it has one.
#[inline(always)]
fn described<'s, 'a>(source: &'s Source<'a>) -> Option<&'s Described<'a>>
    ensures { IfSome result (λ described.
        grammar_of source.now ≡ grammar.Described (written described.now.description)) }
{
    match source {
        Source::Items(described) | Source::V3(described) => Some(described),
        _ => None,
    }
}

impl<'a> DateSource<'a> {
    ghost use Rattle.std.specs.Prelude.{◌≡◌, ◌≤◌, ℕ, List, None, Some, false, true, length, IfSome};
    ghost use Rattle.instants_prefixes.specs.DateSource.{grammar_in, IsWithin};
    ghost use Rattle.instants_prefixes.specs.Prefix.{prefix_at};
    ghost use Rattle.instants_prefixes.specs.Wholly.{IsWholly};
    ghost use Rattle.instants_prefixes.specs.Lacks.{lack};
    ghost use Rattle.instants_prefixes.specs.Kinds.{is_of};
    ghost use Rattle.instants_prefixes.specs.Given.{lacks_offset};
    ghost use Rattle.instants_prefixes.specs.Reading.{is_local, record_at, stands_in};
    ghost use Rattle.instants_prefixes.specs.declared.kind.Kind.TheVariants as kind;

    /// The source, with what is found of it.
    pub fn new(source: Source<'a>) -> DateSource<'a>
        ensures { grammar_in result ≡ grammar_of source.entry }
    {
        DateSource {
            contents: Contents::of(&source),
            ends: Ends::of(&source),
            source,
        }
    }

    /// The source.
    #[inline(always)]
    pub fn source(&self) -> &Source<'a>
        ensures { grammar_of result.now ≡ grammar_in self.now }
    {
        &self.source
    }

    /// Whether a component of Unix time may stand in it: where none does, it reads no number of Unix time.
    #[inline(always)]
    #[tactic(auto, using(crate::proofs::Unread::timeless_at))]
    pub fn may_read_unix_time(&self) -> bool
        ensures value { result ≡ stands_in (is_of kind.UnixTime) (grammar_in self.now) }
        ensures reads_none { result ≡ false → (bytes : List ℕ)
            → (record_at (grammar_in self.now) bytes).unix_timestamp_nanos ≡ None }
    {
        self.contents.has_unix_time
    }

    /// Whether each date that it reads takes the offset that is given: neither a part of an offset nor Unix time may stand in it.
    #[inline(always)]
    #[tactic(auto, using(crate::proofs::Unread::local_at, crate::proofs::Unread::local_timeless_at))]
    pub fn is_local(&self) -> bool
        ensures value { result ≡ is_local (grammar_in self.now) }
        ensures no_offset { result ≡ true → (bytes : List ℕ)
            → lacks_offset (record_at (grammar_in self.now) bytes) ≡ true }
        ensures no_unix_time { result ≡ true → (bytes : List ℕ)
            → (record_at (grammar_in self.now) bytes).unix_timestamp_nanos ≡ None }
    {
        self.contents.is_local
    }

    /// The record that the source reads at the start of bytes: an empty one where it reads none.
    #[tactic(auto, unfolding(crate::specs::Reading::record_at))]
    pub fn record(&self, bytes: &[u8]) -> Parsed
        ensures { result ≡ record_at (grammar_in self.now) bytes.now }
    {
        record_of(&self.source, text_for(&self.source, bytes))
    }

    // The prefix of bytes that the source reads as a date, with what is given where the date lacks it.
    #[inline(never)]
    #[tactic(auto, unfolding(crate::specs::Lengths::lengths), using(crate::proofs::PrefixesAt::prefix_at_is))]
    fn read_any(&self, bytes: &[u8], given: &Given) -> Option<Prefix>
        ensures { result ≡ prefix_at given.now (grammar_in self.now) bytes.now }
    {
        let text = text_for(&self.source, bytes);
        let Some((moment, rest)) = prefix_named(&self.source, text, given) else {
            return None;
        };
        match &self.source {
            Source::Items(described) | Source::V3(described) => {
                let extent = extent_of(described.description(), &self.ends, text, rest);
                Some(Prefix::of_extent(extent, text, moment, rest))
            }
            _ => Some(Prefix::whole(text, moment, rest)),
        }
    }

    // The prefix that a plan reads where texts alone stand around what it says: `None` says nothing of the bytes. The compiler
    // inlines a large function where it is called once alone, so each caller has one of its own.
    #[inline]
    fn planned<const AT_ONCE: bool>(&self, bytes: &[u8], given: &Given) -> Option<Prefix>
        ensures { IfSome result
            (λ prefix. Some prefix ≡ prefix_at given.now (grammar_in self.now) bytes.now) }
    {
        if self.contents.has_unix_time {
            return None;
        }
        let described = described(&self.source)?;
        let text = near(bytes);
        let Some((fields, rest)) = described.read_prefix(text, assumed(self.contents, given)) else {
            return None;
        };
        let read = text.len().saturating_sub(rest.len());
        let Some(extent) = extent_by_texts(&self.ends, read) else {
            return None;
        };
        let moment = Named::of_fields(fields);
        Some(Prefix::of_extent(extent, text, moment, rest))
    }

    /// The prefix of bytes that a plan reads as a date, where texts alone stand around what it says: `None` says nothing of the
    /// bytes. The fields that were read stay where they are, since the caller gets no memory for a prefix that it asks for.
    #[inline(always)]
    #[tactic(auto, using(crate::proofs::PrefixesAt::at_within))]
    pub fn read_planned(&self, bytes: &[u8], given: &Given) -> Option<Prefix>
        ensures prefix { IfSome result
            (λ prefix. Some prefix ≡ prefix_at given.now (grammar_in self.now) bytes.now) }
        ensures within { IfSome result (IsWithin bytes.now) }
    {
        self.planned::<true>(bytes, given)
    }

    /// The prefix of bytes that the source reads as a date, with what is given where the date lacks it. It lies within the
    /// first 256 bytes.
    #[inline(never)]
    #[tactic(auto, unfolding(crate::specs::Prefix::prefix_at), using(crate::proofs::PrefixesAt::at_within))]
    pub fn read(&self, bytes: &[u8], given: &Given) -> Option<Prefix>
        ensures prefix { result ≡ prefix_at given.now (grammar_in self.now) bytes.now }
        ensures within { IfSome result (IsWithin bytes.now) }
    {
        if let Some(prefix) = self.planned::<false>(bytes, given) {
            return Some(prefix);
        }
        if rules_out(&self.source, bytes) {
            return None;
        }
        self.read_any(bytes, given)
    }

    /// The prefix that is all of a short text, where the source is RFC 3339 and the fast way reads it: `None` says nothing of
    /// the text.
    #[inline(always)]
    #[tactic(auto, using(crate::proofs::Wholly::wholly))]
    pub fn read_whole(&self, text: &[u8]) -> Option<Prefix>
        ensures all { IfSome result (IsWholly (grammar_in self.now) text.now) }
        ensures within { IfSome result (IsWithin text.now) }
    {
        let Source::Rfc3339 = &self.source else {
            return None;
        };
        let Some(fields) = fast_whole(text) else {
            return None;
        };
        Some(Prefix::whole(text, Named::of_fields(fields), &[]))
    }

    /// What the source lacks to name a moment with what is given: such a source finds no date in any line.
    #[tactic(auto, unfolding(crate::specs::Prefix::prefix_at), using(crate::proofs::Unnamed::finds_nothing))]
    pub fn lack(&self, given: &Given) -> Option<Lack>
        ensures value { result ≡ lack given.now (grammar_in self.now) }
        ensures finds_nothing { IfSome result
            (λ _. (bytes : List ℕ) → prefix_at given.now (grammar_in self.now) bytes ≡ None) }
    {
        lack_of(&self.source, given)
    }
}

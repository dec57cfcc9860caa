//! What a line may be written in.
ghost use Rattle.std.specs.Prelude.{◌≡◌, ◌≤◌, ◌^◌, IfOk, IfErr};
ghost use Rattle.instants_words.specs.Sources.{said_by};
ghost use Rattle.instants_sources.specs.Grammar as grammar;
ghost use Rattle.instants_sources.specs.Grammar.{grammar_of, written, HasItsForm, Means, SpellsIn, IsRefused, IsRefusedIn};
ghost use Rattle.instants_sources.specs.Named.{defaults_of, named};
ghost use Rattle.instants_sources.specs.Written.{reads_written};
ghost use Rattle.instants_sources.specs.Tried.{nodes_in};
ghost use Rattle.parsing_combinator.specs.FaultOf.{fault_of, Gives};
ghost use Rattle.parsing_combinator.specs.ShortName.{HasShortName};
ghost use Rattle.parsing_record.specs.Meaning.{meaning};
ghost use Rattle.parsing_record.specs.Whole.{whole, names, moment_named, starting};

use crate::described::Described;
use calendar::UtcOffset;
use datetime_types::OffsetDateTime;
use description::{
    Description, DescriptionFault, DescriptionVersion, parse_borrowed, parse_strftime_borrowed,
};
use description_items::{Iso8601, Rfc2822, Rfc3339};
use instants_words::SourceText;
use parsing_combinator::{Parse, ParseFromDescription};
use parsing_parsable::{Items, Parsable};
use parsing_record::Parsed;
use std::alloc::Global;

/// One way to write a date-time.
#[derive(Drop)]
pub enum Source<'a> {
    /// A description of version 1, version 2 or strftime: items, one after the other.
    Items(Described<'a>),
    /// A description of version 3: a tree.
    V3(Described<'a>),
    /// RFC 2822, section 3.3, with the obsolete forms of section 4.3.
    Rfc2822,
    /// RFC 3339, section 5.6, with any byte between date and time.
    Rfc3339,
    /// ISO 8601: a date, a time of day and an offset, in the basic or the extended format.
    Iso8601,
}

impl<'a> Source<'a> {
    /// The source that a text means.
    ///
    /// It has at most 2^64 nodes. The error says what is wrong with a description, and at which byte of it, or that
    /// memory ran out.
    pub fn new(alloc: Global, text: SourceText<'a>) -> Result<Source<'a>, DescriptionFault<'a>>
        ensures means { IfOk result (λ source. Means (said_by text.entry) (grammar_of source)) }
        ensures form { IfOk result HasItsForm }
        ensures few { IfOk result (λ source. nodes_in (grammar_of source) ≤ 2 ^ 64) }
        ensures refused { IfErr result (IsRefused (said_by text.entry)) }
    {
        match text {
            SourceText::V1(text) => described(alloc, DescriptionVersion::One, text),
            SourceText::V2(text) => described(alloc, DescriptionVersion::Two, text),
            SourceText::V3(text) => described(alloc, DescriptionVersion::Three, text),
            SourceText::Strftime(text) => {
                let items = parse_strftime_borrowed(alloc, text)?;
                Ok(reading_by(Description::Items(items)))
            }
            SourceText::Rfc2822 => Ok(Source::Rfc2822),
            SourceText::Rfc3339 => Ok(Source::Rfc3339),
            SourceText::Iso8601 => Ok(Source::Iso8601),
        }
    }

    /// The moment that the whole line names, with an offset assumed or none. Hours and minutes of the assumed offset
    /// count, and each only where the line does not say it. It reads the exact way, which tells the fault too;
    /// `read_fast` finds most moments sooner.
    #[inline(always)]
    pub fn read_exact(
        &self,
        line: &[u8],
        assumed: Option<UtcOffset>,
    ) -> Result<OffsetDateTime, Parse>
        ensures gives { Gives (λ m. m) fault_of result
            (named assumed (grammar_of self.now) line.now) }
        ensures short { IfErr result (λ fault. HasShortName (fault_of fault)) }
    {
        match self {
            Source::Items(described) | Source::V3(described) => {
                read_described(described.description(), line, assumed)
            }
            Source::Rfc2822 => match assumed {
                None => parsing_rfc2822::read_exact(line),
                Some(_) => read_staged(&Rfc2822, line, assumed),
            },
            Source::Rfc3339 => match assumed {
                None => parsing_rfc3339::read_exact(line),
                Some(_) => read_staged(&Rfc3339, line, assumed),
            },
            Source::Iso8601 => read_staged(&Iso8601, line, assumed),
        }
    }
}

// The moment that the whole line names by a description, with an offset assumed or none.
#[inline(always)]
fn read_described(
    description: &Description<'_>,
    line: &[u8],
    assumed: Option<UtcOffset>,
) -> Result<OffsetDateTime, Parse>
    ensures gives { Gives (λ m. m) fault_of result
        (names moment_named
        (whole (reads_written (written description.now)) (defaults_of assumed) line.now)) }
    ensures short { IfErr result (λ fault. HasShortName (fault_of fault)) }
{
    match description {
        Description::Items(items) => read_staged(&Items(items), line, assumed),
        Description::V3(tree) => read_staged(tree, line, assumed),
    }
}

// The moment of the record that the whole line sets, with an offset assumed or none. The record lies here from the start:
// handed over with the call it would be copied, at some eighty instructions a line.
#[inline(never)]
#[tactic(auto, unfolding(parsing_components::specs::Whole::whole))]
fn read_staged<F: Parsable>(
    format: &F,
    line: &[u8],
    assumed: Option<UtcOffset>,
) -> Result<OffsetDateTime, Parse>
    ensures gives { Gives (λ m. m) fault_of result
        (names moment_named
        (whole (meaning (F.reading format.now)) (defaults_of assumed) line.now)) }
    ensures short { IfErr result (λ fault. HasShortName (fault_of fault)) }
{
    let mut parsed = starting(assumed);
    match format.parse_into(line, &mut parsed)? {
        [] => Ok(parsed.offset_date_time()?),
        _ => Err(ParseFromDescription::UnexpectedTrailingCharacters.into()),
    }
}

// A description of one of the three versions.
fn described<'a>(
    alloc: Global,
    version: DescriptionVersion,
    text: &'a str,
) -> Result<Source<'a>, DescriptionFault<'a>>
    ensures means { IfOk result (λ source. SpellsIn version text.now (grammar_of source)) }
    ensures form { IfOk result HasItsForm }
    ensures few { IfOk result (λ source. nodes_in (grammar_of source) ≤ 2 ^ 64) }
    ensures refused { IfErr result (IsRefusedIn version text.now) }
{
    let description = parse_borrowed(alloc, version, text)?;
    Ok(reading_by(description))
}

// The source that reads by a description.
fn reading_by(description: Description<'_>) -> Source<'_>
    ensures grammar { grammar_of result ≡ grammar.Described (written description.entry) }
    ensures form { HasItsForm result }
{
    match &description {
        Description::Items(_) => Source::Items(Described::new(description)),
        Description::V3(_) => Source::V3(Described::new(description)),
    }
}

/// The record that a reading begins with: it holds the hour and the minute of the assumed offset, or nothing.
#[inline(always)]
pub fn starting(assumed: Option<UtcOffset>) -> Parsed
    ensures { result ≡ starting (defaults_of assumed) }
{
    let mut parsed = Parsed::new();
    if let Some(offset) = assumed {
        parsed.set_offset_hour(offset.whole_hours());
        parsed.set_offset_minute_signed(offset.minutes_past_hour());
    }
    parsed
}

//! The sources that words ask for.

ghost use Rattle.std.specs.Prelude.{◌≡◌, ◌≢◌, ◌<◌, ◌+◌, ◌^◌, ◌++◌, ℕ, List, map, length, option_map, Ok, OnOk, Err, IsOk, IfOk, IfErr, IfSome};
ghost use Rattle.instants_words.specs.Sources.{SourceSaid, said_by, format_named, language_named, sources_said};
ghost use Rattle.instants_words.specs.FirstSource.{counted, source_said};

use crate::fault::WordsFault;
use std::alloc::Global;
use std::marker::Model;

/// What words say of how a date-time may be written: the text of a description, or a well-known format. Whether a
/// text is a description is not looked at here.
#[derive(Clone, Copy, Debug, PartialEq, Eq)]
pub enum SourceText<'a> {
    /// A description of version 1.
    V1(&'a str),
    /// A description of version 2.
    V2(&'a str),
    /// A description of version 3.
    V3(&'a str),
    /// A description by the letters of strftime.
    Strftime(&'a str),
    /// RFC 2822, section 3.3, with the obsolete forms of section 4.3.
    Rfc2822,
    /// RFC 3339, section 5.6, with any one byte between date and time.
    Rfc3339,
    /// ISO 8601-1:2019, sections 5.2 to 5.4: a date, a time of day and an offset, in the basic or the extended
    /// format.
    Iso8601,
}

/// Sources in order. A contract sees what is said of each.
#[derive(Drop)]
pub struct Sources<'a> {
    texts: Vec<SourceText<'a>>,
}

impl<'a> Model for Sources<'a> {
    ghost use Rattle.std.specs.Prelude.{List, map};
    ghost use Rattle.instants_words.specs.Sources.{SourceSaid, said_by};

    ghost Value = { List SourceSaid };

    ghost view = { λ s. map said_by s.texts.items };
}

impl<'a> Sources<'a> {
    // The sources that the words say, if there is memory. All of the words are looked at before any is taken.
    #[tactic(auto, using(crate::proofs::SourceLemmas::counts))]
    pub(crate) fn read(alloc: Global, words: &[&'a str]) -> Result<Sources<'a>, WordsFault>
        ensures ok { IfOk result
            (λ sources. sources_said 1 (map (λ word. word.now) words.now) ≡ Ok sources) }
        ensures err { IfErr result (λ fault. fault ≢ WordsFault.Memory
            → sources_said 1 (map (λ word. word.now) words.now) ≡ Err fault) }
        ensures memory { result ≡ Err WordsFault.Memory
            → IsOk (sources_said 1 (map (λ word. word.now) words.now)) }
        ensures some { 0 < length words.now → IfOk result (λ sources. 0 < length sources) }
    {
        let count = count(words, 0)?;
        let mut texts = Vec::with_capacity(alloc, count).map_err(|_| WordsFault::Memory)?;
        push_sources(words, &mut texts)?;
        Ok(Sources { texts })
    }

    /// The sources, in the order of the words.
    pub fn as_slice(&self) -> &[SourceText<'a>]
        ensures { map said_by result.now ≡ self.now }
    {
        self.texts.as_slice()
    }
}

// How many sources the words say, with so many before them. The call for those after the first one is the last thing that a call does.
#[tactic(auto, using(crate::proofs::SourceLemmas::counts))]
fn count(words: &[&str], before: usize) -> Result<usize, WordsFault>
    requires { before + length words.now < 2 ^ 64 }
    ensures count { result ≡ counted before (sources_said (before + 1) (map (λ word. word.now) words.now)) }
    ensures never_memory { result ≢ Err WordsFault.Memory }
{
    if words.is_empty() {
        return Ok(before);
    }
    match source(words) {
        Some((_, others)) => count(others, before + 1),
        None => Err(WordsFault::Source(before + 1)),
    }
}

// Adds the sources that the words say, where they say nothing else. The call for those after the first one is the last thing that
// a call does.
fn push_sources<'a>(words: &[&'a str], texts: &mut Vec<SourceText<'a>>) -> Result<(), WordsFault>
    ensures memory { IfErr result (λ fault. fault ≡ WordsFault.Memory) }
    ensures ok { OnOk result ((place : ℕ) (all : List SourceSaid) → sources_said place (map (λ word. word.now) words.now) ≡ Ok all
        → map said_by texts.new.items ≡ map said_by texts.old.items ++ all) }
{
    let Some((text, others)) = source(words) else {
        return Ok(());
    };
    texts.push(text).map_err(|_| WordsFault::Memory)?;
    push_sources(others, texts)
}

// The source that the words begin with, and the words after it.
fn source<'a, 'b>(words: &'b [&'a str]) -> Option<(SourceText<'a>, &'b [&'a str])>
    ensures said { option_map
        (λ said. (said_by said.0, map (λ word. word.now) said.1.now)) result
        ≡ source_said (map (λ word. word.now) words.now) }
    ensures fewer { IfSome result (λ said. length said.1.now < length words.now) }
{
    let (name, words) = words.split_first()?;
    if let Some(format) = format(name) {
        return Some((format, words));
    }
    let (description, others) = words.split_first()?;
    let text = described(name, description)?;
    Some((text, others))
}

/// The well-known format of this name.
pub(crate) fn format<'a>(name: &str) -> Option<SourceText<'a>>
    ensures { option_map said_by result ≡ format_named name.now }
{
    match name {
        "rfc2822" => Some(SourceText::Rfc2822),
        "rfc3339" => Some(SourceText::Rfc3339),
        "iso8601" => Some(SourceText::Iso8601),
        _ => None,
    }
}

/// A description in the language of this name.
pub(crate) fn described<'a>(name: &str, description: &'a str) -> Option<SourceText<'a>>
    ensures { option_map said_by result
        ≡ option_map (λ language. language description.now) (language_named name.now) }
{
    match name {
        "v1" => Some(SourceText::V1(description)),
        "v2" => Some(SourceText::V2(description)),
        "v3" => Some(SourceText::V3(description)),
        "strftime" => Some(SourceText::Strftime(description)),
        _ => None,
    }
}

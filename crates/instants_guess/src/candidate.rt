//! A format that is tried on lines.
ghost use Rattle.std.specs.Prelude.{◌≡◌, ◌∷◌, [], IfOk, IfSome};
ghost use Rattle.instants_found.specs.Finder.{limit_of, sources_of};
ghost use Rattle.instants_sources.specs.Grammar.{Means, grammar_of};
ghost use Rattle.instants_words.specs.Sources.{said_by};
ghost use Rattle.instants_guess.specs.Tallies.{given_for, most};

use crate::line::first_line;
use crate::tally::Tally;
use calendar::UtcOffset;
use description::DescriptionFault;
use instants_formats::Lacking;
use instants_found::{Doubt, Finder, Finding};
use instants_prefixes::{Given, Years};
use instants_sources::Source;
use instants_words::SourceText;
use std::alloc::{AllocError, Global};

// The most bytes of a stream that are looked at.
pub(crate) const MOST: usize = 1_048_576;

/// A format that is tried on lines, by what its words mean alone, wherever in a line its date begins.
#[derive(Drop)]
pub(crate) struct Candidate {
    pub(crate) name: &'static str,
    pub(crate) lacks: Lacking,
    given: Given<'static>,
    finder: Finder<'static>,
    /// What it found.
    pub(crate) found: Tally,
    ghost wide: { limit_of finder ≡ most },
}

// The source that a text means, where it is no description with a fault.
fn source(alloc: Global, text: SourceText<'static>) -> Result<Option<Source<'static>>, AllocError>
    ensures { IfOk result
        (λ made. IfSome made (λ source. Means (said_by text.entry) (grammar_of source))) }
{
    match Source::new(alloc, text) {
        Ok(source) => Ok(Some(source)),
        Err(DescriptionFault::Memory) => Err(AllocError),
        Err(DescriptionFault::Description(_)) => Ok(None),
    }
}

// A finder by one source.
fn finder(alloc: Global, source: Source<'static>) -> Result<Finder<'static>, AllocError>
    ensures sources { IfOk result
        (λ finder. sources_of finder ≡ grammar_of source.entry ∷ []) }
    ensures limit { IfOk result (λ finder. limit_of finder ≡ most) }
{
    let sources = vec![in alloc; source]?;
    Finder::new(alloc, sources, MOST)
}

// What is given to dates that lack it.
fn given_for(lacks: Lacking) -> Given<'static>
    ensures { result ≡ given_for lacks }
{
    let (offset, years, time) = match lacks {
        Lacking::Nothing => (None, Years::Unknown, None),
        Lacking::Utc | Lacking::Offset => (Some(UtcOffset::UTC), Years::Unknown, None),
        Lacking::YearAndOffset => (Some(UtcOffset::UTC), Years::In(2024), None),
        Lacking::TimeAndOffset => (Some(UtcOffset::UTC), Years::Unknown, Some(0)),
    };
    Given {
        offset,
        zone: None,
        years,
        time,
    }
}

impl Candidate {
    ghost use Rattle.std.specs.Prelude.{◌≤◌, length};
    ghost use Rattle.instants_guess.specs.Candidate.{Tries, found_by, lines_with};
    ghost use Rattle.instants_guess.specs.Tallies.{is_dated, is_doubtful, is_unwritten};

    /// A format by what its words mean, which has found nothing yet: `None` where its description has a fault.
    pub(crate) fn new(
        alloc: Global,
        name: &'static str,
        text: SourceText<'static>,
        lacks: Lacking,
    ) -> Result<Option<Candidate>, AllocError>
        ensures { IfOk result
            (λ made. IfSome made (Tries name.now (said_by text.entry) lacks)) }
    {
        let Some(source) = source(alloc, text)? else {
            return Ok(None);
        };
        Ok(Some(Candidate {
            name,
            lacks,
            given: given_for(lacks),
            finder: finder(alloc, source)?,
            found: Tally::NONE,
        }))
    }

    // What it finds in a line.
    fn find(&self, line: &[u8]) -> Option<Finding>
        ensures { result ≡ found_by self.now line.now }
    {
        self.finder.find(&self.given, line)
    }

    /// How many lines of a text mode `key` dates by its words, how many have a date in doubt, and how many one whose year is not
    /// written.
    pub(crate) fn tally(&self, text: &[u8]) -> Tally
        requires { length text.now ≤ most }
        ensures dated { result.dated ≡ lines_with is_dated self.now text.now }
        ensures doubtful { result.doubtful ≡ lines_with is_doubtful self.now text.now }
        ensures unwritten { result.unwritten ≡ lines_with is_unwritten self.now text.now }
    {
        let mut tally = Tally::NONE;
        let mut rest = text;
        while !rest.is_empty() {
            let (line, after) = first_line(rest);
            let finding = self.find(line);
            tally = tally.counted(&finding);
            rest = after;
        }
        tally
    }

    // Why the date of a line is in doubt, if it is.
    fn doubt_in(&self, line: &[u8]) -> Option<Doubt> {
        let Some(Finding::Doubtful(place)) = self.finder.find(&self.given, line) else {
            return None;
        };
        let doubted = self.finder.doubt_of(&self.given, line, place, 0)?;
        Some(doubted.doubt)
    }

    /// Why the first date of a text that is in doubt is so.
    pub(crate) fn first_doubt(&self, text: &[u8]) -> Option<Doubt> {
        for line in text.split(|byte| *byte == b'\n') {
            if let Some(doubt) = self.doubt_in(line) {
                return Some(doubt);
            }
        }
        None
    }
}

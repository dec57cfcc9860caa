//! The nodes of a source, and how many of them a reading begins.
ghost use Rattle.std.specs.Prelude.{◌≡◌, min};
ghost use Rattle.parsing_record.specs.Tally.{greatest_count};
ghost use Rattle.instants_sources.specs.Grammar.{grammar_of, written};
ghost use Rattle.instants_sources.specs.Written.{counted, nodes_written};
ghost use Rattle.instants_sources.specs.Tried.{nodes_in, tried_by};

use crate::source::{Source, starting};
use calendar::UtcOffset;
use description::Description;
use parsing_parsable::{Items, Parsable, nodes_in_description, nodes_in_items};
use parsing_record::Parsed;

impl Source<'_> {
    /// How many nodes the source has: all of what it reads by; a well-known format is one. Where they are more
    /// than `u128` holds, it is the greatest `u128`.
    pub fn nodes(&self) -> u128
        ensures { result ≡ min (nodes_in (grammar_of self.now)) greatest_count }
    {
        match self {
            Source::Items(described) | Source::V3(described) => nodes_written(
                described.description(),
            ),
            Source::Rfc2822 | Source::Rfc3339 | Source::Iso8601 => 1,
        }
    }

    /// How many items the source tries on a line, with an offset assumed or none: all whose reading begins; a well-known
    /// format is one. Where they are more than `u128` holds, it is the greatest `u128`.
    pub fn tried(&self, line: &[u8], assumed: &Option<UtcOffset>) -> u128
        ensures { result
            ≡ min (tried_by assumed.now (grammar_of self.now) line.now) greatest_count }
    {
        match self {
            Source::Items(described) | Source::V3(described) => {
                tried_written(described.description(), line, &mut starting(*assumed))
            }
            Source::Rfc2822 | Source::Rfc3339 | Source::Iso8601 => 1,
        }
    }
}

// The nodes of a description, or the greatest `u128`.
fn nodes_written(description: &Description<'_>) -> u128
    ensures { result ≡ min (nodes_written (written description.now)) greatest_count }
{
    match description {
        Description::Items(items) => nodes_in_items(items),
        Description::V3(tree) => nodes_in_description(tree),
    }
}

// How many items of a description a reading into a record begins, or the greatest `u128`.
fn tried_written(description: &Description<'_>, line: &[u8], parsed: &mut Parsed) -> u128
    ensures { result
        ≡ min (counted (written description.now) parsed.old line.now).1 greatest_count }
{
    match description {
        Description::Items(items) => Items(items).parse_into_counted(line, parsed).1,
        Description::V3(tree) => tree.parse_into_counted(line, parsed).1,
    }
}

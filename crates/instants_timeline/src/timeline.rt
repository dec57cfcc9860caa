//! Sources, and how what they name is shown.
ghost use Rattle.std.specs.Prelude.{◌<◌, ◌^◌, length, map};
ghost use Rattle.calendar.specs.UtcOffset.{IsClockOffset};
ghost use Rattle.instants_sources.specs.Grammar.{grammar_of};
ghost use Rattle.instants_timeline.specs.Tried.{nodes_in_all};

mod answers;
mod calls;
mod fast_ways;
mod nodes;
mod parts;
mod search;

use calendar::UtcOffset;
pub(crate) use fast_ways::{
    AnswerWay, ExactWay, Iso8601Way, Led, PlannedWay, Rfc2822Way, Rfc3339Way,
};
use instants_answers::Target;
use instants_sources::Source;

/// Sources in order, the offset in which moments are shown, and the one that is assumed for lines without one.
#[derive(Drop)]
pub struct Timeline<'a> {
    sources: Vec<Source<'a>>,
    target: Target,
    assumed: Option<UtcOffset>,
    // There is a source to try.
    ghost some: { 0 < length sources.items },
    ghost clock: { IsClockOffset target },
    // All nodes can be counted.
    ghost few: { nodes_in_all (map grammar_of sources.items) < 2 ^ 128 },
}

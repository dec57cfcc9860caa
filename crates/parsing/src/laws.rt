//! Laws that follow from the contracts, each the contract of a function here.
ghost use Rattle.std.specs.Prelude.{ℕ, List};
ghost use Rattle.parsing_components.specs.declared.fields.Record.{Record};
ghost use Rattle.parsing_rfc2822.specs.Direct as rfc2822;
ghost use Rattle.parsing_rfc3339.specs.Direct as rfc3339;
ghost use Rattle.parsing_parsable.specs.Staged.{reads_rfc2822, reads_rfc3339};
ghost use Rattle.parsing_parsable.specs.TwoRoads.{AgreeOn};
ghost use Rattle.parsing.specs.Laws.{HasOneInstant};

pub use crate::descriptions::{joined_descriptions, two_versions};
pub use crate::node_laws::{few_nodes, tried_at_most_nodes};
pub use crate::two_roads::two_formats;

/// A record without Unix time that names a date, a time of day and an offset, of which the calendar has the day in UTC,
/// is accepted alike as `OffsetDateTime`, `UtcDateTime` and `Timestamp`, with one instant; else each refuses it.
pub fn three_instants()
    ensures { (r : Record) → HasOneInstant r }
{
    parsing_values::laws::three_instants();
}

/// RFC 3339 and RFC 2822: a text names a moment directly exactly where it names one by a record without any field, or with
/// an assumed offset, and then it is the same one.
pub fn two_roads()
    ensures rfc3339 { (bytes : List ℕ) → AgreeOn rfc3339.direct reads_rfc3339 bytes }
    ensures rfc2822 { (bytes : List ℕ) → AgreeOn rfc2822.direct reads_rfc2822 bytes }
{
    parsing_parsable::laws::two_roads_of_rfc3339();
    parsing_parsable::laws::two_roads_of_rfc2822();
}

//! What the two ways to read a text have to do with one another: laws, each the contract of a function.
ghost use Rattle.std.specs.Prelude.{◌≡◌, ℕ, List, Option, Ok};
ghost use Rattle.datetime_wall.specs.Wall.{Shown};
ghost use Rattle.parsing_iso8601.specs.Moment.{IsOfOffset};
ghost use Rattle.parsing_parsable.specs.Staged.{reads_rfc3339, reads_rfc2822, reads_iso8601};
ghost use Rattle.parsing_parsable.specs.TwoRoads.{AgreeOn, HoldsAtMostAnOffset};
ghost use Rattle.parsing_components.specs.declared.fields.Record.{Record};
ghost use Rattle.parsing_record.specs.Whole.{whole, names, moment_named};
ghost use Rattle.parsing_rfc2822.specs.Direct as rfc2822;
ghost use Rattle.parsing_rfc3339.specs.Direct as rfc3339;

/// RFC 3339: a text names a moment directly exactly where it names one by a record, and then it is the same one.
pub fn two_roads_of_rfc3339()
    ensures { (bytes : List ℕ) → AgreeOn rfc3339.direct reads_rfc3339 bytes }
{
    parsing_rfc3339::laws::strict_reading();
}

/// RFC 2822: a text names a moment directly exactly where it names one by a record, and then it is the same one.
pub fn two_roads_of_rfc2822()
    ensures { (bytes : List ℕ) → AgreeOn rfc2822.direct reads_rfc2822 bytes }
{
    parsing_rfc2822::laws::strict_reading();
}

/// ISO 8601: the moment that the parts of a text with an offset name is that of the record which the text sets, beginning
/// without any field or with an assumed offset.
pub fn one_road_of_iso8601()
    ensures { (bytes : List ℕ) (m : Shown) → IsOfOffset bytes m →
        (defaults : Option Record) → HoldsAtMostAnOffset defaults →
        names moment_named (whole reads_iso8601 defaults bytes) ≡ Ok m }
{}

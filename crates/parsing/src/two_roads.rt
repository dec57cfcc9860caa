//! What the readings of two formats have to do with one another, beside the laws on both ways to read one.
ghost use Rattle.std.specs.Prelude.{◌≡◌, ℕ, List, Option, Ok};
ghost use Rattle.datetime_wall.specs.Wall.{Shown};
ghost use Rattle.parsing_components.specs.declared.fields.Record.{Record};
ghost use Rattle.parsing_record.specs.Whole.{by_roads};
ghost use Rattle.parsing_rfc3339.specs.Direct as rfc3339;
ghost use Rattle.parsing_parsable.specs.Staged.{reads_rfc3339};
ghost use Rattle.parsing_parsable.specs.TwoRoads.{HoldsAtMostAnOffset};
ghost use Rattle.parsing.specs.TwoFormats.{IsReadAlike};

use parsing_parsable::laws::{one_road_of_iso8601, two_roads_of_rfc3339};

/// Where RFC 3339 names a moment for a text, ISO 8601 names one exactly if a `T` stands between date and time, a `Z` is
/// no small letter, and the fraction does not round up to a whole second. It is the same moment, or the next nanosecond
/// where more than nine digits round up; that of a leap second is the same whatever its fraction. An offset that both
/// assume changes nothing of that.
pub fn two_formats()
    ensures { (bytes : List ℕ) (defaults : Option Record) → HoldsAtMostAnOffset defaults →
        (m : Shown) → by_roads rfc3339.direct reads_rfc3339 defaults bytes ≡ Ok m →
        IsReadAlike defaults bytes m }
{
    two_roads_of_rfc3339();
    one_road_of_iso8601();
}

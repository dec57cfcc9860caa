//! Formats whose texts name a moment by a reading of their own.
ghost use Rattle.std.specs.Prelude.{IfErr};
ghost use Rattle.parsing_combinator.specs.FaultOf.{Gives, fault_of};
ghost use Rattle.parsing_combinator.specs.ShortName.{HasShortName};
ghost use Rattle.parsing_record.specs.Meaning.{meaning};
ghost use Rattle.parsing_parsable.specs.Moment.{staged};

use crate::parsable::Parsable;
use datetime_types::OffsetDateTime;
use parsing_combinator::Parse;
use parsing_record::Parsed;

/// A format that names a whole moment, so that its texts can be read without a record of components.
///
/// A text that is read in one of the two ways, from defaults that hold no more than an offset, is read in the other, and
/// names the same moment; the faults may differ.
pub trait TwoRoads: Parsable {
    /// The moment that the text names; the whole text has to be read. It is `parse_offset_date_time` without
    /// defaults.
    fn read_direct(&self, input: &[u8]) -> Result<OffsetDateTime, Parse>
        ensures gives { Gives (λ d. d) fault_of result (Self.moment self.now input.now) }
        ensures short_name { IfErr result (λ e. HasShortName (fault_of e)) };

    /// The moment of the record that the whole text sets, beginning with the defaults. It is `parse_offset_date_time` with
    /// these defaults.
    final fn read_staged(&self, input: &[u8], defaults: Parsed) -> Result<OffsetDateTime, Parse>
        ensures gives { Gives (λ d. d) fault_of result
            (staged (meaning (Self.reading self.now)) defaults input.now) }
        ensures short_name { IfErr result (λ e. HasShortName (fault_of e)) }
    {
        self.moment_of_record(input, Some(defaults))
    }
}

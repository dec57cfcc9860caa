//! Reading by a tree of version 3.
ghost use Rattle.description_tree.specs.Description.{v3_tree};
ghost use Rattle.parsing_components.specs.Component.{reads_component_v3};
ghost use Rattle.parsing_record.specs.Reads.{reads};
ghost use Rattle.parsing_parsable.specs.Moment.{moment_by};

use crate::parsable::Parsable;
use datetime_types::OffsetDateTime;
use description_tree::FormatDescriptionV3;
use parsing_combinator::Parse;
use parsing_record::{ItemTally, NoTally, Parsed, parse_tree};

impl Parsable for FormatDescriptionV3<'_> {
    ghost reading = { λ description. reads reads_component_v3 (v3_tree description) };

    ghost moment = { λ description. moment_by (reads reads_component_v3 (v3_tree description)) };

    #[tactic(auto, using(crate::proofs::TameLemmas::tree_short))]
    fn parse_into<'a>(&self, input: &'a [u8], parsed: &mut Parsed) -> Result<&'a [u8], Parse> {
        Ok(parse_tree(self, input, parsed, &mut NoTally)?)
    }

    #[tactic(auto, using(crate::proofs::TameLemmas::tree_short))]
    fn parse_into_counted<'a>(
        &self,
        input: &'a [u8],
        parsed: &mut Parsed,
    ) -> (Result<&'a [u8], Parse>, u128) {
        let mut tally = ItemTally { count: 0 };
        match parse_tree(self, input, parsed, &mut tally) {
            Ok(rest) => (Ok(rest), tally.count),
            Err(fault) => (Err(fault.into()), tally.count),
        }
    }

    fn parse_offset_date_time(
        &self,
        input: &[u8],
        defaults: Option<Parsed>,
    ) -> Result<OffsetDateTime, Parse> {
        self.moment_of_record(input, defaults)
    }
}

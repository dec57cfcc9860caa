//! Reading by one item.
ghost use Rattle.description_items.specs.Tree.{tree_of};
ghost use Rattle.parsing_components.specs.Component.{reads_component};
ghost use Rattle.parsing_record.specs.Reads.{reads};
ghost use Rattle.parsing_parsable.specs.Moment.{moment_by};

use crate::parsable::Parsable;
use datetime_types::OffsetDateTime;
use description_items::BorrowedFormatItem;
use parsing_combinator::Parse;
use parsing_record::{ItemTally, Parsed};

impl Parsable for BorrowedFormatItem<'_> {
    ghost reading = { λ item. reads reads_component (tree_of item) };

    ghost moment = { λ item. moment_by (reads reads_component (tree_of item)) };

    #[tactic(auto, using(crate::proofs::TameLemmas::item_short))]
    fn parse_into<'a>(&self, input: &'a [u8], parsed: &mut Parsed) -> Result<&'a [u8], Parse> {
        Ok(parsed.parse_item(input, self)?)
    }

    #[tactic(auto, using(crate::proofs::TameLemmas::item_short))]
    fn parse_into_counted<'a>(
        &self,
        input: &'a [u8],
        parsed: &mut Parsed,
    ) -> (Result<&'a [u8], Parse>, u128) {
        let mut tally = ItemTally { count: 0 };
        match parsed.parse_item_tallied(input, self, &mut tally) {
            Ok(rest) => (Ok(rest), tally.count),
            Err(fault) => (Err(fault.into()), tally.count),
        }
    }

    fn parse_offset_date_time(
        &self,
        input: &[u8],
        defaults: Option<Parsed>,
    ) -> Result<OffsetDateTime, Parse> {
        self.moment_of_record(input, defaults)
    }
}

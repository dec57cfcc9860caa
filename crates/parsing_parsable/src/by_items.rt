//! Reading by items, one after the other.
ghost use Rattle.description_items.specs.Tree.{trees};
ghost use Rattle.parsing_parsable.specs.Moment.{moment_by, reads_in_turn};

use crate::parsable::Parsable;
use datetime_types::OffsetDateTime;
use description_items::BorrowedFormatItem;
use parsing_combinator::Parse;
use parsing_record::{ItemTally, Parsed};

/// Items, one after the other, as a text of versions 1 and 2 and of strftime spells them.
#[derive(Clone, Copy)]
pub struct Items<'a>(
    /// The items, in the order in which they are read.
    pub &'a [BorrowedFormatItem<'a>],
);

impl Parsable for Items<'_> {
    ghost reading = { λ items. reads_in_turn (trees items.0.now) };

    ghost moment = { λ items. moment_by (reads_in_turn (trees items.0.now)) };

    #[tactic(auto, using(crate::proofs::TameLemmas::items_short))]
    fn parse_into<'a>(&self, input: &'a [u8], parsed: &mut Parsed) -> Result<&'a [u8], Parse> {
        Ok(parsed.parse_items(input, self.0)?)
    }

    #[tactic(auto, using(crate::proofs::TameLemmas::items_short))]
    fn parse_into_counted<'a>(
        &self,
        input: &'a [u8],
        parsed: &mut Parsed,
    ) -> (Result<&'a [u8], Parse>, u128) {
        let mut tally = ItemTally { count: 0 };
        match parsed.parse_items_tallied(input, self.0, &mut tally) {
            Ok(rest) => (Ok(rest), tally.count),
            Err(fault) => (Err(fault.into()), tally.count),
        }
    }

    fn parse_offset_date_time(
        &self,
        input: &[u8],
        defaults: Option<Parsed>,
    ) -> Result<OffsetDateTime, Parse> {
        self.moment_of_record(input, defaults)
    }
}

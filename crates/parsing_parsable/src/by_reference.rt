//! Reading by what is lent.

use crate::parsable::Parsable;
use datetime_types::OffsetDateTime;
use parsing_combinator::Parse;
use parsing_record::Parsed;

impl<P: Parsable> Parsable for &P {
    ghost reading = { λ format. P.reading format.now };

    ghost moment = { λ format. P.moment format.now };

    fn parse_into<'a>(&self, input: &'a [u8], parsed: &mut Parsed) -> Result<&'a [u8], Parse> {
        (**self).parse_into(input, parsed)
    }

    fn parse_into_counted<'a>(
        &self,
        input: &'a [u8],
        parsed: &mut Parsed,
    ) -> (Result<&'a [u8], Parse>, u128) {
        (**self).parse_into_counted(input, parsed)
    }

    fn parse_internal(&self, input: &[u8], defaults: Option<Parsed>) -> Result<Parsed, Parse> {
        (**self).parse_internal(input, defaults)
    }

    fn parse_offset_date_time(
        &self,
        input: &[u8],
        defaults: Option<Parsed>,
    ) -> Result<OffsetDateTime, Parse> {
        (**self).parse_offset_date_time(input, defaults)
    }
}

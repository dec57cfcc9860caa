//! RFC 3339, read into a record and as a moment.
ghost use Rattle.std.specs.Prelude.{◌≡◌, ◌<◌, IfOk, IfErr, IfSome};
ghost use Rattle.parsing_combinator.specs.FaultOf.{reading_fault};
ghost use Rattle.parsing_combinator.specs.ShortName.{HasShortName};
ghost use Rattle.parsing_combinator.specs.Tame.{EndsWith};
ghost use Rattle.parsing_components.specs.Put.{Reads};
ghost use Rattle.parsing_parsable.specs.Put as Put;
ghost use Rattle.parsing_parsable.specs.Staged.{reads_rfc3339};
ghost use Rattle.parsing_record.specs.Meaning.{alone};
ghost use Rattle.parsing_rfc3339.specs.Direct.{direct};
ghost use Rattle.parsing_rfc3339.specs.Range.{AreInRange};

use crate::parsable::Parsable;
use crate::two_roads::TwoRoads;
use crate::zone::set_zone;
use calendar_count::Month;
use datetime_types::OffsetDateTime;
use description_items::Rfc3339;
use parsing_combinator::{Parse, ParseFromDescription};
use parsing_record::Parsed;
use parsing_rfc3339::{Rfc3339Parts, parse_prefix};

// Sets all that a text says.
fn set_parts(parts: &Rfc3339Parts, parsed: &mut Parsed)
    requires range { AreInRange parts.now }
    requires subsecond { IfSome parts.now.subsecond (λ n. n < 1_000_000_000) }
    ensures { parsed.new ≡ Put.put_rfc3339 parts.now parsed.old }
{
    parsed.set_year(i32::from(parts.year));
    parsed.set_month(Month::from_number(parts.month));
    parsed.set_day(parts.day);
    parsed.set_hour_24(parts.hour);
    parsed.set_minute(parts.minute);
    parsed.set_second(parts.second);
    if let Some(nanosecond) = parts.subsecond {
        parsed.set_subsecond(nanosecond);
    }
    set_zone(parts.zone, parsed);
    parsed.permit_leap_second();
}

/// Reads a date-time of RFC 3339, section 5.6, at the start of the bytes into the record, and returns the rest.
///
/// A refusal changes nothing. What the text does not say stays as it was; a second 60 may stand for a leap second
/// afterwards.
#[tactic(auto, unfolding(crate::specs::Staged::reads_rfc3339))]
pub fn read_rfc3339<'a>(
    input: &'a [u8],
    parsed: &mut Parsed,
) -> Result<&'a [u8], ParseFromDescription>
    ensures reads { Reads result parsed.old parsed.new (reads_rfc3339 parsed.old input.now) }
    ensures end { IfOk result (λ rest. EndsWith input.now rest.now) }
    ensures short_name { IfErr result (λ e. HasShortName (reading_fault e)) }
{
    let (parts, rest) = parse_prefix(true, input)?;
    set_parts(&parts, parsed);
    Ok(rest)
}

impl Parsable for Rfc3339 {
    ghost reading = { λ _. alone reads_rfc3339 };

    ghost moment = { λ _. direct };

    fn parse_into<'a>(&self, input: &'a [u8], parsed: &mut Parsed) -> Result<&'a [u8], Parse> {
        Ok(read_rfc3339(input, parsed)?)
    }

    fn parse_into_counted<'a>(
        &self,
        input: &'a [u8],
        parsed: &mut Parsed,
    ) -> (Result<&'a [u8], Parse>, u128) {
        (self.parse_into(input, parsed), 1)
    }

    fn parse_offset_date_time(
        &self,
        input: &[u8],
        defaults: Option<Parsed>,
    ) -> Result<OffsetDateTime, Parse> {
        match defaults {
            None => self.read_direct(input),
            Some(_) => self.moment_of_record(input, defaults),
        }
    }
}

impl TwoRoads for Rfc3339 {
    #[inline(always)]
    fn read_direct(&self, input: &[u8]) -> Result<OffsetDateTime, Parse> {
        match parsing_rfc3339::read_fast(input) {
            Some(moment) => Ok(moment),
            None => parsing_rfc3339::read_exact(input),
        }
    }
}

//! RFC 2822, read into a record and as a moment.
ghost use Rattle.std.specs.Prelude.{◌≡◌, IfOk, IfErr};
ghost use Rattle.parsing_combinator.specs.FaultOf.{reading_fault};
ghost use Rattle.parsing_combinator.specs.ShortName.{HasShortName};
ghost use Rattle.parsing_combinator.specs.Tame.{EndsWith};
ghost use Rattle.parsing_components.specs.Put.{Reads};
ghost use Rattle.parsing_parsable.specs.Put as Put;
ghost use Rattle.parsing_parsable.specs.Staged.{reads_rfc2822};
ghost use Rattle.parsing_record.specs.Meaning.{alone};
ghost use Rattle.parsing_rfc2822.specs.Direct.{direct};
ghost use Rattle.parsing_rfc2822.specs.Range.{AreInRange};

use crate::parsable::Parsable;
use crate::two_roads::TwoRoads;
use crate::zone::set_zone;
use datetime_types::OffsetDateTime;
use description_items::Rfc2822;
use parsing_combinator::{Parse, ParseFromDescription};
use parsing_record::Parsed;
use parsing_rfc2822::{Rfc2822Parts, parse_prefix};

// Sets all that a text says.
fn set_parts(parts: &Rfc2822Parts, parsed: &mut Parsed)
    requires { AreInRange parts.now }
    ensures { parsed.new ≡ Put.put_rfc2822 parts.now parsed.old }
{
    if let Some(weekday) = parts.weekday {
        parsed.set_weekday(weekday);
    }
    parsed.set_day(parts.day);
    parsed.set_month(parts.month);
    parsed.set_year(i32::from(parts.year));
    parsed.set_hour_24(parts.hour);
    parsed.set_minute(parts.minute);
    if let Some(second) = parts.second {
        parsed.set_second(second);
    }
    set_zone(parts.zone, parsed);
    parsed.permit_leap_second();
}

/// Reads a date-time of RFC 2822, section 3.3, at the start of the bytes into the record, and returns the rest.
///
/// A refusal changes nothing. What the text does not say stays as it was; a second 60 may stand for a leap second
/// afterwards.
#[tactic(auto, unfolding(crate::specs::Staged::reads_rfc2822))]
pub fn read_rfc2822<'a>(
    input: &'a [u8],
    parsed: &mut Parsed,
) -> Result<&'a [u8], ParseFromDescription>
    ensures reads { Reads result parsed.old parsed.new (reads_rfc2822 parsed.old input.now) }
    ensures end { IfOk result (λ rest. EndsWith input.now rest.now) }
    ensures short_name { IfErr result (λ e. HasShortName (reading_fault e)) }
{
    let (parts, rest) = parse_prefix(true, input)?;
    set_parts(&parts, parsed);
    Ok(rest)
}

impl Parsable for Rfc2822 {
    ghost reading = { λ _. alone reads_rfc2822 };

    ghost moment = { λ _. direct };

    fn parse_into<'a>(&self, input: &'a [u8], parsed: &mut Parsed) -> Result<&'a [u8], Parse> {
        Ok(read_rfc2822(input, parsed)?)
    }

    fn parse_into_counted<'a>(
        &self,
        input: &'a [u8],
        parsed: &mut Parsed,
    ) -> (Result<&'a [u8], Parse>, u128) {
        (self.parse_into(input, parsed), 1)
    }

    fn parse_offset_date_time(
        &self,
        input: &[u8],
        defaults: Option<Parsed>,
    ) -> Result<OffsetDateTime, Parse> {
        match defaults {
            None => self.read_direct(input),
            Some(_) => self.moment_of_record(input, defaults),
        }
    }
}

impl TwoRoads for Rfc2822 {
    #[inline(always)]
    fn read_direct(&self, input: &[u8]) -> Result<OffsetDateTime, Parse> {
        match parsing_rfc2822_shapes::read_fast(input) {
            Some(moment) => Ok(moment),
            None => parsing_rfc2822::read_exact(input),
        }
    }
}

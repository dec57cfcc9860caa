//! ISO 8601, read into a record and as a moment.
ghost use Rattle.std.specs.Prelude.{◌≡◌, IfOk, IfErr, Some};
ghost use Rattle.parsing_combinator.specs.FaultOf.{reading_fault};
ghost use Rattle.parsing_combinator.specs.ShortName.{HasShortName};
ghost use Rattle.parsing_combinator.specs.Tame.{EndsWith};
ghost use Rattle.parsing_components.specs.Put.{Reads};
ghost use Rattle.parsing_iso8601.specs.Ranges.{AreInRange, IsDateInRange, IsTimeInRange, IsOffsetInRange};
ghost use Rattle.parsing_parsable.specs.Moment.{moment_by};
ghost use Rattle.parsing_parsable.specs.Put as Put;
ghost use Rattle.parsing_parsable.specs.Staged.{reads_iso8601};
ghost use Rattle.parsing_record.specs.Meaning.{alone};

use crate::parsable::Parsable;
use datetime_types::OffsetDateTime;
use description_items::Iso8601;
use parsing_combinator::{Parse, ParseFromDescription};
use parsing_iso8601::{Iso8601Parts, WrittenDate, WrittenOffset, WrittenTime, parse_prefix};
use parsing_record::Parsed;

// Sets what a text says of the date.
fn set_date(date: WrittenDate, parsed: &mut Parsed)
    requires { IsDateInRange date }
    ensures { parsed.new ≡ Put.put_date (Some date) parsed.old }
{
    match date {
        WrittenDate::OfMonth(year, month, day) => {
            parsed.set_year(year);
            parsed.set_month(month);
            parsed.set_day(day);
        }
        WrittenDate::OfYear(year, ordinal) => {
            parsed.set_year(year);
            parsed.set_ordinal(ordinal);
        }
        WrittenDate::OfWeek(year, week, weekday) => {
            parsed.set_iso_year(year);
            parsed.set_iso_week_number(week);
            parsed.set_weekday(weekday);
        }
    }
}

// Sets what a text says of the time of day.
fn set_time(time: WrittenTime, parsed: &mut Parsed)
    requires { IsTimeInRange time }
    ensures { parsed.new ≡ Put.put_time (Some time) parsed.old }
{
    parsed.set_hour_24(time.hour);
    parsed.set_minute(time.minute);
    parsed.set_second(time.second);
    parsed.set_subsecond(time.subsecond);
}

// Sets what a text says of the offset.
fn set_offset(offset: WrittenOffset, parsed: &mut Parsed)
    requires { IsOffsetInRange offset }
    ensures { parsed.new ≡ Put.put_offset (Some offset) parsed.old }
{
    parsed.set_offset_hour(offset.hour);
    parsed.set_offset_minute_signed(offset.minute);
    if let Some(second) = offset.second {
        parsed.set_offset_second_signed(second);
    }
}

// Sets all that a text says.
fn set_parts(parts: &Iso8601Parts, parsed: &mut Parsed)
    requires { AreInRange parts.now }
    ensures { parsed.new ≡ Put.put_iso8601 parts.now parsed.old }
{
    parsed.permit_leap_second();
    if let Some(date) = parts.date {
        set_date(date, parsed);
    }
    if let Some(time) = parts.time {
        set_time(time, parsed);
    }
    if let Some(offset) = parts.offset {
        set_offset(offset, parsed);
    }
}

/// Reads a date, a time of day and an offset of ISO 8601, each of which may be missing, at the start of the bytes into
/// the record, and returns the rest.
///
/// A refusal changes nothing. What the text does not say stays as it was; a second 60 may stand for a leap second
/// afterwards.
#[tactic(auto, unfolding(crate::specs::Staged::reads_iso8601))]
pub fn read_iso8601<'a>(
    input: &'a [u8],
    parsed: &mut Parsed,
) -> Result<&'a [u8], ParseFromDescription>
    ensures reads { Reads result parsed.old parsed.new (reads_iso8601 parsed.old input.now) }
    ensures end { IfOk result (λ rest. EndsWith input.now rest.now) }
    ensures short_name { IfErr result (λ e. HasShortName (reading_fault e)) }
{
    let (parts, rest) = parse_prefix(input)?;
    set_parts(&parts, parsed);
    Ok(rest)
}

impl Parsable for Iso8601 {
    ghost reading = { λ _. alone reads_iso8601 };

    ghost moment = { λ _. moment_by (alone reads_iso8601) };

    fn parse_into<'a>(&self, input: &'a [u8], parsed: &mut Parsed) -> Result<&'a [u8], Parse> {
        Ok(read_iso8601(input, parsed)?)
    }

    fn parse_into_counted<'a>(
        &self,
        input: &'a [u8],
        parsed: &mut Parsed,
    ) -> (Result<&'a [u8], Parse>, u128) {
        (self.parse_into(input, parsed), 1)
    }

    fn parse_offset_date_time(
        &self,
        input: &[u8],
        defaults: Option<Parsed>,
    ) -> Result<OffsetDateTime, Parse> {
        self.moment_of_record(input, defaults)
    }
}

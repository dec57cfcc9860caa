//! What bytes can be read by.
ghost use Rattle.std.specs.Prelude.{◌≡◌, ℕ, List, None, Some, Result, ◌<◌, length, min, IfOk, IfErr, OnOk, OnErr};
ghost use Rattle.datetime_wall.specs.Wall.{Shown};
ghost use Rattle.parsing_combinator.specs.Fault.{Fault, trailing};
ghost use Rattle.parsing_combinator.specs.FaultOf.{Gives, fault_of};
ghost use Rattle.parsing_combinator.specs.ShortName.{HasShortName};
ghost use Rattle.parsing_combinator.specs.Tame.{EndsWith};
ghost use Rattle.parsing_record.specs.Meaning.{Counted, meaning};
ghost use Rattle.parsing_record.specs.Tally.{greatest_count};
ghost use Rattle.parsing_record.specs.Whole.{ReadsInto, starting, whole, names, date_named, time_named, offset_named, wall_named, utc_named, timestamp_named, moment_named, by_roads};

use calendar::{Date, Time, UtcOffset};
use datetime_types::{OffsetDateTime, PlainDateTime, Timestamp, UtcDateTime};
use parsing_combinator::{Parse, ParseFromDescription};
use parsing_record::Parsed;

// Refuses what follows.
#[inline(always)]
fn ended(rest: &[u8]) -> Result<(), Parse>
    ensures nothing { OnOk result (length rest.now ≡ 0) }
    ensures some { OnErr result (0 < length rest.now) }
    ensures fault { IfErr result (λ e. fault_of e ≡ trailing) }
{
    if rest.is_empty() {
        Ok(())
    } else {
        Err(ParseFromDescription::UnexpectedTrailingCharacters.into())
    }
}

// The record that reading begins with.
#[inline(always)]
fn started(defaults: Option<Parsed>) -> Parsed
    ensures { result ≡ starting defaults }
{
    match defaults {
        Some(defaults) => defaults,
        None => Parsed::new(),
    }
}

/// A description or a format that bytes are read by.
///
/// The defaults of a call are a record that reading begins with: components that the bytes do not say are taken from
/// it. A refusal is `Parse::ParseFromDescription` where the bytes can't be read, and `Parse::TryFromParsed` where
/// what they say names no value.
pub trait Parsable {
    // From a record and bytes a record and the rest, or a fault, and how many items were begun.
    ghost reading: { Self → Counted };

    // The moment that all of the bytes name where there are no defaults: that of the record which they set, but for a
    // format with a reading of its own.
    ghost moment: { Self → List ℕ → Result Shown Fault };

    /// Reads the prefix of the bytes into the record, and returns the rest. A refusal leaves the record as it was.
    fn parse_into<'a>(&self, input: &'a [u8], parsed: &mut Parsed) -> Result<&'a [u8], Parse>
        ensures reads { ReadsInto result parsed.old parsed.new
            (reading self.now parsed.old input.now).0 }
        ensures end { IfOk result (λ rest. EndsWith input.now rest.now) }
        ensures short_name { IfErr result (λ e. HasShortName (fault_of e)) };

    /// The same, with the number of items whose reading began, or the greatest number where they are more.
    fn parse_into_counted<'a>(
        &self,
        input: &'a [u8],
        parsed: &mut Parsed,
    ) -> (Result<&'a [u8], Parse>, u128)
        ensures reads { ReadsInto result.0 parsed.old parsed.new
            (reading self.now parsed.old input.now).0 }
        ensures tried { result.1 ≡ min (reading self.now parsed.old input.now).1 greatest_count }
        ensures end { IfOk result.0 (λ rest. EndsWith input.now rest.now) }
        ensures short_name { IfErr result.0 (λ e. HasShortName (fault_of e)) };

    /// Reads all of the bytes, from the defaults where there are any. What is left over is refused as
    /// `UnexpectedTrailingCharacters`.
    #[tactic(auto, unfolding(parsing_components::specs::Whole::whole))]
    fn parse_internal(&self, input: &[u8], defaults: Option<Parsed>) -> Result<Parsed, Parse>
        ensures record { Gives (λ r. r) fault_of result
            (whole (meaning (reading self.now)) defaults input.now) }
        ensures short_name { IfErr result (λ e. HasShortName (fault_of e)) }
    {
        let mut parsed = started(defaults);
        ended(self.parse_into(input, &mut parsed)?)?;
        Ok(parsed)
    }

    /// Reads all of the bytes into a record, without defaults.
    final fn parse(&self, input: &[u8]) -> Result<Parsed, Parse>
        ensures record { Gives (λ r. r) fault_of result
            (whole (meaning (reading self.now)) None input.now) }
        ensures short_name { IfErr result (λ e. HasShortName (fault_of e)) }
    {
        self.parse_internal(input, None)
    }

    /// The date that all of the bytes name. A year and the day in it count first, then a year, a month and a day,
    /// then the weeks: of ISO 8601, from Sunday, from Monday.
    final fn parse_date(&self, input: &[u8], defaults: Option<Parsed>) -> Result<Date, Parse>
        ensures value { Gives (λ value. value) fault_of result
            (names date_named (whole (meaning (reading self.now)) defaults input.now)) }
        ensures short_name { IfErr result (λ e. HasShortName (fault_of e)) }
    {
        match self.parse_internal(input, defaults) {
            Ok(parsed) => Ok(Date::try_from(parsed)?),
            Err(fault) => Err(fault),
        }
    }

    /// The time of day that all of the bytes name: its hour has to be said, and what is finer than the last part said
    /// is 0. Second 60 is out of range.
    final fn parse_time(&self, input: &[u8], defaults: Option<Parsed>) -> Result<Time, Parse>
        ensures value { Gives (λ value. value) fault_of result
            (names time_named (whole (meaning (reading self.now)) defaults input.now)) }
        ensures short_name { IfErr result (λ e. HasShortName (fault_of e)) }
    {
        match self.parse_internal(input, defaults) {
            Ok(parsed) => Ok(Time::try_from(parsed)?),
            Err(fault) => Err(fault),
        }
    }

    /// The offset that all of the bytes name: its hour has to be said, minutes and seconds that are not are 0.
    final fn parse_offset(&self, input: &[u8], defaults: Option<Parsed>) -> Result<UtcOffset, Parse>
        ensures value { Gives (λ value. value) fault_of result
            (names offset_named (whole (meaning (reading self.now)) defaults input.now)) }
        ensures short_name { IfErr result (λ e. HasShortName (fault_of e)) }
    {
        match self.parse_internal(input, defaults) {
            Ok(parsed) => Ok(UtcOffset::try_from(parsed)?),
            Err(fault) => Err(fault),
        }
    }

    /// The date and the time of day that all of the bytes name, whatever they say of an offset. Second 60 is out of
    /// range.
    final fn parse_plain_date_time(
        &self,
        input: &[u8],
        defaults: Option<Parsed>,
    ) -> Result<PlainDateTime, Parse>
        ensures value { Gives (λ value. value) fault_of result
            (names wall_named (whole (meaning (reading self.now)) defaults input.now)) }
        ensures short_name { IfErr result (λ e. HasShortName (fault_of e)) }
    {
        match self.parse_internal(input, defaults) {
            Ok(parsed) => Ok(PlainDateTime::try_from(parsed)?),
            Err(fault) => Err(fault),
        }
    }

    /// The moment in UTC that all of the bytes name. One without the hour of an offset is in UTC. Its day in UTC has
    /// to be one of the calendar, or the year is out of range.
    final fn parse_utc_date_time(
        &self,
        input: &[u8],
        defaults: Option<Parsed>,
    ) -> Result<UtcDateTime, Parse>
        ensures value { Gives (λ value. value) fault_of result
            (names utc_named (whole (meaning (reading self.now)) defaults input.now)) }
        ensures short_name { IfErr result (λ e. HasShortName (fault_of e)) }
    {
        match self.parse_internal(input, defaults) {
            Ok(parsed) => Ok(UtcDateTime::try_from(parsed)?),
            Err(fault) => Err(fault),
        }
    }

    /// The instant that all of the bytes name: of Unix time, or of a date, a time of day and an offset. Where it is
    /// of these, any refusal but one of reading is `InsufficientInformation`.
    final fn parse_timestamp(
        &self,
        input: &[u8],
        defaults: Option<Parsed>,
    ) -> Result<Timestamp, Parse>
        ensures value { Gives (λ value. value) fault_of result
            (names timestamp_named (whole (meaning (reading self.now)) defaults input.now)) }
        ensures short_name { IfErr result (λ e. HasShortName (fault_of e)) }
    {
        match self.parse_internal(input, defaults) {
            Ok(parsed) => Ok(Timestamp::try_from(parsed)?),
            Err(fault) => Err(fault),
        }
    }

    /// The moment, with its offset, of the record that all of the bytes set, from the defaults where there are any: of Unix
    /// time, at offset zero, or of a date, a time of day and an offset.
    #[inline(always)]
    #[tactic(auto, unfolding(parsing_components::specs::Whole::whole))]
    fn moment_of_record(
        &self,
        input: &[u8],
        defaults: Option<Parsed>,
    ) -> Result<OffsetDateTime, Parse>
        ensures value { Gives (λ value. value) fault_of result
            (names moment_named (whole (meaning (reading self.now)) defaults input.now)) }
        ensures short_name { IfErr result (λ e. HasShortName (fault_of e)) }
    {
        let mut parsed = started(defaults);
        ended(self.parse_into(input, &mut parsed)?)?;
        Ok(parsed.offset_date_time()?)
    }

    /// The moment that all of the bytes name, with its offset. Second 60 of a well-known format stands for the last
    /// nanosecond before it, and has to end a month in UTC.
    ///
    /// It is `moment_of_record`, but that `Rfc2822` and `Rfc3339` read a text without defaults by no record: a refusal is
    /// then the first one in the order that `TwoRoads::read_direct` says.
    fn parse_offset_date_time(
        &self,
        input: &[u8],
        defaults: Option<Parsed>,
    ) -> Result<OffsetDateTime, Parse>
        ensures value { Gives (λ value. value) fault_of result
            (by_roads (moment self.now) (meaning (reading self.now)) defaults input.now) }
        ensures short_name { IfErr result (λ e. HasShortName (fault_of e)) };
}

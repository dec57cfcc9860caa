//! The parts of a text, one after another.
ghost use Rattle.std.specs.Prelude.{◌≡◌, Ok, IfOk, IfErr, IfSome};
ghost use Rattle.parsing_combinator.specs.ShortName.{HasShortName};
ghost use Rattle.parsing_combinator.specs.Tame.{EndsWith};
ghost use Rattle.parsing_iso8601.specs.Ranges.{IsDateInRange, IsTimeInRange, IsOffsetInRange, AreInRange};
ghost use Rattle.parsing_combinator.specs.FaultOf.{Gives, reading_fault};
ghost use Rattle.parsing_iso8601.specs.Reading as Reading;
ghost use Rattle.parsing_iso8601.specs.ReadView.{date_view};

use crate::date::date_after;
use crate::kind::{Kind, kind_of_date};
use crate::number::year;
use crate::offset::offset;
use crate::time::time;
use crate::written::{Iso8601Parts, WrittenDate, WrittenOffset, WrittenTime};
use parsing_combinator::ParseFromDescription;

type DateOrFault = Result<WrittenDate, ParseFromDescription>;

/// The date or why there is none, the kind that it hands on, and the rest.
#[tactic(auto, unfolding(crate::specs::Reading::dated, crate::specs::Dates::year_and_kind))]
#[inline(always)]
fn dated(bytes: &[u8]) -> ((DateOrFault, Kind), &[u8])
    ensures gives { Reading.dated bytes.now
        ≡ Ok ((date_view result.0.0, result.0.1), result.1.now) }
    ensures range { IfOk result.0.0 IsDateInRange }
{
    let Some((year, rest)) = year(bytes) else {
        let fault = ParseFromDescription::InvalidComponent("year");
        return ((Err(fault), Kind::Unknown), bytes);
    };
    let (kind, after) = kind_of_date(rest);
    match date_after(kind, year, after) {
        Ok((date, rest)) => ((Ok(date), kind), rest),
        Err(fault) => ((Err(fault), kind), bytes),
    }
}

// The offset, where it may stand and is there.
fn offset_after(
    has_date: bool,
    has_time: bool,
    kind: Kind,
    bytes: &[u8],
) -> (Option<WrittenOffset>, &[u8])
    ensures gives { Reading.offset_after has_date has_time kind bytes.now
        ≡ Ok (result.0, result.1.now) }
    ensures range { IfSome result.0 IsOffsetInRange }
{
    match offset(kind, bytes) {
        Some((read, rest)) if has_time || !has_date => (Some(read), rest),
        _ => (None, bytes),
    }
}

// What was read, or why nothing was.
fn gathered(
    date: DateOrFault,
    time: Option<WrittenTime>,
    offset: Option<WrittenOffset>,
    rest: &[u8],
) -> Result<(Iso8601Parts, &[u8]), ParseFromDescription>
    requires date { IfOk date IsDateInRange }
    requires time { IfSome time IsTimeInRange }
    requires offset { IfSome offset IsOffsetInRange }
    ensures gives { Gives (λ x. (x.0, x.1.now)) reading_fault result
        (Reading.gathered (date_view date) time offset rest.now) }
    ensures range { IfOk result (λ x. AreInRange x.0) }
{
    let date = match date {
        Ok(date) => Some(date),
        Err(fault) if time.is_none() && offset.is_none() => return Err(fault),
        Err(_) => None,
    };
    Ok((Iso8601Parts { date, time, offset }, rest))
}

// The date, the time of day and the offset, each of which may be missing.
#[tactic(auto, unfolding(crate::specs::Reading::iso8601))]
fn parts(bytes: &[u8]) -> Result<(Iso8601Parts, &[u8]), ParseFromDescription>
    ensures gives { Gives (λ x. (x.0, x.1.now)) reading_fault result (Reading.iso8601 bytes.now) }
    ensures range { IfOk result (λ x. AreInRange x.0) }
{
    let ((date, kind), rest) = dated(bytes);
    let (read, rest) = match time(kind, date.is_ok(), rest) {
        Some((read, rest)) => (Some(read), rest),
        None => (None, rest),
    };
    let kind = read.map_or(kind, |x| x.1);
    let (offset, rest) = offset_after(date.is_ok(), read.is_some(), kind, rest);
    gathered(date, read.map(|x| x.0), offset, rest)
}

/// The parts at the start of the bytes, and the rest.
pub fn parse_prefix(bytes: &[u8]) -> Result<(Iso8601Parts, &[u8]), ParseFromDescription>
    ensures gives { Gives (λ x. (x.0, x.1.now)) reading_fault result (Reading.iso8601 bytes.now) }
    ensures range { IfOk result (λ x. AreInRange x.0) }
    ensures end { IfOk result (λ x. EndsWith bytes.now x.1.now) }
    ensures short_name { IfErr result (λ e. HasShortName (reading_fault e)) }
{
    parts(bytes)
}

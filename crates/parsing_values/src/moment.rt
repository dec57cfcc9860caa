//! The moments that parts name.
ghost use Rattle.std.specs.Prelude.{◌≡◌};
ghost use Rattle.parsing_combinator.specs.FaultOf.{Gives, resolution_fault};
ghost use Rattle.parsing_values.specs.NamedMoment.{named_wall, is_leap, dated_moment, dated_utc, dated_timestamp, unix_subsecond, named_moment, named_utc, named_timestamp};

use crate::parts::{MomentParts, OffsetParts, TimeParts};
use crate::{DateParts, clock, leap_checked};
use calendar::{ComponentName, ComponentRange, UtcOffset};
use datetime_types::{OffsetDateTime, PlainDateTime, Timestamp, UtcDateTime};
use parsing_combinator::TryFromParsed::{self, InsufficientInformation};

/// The date and the time of day that the parts name. The date's refusal comes first.
#[tactic(auto, unfolding(crate::specs::NamedMoment::named_wall))]
pub fn plain_date_time(
    leap_second_is_permitted: bool,
    date_parts: &DateParts,
    time_parts: &TimeParts,
) -> Result<PlainDateTime, TryFromParsed>
    ensures { Gives (λ w. w) resolution_fault result
        (named_wall leap_second_is_permitted date_parts.now time_parts.now) }
{
    let date = crate::date(date_parts)?;
    let time = clock::time(leap_second_is_permitted, time_parts)?;
    Ok(PlainDateTime::new(date, time))
}

// Whether a second 60 stands for a leap second.
fn is_leap(parts: &MomentParts) -> bool
    ensures { result ≡ is_leap parts.now }
{
    parts.leap_second_is_permitted && parts.time.second.unwrap_or(0) == 60
}

// The moment by date, time of day and offset.
#[tactic(auto, unfolding(crate::specs::NamedMoment::dated_moment))]
fn dated(parts: &MomentParts, offset: &OffsetParts) -> Result<OffsetDateTime, TryFromParsed>
    ensures { Gives (λ m. m) resolution_fault result (dated_moment parts.now offset.now) }
{
    let plain = plain_date_time(parts.leap_second_is_permitted, &parts.date, &parts.time)?;
    let offset = clock::offset(offset)?;
    Ok(leap_checked(is_leap(parts), plain.assume_offset(offset))?)
}

// The moment by date, time of day and offset, in UTC.
#[tactic(auto, unfolding(crate::specs::NamedMoment::dated_utc, crate::specs::NamedMoment::offset_or_utc))]
fn dated_utc(parts: &MomentParts, offset: &OffsetParts) -> Result<UtcDateTime, TryFromParsed>
    ensures { Gives (λ i. i) resolution_fault result (dated_utc parts.now offset.now) }
{
    let plain = plain_date_time(parts.leap_second_is_permitted, &parts.date, &parts.time)?;
    let offset = if offset.hour.is_none() {
        UtcOffset::UTC
    } else {
        clock::offset(offset)?
    };
    let moment = plain.assume_offset(offset);
    let refused = ComponentRange::unconditional(ComponentName::Year);
    let utc = moment.checked_to_utc().ok_or(refused)?;
    leap_checked(is_leap(parts), moment)?;
    Ok(utc)
}

// The instant by date, time of day and offset.
#[tactic(auto, unfolding(crate::specs::NamedMoment::dated_timestamp))]
fn dated_timestamp(parts: &MomentParts, offset: &OffsetParts) -> Result<Timestamp, TryFromParsed>
    ensures { Gives (λ i. i) resolution_fault result (dated_timestamp parts.now offset.now) }
{
    let moment = dated(parts, offset).or(Err(InsufficientInformation))?;
    moment.checked_to_timestamp().ok_or(InsufficientInformation)
}

// The instant of Unix nanoseconds, with a subsecond that is there in place of the nanosecond of their second.
#[tactic(auto, unfolding(crate::specs::NamedMoment::unix_subsecond, crate::specs::NamedMoment::unix_instant))]
fn unix_subsecond(nanoseconds: i128, subsecond: Option<u32>) -> Result<Timestamp, ComponentRange>
    ensures { result ≡ unix_subsecond nanoseconds subsecond }
{
    let Some(subsecond) = subsecond else {
        return Timestamp::from_nanoseconds(nanoseconds);
    };
    let instant = Timestamp::from_nanoseconds(nanoseconds)?;
    if subsecond > 999_999_999 {
        return Err(ComponentRange::unconditional(ComponentName::Nanosecond));
    }
    Timestamp::new(instant.as_seconds(), subsecond)
}

/// The moment that the parts name: Unix nanoseconds that are there, in UTC, with a subsecond in place of theirs; else
/// the date, the time of day and the offset.
#[tactic(auto, unfolding(crate::specs::NamedMoment::named_moment))]
pub fn offset_date_time(
    parts: &MomentParts,
    offset: &OffsetParts,
) -> Result<OffsetDateTime, TryFromParsed>
    ensures { Gives (λ m. m) resolution_fault result (named_moment parts.now offset.now) }
{
    let Some(nanoseconds) = parts.unix_nanoseconds else {
        return dated(parts, offset);
    };
    let instant = unix_subsecond(nanoseconds, parts.time.subsecond)?;
    Ok(instant.into())
}

/// The same in UTC, which is also the offset that is not there. Where the calendar does not have the day in UTC, the
/// year is out of range.
#[tactic(auto, unfolding(crate::specs::NamedMoment::named_utc))]
pub fn utc_date_time(
    parts: &MomentParts,
    offset: &OffsetParts,
) -> Result<UtcDateTime, TryFromParsed>
    ensures { Gives (λ i. i) resolution_fault result (named_utc parts.now offset.now) }
{
    let Some(nanoseconds) = parts.unix_nanoseconds else {
        return dated_utc(parts, offset);
    };
    Ok(unix_subsecond(nanoseconds, parts.time.subsecond)?.to_utc())
}

/// The instant that the parts name: Unix nanoseconds that are there, whatever the subsecond; else the date, the time of
/// day and the offset, or the one refusal that they say too little.
#[tactic(auto, unfolding(crate::specs::NamedMoment::named_timestamp, crate::specs::NamedMoment::unix_instant))]
pub fn timestamp(parts: &MomentParts, offset: &OffsetParts) -> Result<Timestamp, TryFromParsed>
    ensures { Gives (λ i. i) resolution_fault result (named_timestamp parts.now offset.now) }
{
    let Some(nanoseconds) = parts.unix_nanoseconds else {
        return dated_timestamp(parts, offset);
    };
    Ok(Timestamp::from_nanoseconds(nanoseconds)?)
}

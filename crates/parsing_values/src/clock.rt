//! The time of day and the offset that parts name.
ghost use Rattle.std.specs.Prelude.{◌≡◌};
ghost use Rattle.parsing_combinator.specs.FaultOf.{Gives, resolution_fault};
ghost use Rattle.parsing_values.specs.NamedTime.{hour_of, finer_parts, named_time, named_offset};

use crate::parts::{OffsetParts, TimeParts};
use crate::resolve;
use calendar::{Time, UtcOffset};
use parsing_combinator::TryFromParsed::{self, InsufficientInformation};

/// The hour of the day: one of 24 that is there, and else one of 12 with its half of the day.
#[tactic(auto, unfolding(crate::specs::NamedTime::hour_of, crate::specs::NamedTime::half_day_hour))]
pub fn hour(parts: &TimeParts) -> Option<u8>
    ensures { result ≡ hour_of parts.now }
{
    if let Some(hour) = parts.hour_24 {
        return Some(hour);
    }
    let hour = parts.hour_12? % 12;
    Some(hour + if parts.hour_12_is_pm? { 12 } else { 0 })
}

// Minute, second and nanosecond, if none is absent where a finer one is there.
#[tactic(auto, unfolding(crate::specs::NamedTime::finer_parts))]
fn finer(minute: Option<u8>, second: Option<u8>, subsecond: Option<u32>) -> Option<(u8, u8, u32)>
    ensures { result ≡ finer_parts minute second subsecond }
{
    match (minute, second, subsecond) {
        (None, None, None) => Some((0, 0, 0)),
        (Some(minute), None, None) => Some((minute, 0, 0)),
        (Some(minute), Some(second), None) => Some((minute, second, 0)),
        (Some(minute), Some(second), Some(nanosecond)) => Some((minute, second, nanosecond)),
        _ => None,
    }
}

/// The time of day that the parts name: what is finer than the last part that is there is 0.
/// `InsufficientInformation` where the hour is not there, or a part after which a finer one is.
#[tactic(auto, unfolding(crate::specs::NamedTime::named_time))]
pub fn time(leap_second_is_permitted: bool, parts: &TimeParts) -> Result<Time, TryFromParsed>
    ensures { Gives (λ t. t) resolution_fault result
        (named_time leap_second_is_permitted parts.now) }
{
    let hour = hour(parts).ok_or(InsufficientInformation)?;
    let (minute, second, nanosecond) = finer(parts.minute, parts.second, parts.subsecond).ok_or(
        InsufficientInformation,
    )?;
    Ok(resolve::permitted_time(leap_second_is_permitted, hour, minute, second, nanosecond)?)
}

/// The offset that the parts name: its hour has to be there, and seconds count only after minutes.
#[tactic(auto, unfolding(crate::specs::NamedTime::named_offset, crate::specs::NamedTime::seconds_after))]
pub fn offset(parts: &OffsetParts) -> Result<UtcOffset, TryFromParsed>
    ensures { Gives (λ o. o) resolution_fault result (named_offset parts.now) }
{
    let hour = parts.hour.ok_or(InsufficientInformation)?;
    let Some(minute) = parts.minute else {
        return Ok(UtcOffset::from_hms(hour, 0, 0)?);
    };
    Ok(UtcOffset::from_hms(hour, minute, parts.second.unwrap_or(0))?)
}

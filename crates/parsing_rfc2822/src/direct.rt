//! The moment that a text names.
ghost use Rattle.std.specs.Prelude.{◌≡◌, ◌<◌, IfErr};
ghost use Rattle.parsing_combinator.specs.FaultOf.{Gives, fault_of};
ghost use Rattle.parsing_combinator.specs.Readings.{value_read};
ghost use Rattle.parsing_combinator.specs.ShortName.{HasShortName};
ghost use Rattle.parsing_rfc2822.specs.Direct.{direct, moment_of};

use crate::parts::Rfc2822Parts;
use crate::reading::parse_prefix;
use parsing_combinator::{Parse, ParseFromDescription};
use parsing_values::{OffsetDateTime, leap_checked, resolve};

// The moment of what a text says, with what follows it.
#[tactic(auto, unfolding(crate::specs::Direct::moment_of))]
#[inline(always)]
fn resolved(parts: Rfc2822Parts, rest: &[u8]) -> Result<OffsetDateTime, Parse>
    requires hours { parts.zone.hours < 100 }
    requires minutes { parts.zone.minutes < 100 }
    ensures { Gives (λ d. d) fault_of result (value_read (moment_of parts rest.now)) }
{
    if !rest.is_empty() {
        return Err(ParseFromDescription::UnexpectedTrailingCharacters.into());
    }
    let month = parts.month.number();
    let date = resolve::date(i32::from(parts.year), month, parts.day)?;
    let second = parts.second.unwrap_or(0);
    let time = resolve::leap_time(parts.hour, parts.minute, second, 0)?;
    let zone = parts.zone;
    let offset = resolve::signed_offset(zone.is_negative, zone.hours, zone.minutes)?;
    let shown = OffsetDateTime::new_in_offset(date, time, offset);
    Ok(leap_checked(second == 60, shown)?)
}

// The moment that a text names, or its first fault.
#[tactic(auto, unfolding(crate::specs::Direct::direct, crate::specs::Direct::moment))]
#[cold]
#[inline(never)]
fn read_pieces(input: &[u8]) -> Result<OffsetDateTime, Parse>
    ensures { Gives (λ d. d) fault_of result (direct input.now) }
{
    let (parts, rest) = parse_prefix(false, input)?;
    resolved(parts, rest)
}

/// The moment that a text of RFC 2822, section 3.3, names, with the obsolete years and zones of its section 4.3.
///
/// The first fault counts: what can't be read, what follows, the ranges of date, time and offset, and last whether a
/// second 60 can be a leap second. The weekday is read and has no effect. It reads piece by piece; `read_fast` of
/// `parsing_rfc2822_shapes` finds most moments sooner.
#[inline(always)]
pub fn read_exact(input: &[u8]) -> Result<OffsetDateTime, Parse>
    ensures gives { Gives (λ d. d) fault_of result (direct input.now) }
    ensures short_name { IfErr result (λ e. HasShortName (fault_of e)) }
{
    read_pieces(input)
}

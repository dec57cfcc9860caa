//! The moment that a text names.
ghost use Rattle.std.specs.Prelude.{◌≡◌, ◌<◌, ◌↔◌, false, pos, codes, Err, IfErr, IfSome, IsTrue, Ok};
ghost use Rattle.parsing_combinator.specs.Fault.{component};
ghost use Rattle.parsing_combinator.specs.FaultOf.{Gives, fault_of};
ghost use Rattle.parsing_combinator.specs.ShortName.{HasShortName};
ghost use Rattle.parsing_rfc3339.specs.Direct.{direct, moment_of};
ghost use Rattle.parsing_rfc3339.specs.Whole.{IsLikeWhole};
ghost use Rattle.parsing_combinator.specs.Readings.{value_read};
ghost use Rattle.parsing_values.specs.Moment as Moment;

use crate::parts::Rfc3339Parts;
use crate::reading::parse_prefix;
use crate::shape::shape;
use parsing_combinator::{Parse, ParseFromDescription, four_digits};
use parsing_shapes::{read_long_moment, read_moment, read_small_moment};
use parsing_values::{Fields, OffsetDateTime, leap_checked, resolve};

// The moment of the numbers that a text has, with what follows them.
#[tactic(auto, unfolding(crate::specs::Direct::moment_of))]
#[inline(always)]
fn resolved(parts: Rfc3339Parts, rest: &[u8]) -> Result<OffsetDateTime, Parse>
    requires hours { parts.zone.hours < 100 }
    requires minutes { parts.zone.minutes < 100 }
    ensures { Gives (λ d. d) fault_of result (value_read (moment_of parts rest.now)) }
{
    let zone = parts.zone;
    let offset = resolve::signed_offset(zone.is_negative, zone.hours, zone.minutes)?;
    if !rest.is_empty() {
        return Err(ParseFromDescription::UnexpectedTrailingCharacters.into());
    }
    let date = resolve::date(i32::from(parts.year), parts.month, parts.day)?;
    let nanosecond = parts.subsecond.unwrap_or(0);
    let time = resolve::leap_time(parts.hour, parts.minute, parts.second, nanosecond)?;
    let shown = OffsetDateTime::new_in_offset(date, time, offset);
    Ok(leap_checked(parts.second == 60, shown)?)
}

// The bytes of a text without a fraction, in UTC: no text has fewer.
const SHORTEST: usize = 20;

/// The fields of a text with at most nine digits of a fraction, and a big `Z` or an offset in digits, where its numbers are in
/// range and its second is no leap second: `None` says nothing of the text.
#[inline(always)]
pub fn read_usual_fields(input: &[u8]) -> Option<Fields>
    ensures moment { IfSome result (λ fields. direct input.now ≡ Ok (Moment.moment_of fields)) }
    ensures whole { IsLikeWhole input.now → IfSome result
        (λ fields. (input.now ≡ Moment.whole_text fields) × (fields.offset ≡ pos 0)) }
{
    // The hyphen by itself first: it is what most other texts lack.
    if input.len() < SHORTEST || input[4] != b'-' {
        return None;
    }
    let fields = read_moment(&shape(), true, input)?;
    Some(fields)
}

// The bytes of a text with nine digits of a fraction, in UTC.
const WHOLE: usize = 30;

/// Whether a text has the length, the `T` and the `Z` of one with nine digits of a fraction, in UTC, whatever else it has.
#[inline(always)]
pub fn is_like_whole(input: &[u8]) -> bool
    ensures { IsTrue result ↔ IsLikeWhole input.now }
{
    input.len() == WHOLE && input[10] == b'T' && input[29] == b'Z'
}

/// The fields of a text with more digits of a fraction, or with a small `z`: `None` says nothing of the text.
#[inline(always)]
pub fn read_rare_fields(input: &[u8]) -> Option<Fields>
    ensures { IfSome result (λ fields. direct input.now ≡ Ok (Moment.moment_of fields)) }
{
    let shape = shape();
    match input {
        [.., b'z'] => read_small_moment(&shape, input),
        _ => read_long_moment(&shape, true, input),
    }
}

/// The fields of a text, where the fast way finds them: `None` says nothing of the text.
///
/// It finds those of all texts whose numbers are in range, with hours of the offset below 20, and whose second is no leap second,
/// but for a small `z` after more than nine digits of a fraction.
#[inline(always)]
pub fn read_fields(input: &[u8]) -> Option<Fields>
    ensures { IfSome result (λ fields. direct input.now ≡ Ok (Moment.moment_of fields)) }
{
    match read_usual_fields(input) {
        Some(fields) => Some(fields),
        None => read_rare_fields(input),
    }
}

/// The moment that a text names, where the fast way finds one: `None` says nothing of the text.
#[inline(always)]
pub fn read_fast(input: &[u8]) -> Option<OffsetDateTime>
    ensures { IfSome result (λ moment. direct input.now ≡ Ok moment) }
{
    let fields = read_fields(input)?;
    Some(fields.moment())
}

// The moment that a text names, or its first fault.
#[tactic(auto, unfolding(crate::specs::Direct::direct, crate::specs::Direct::moment))]
#[cold]
#[inline(never)]
fn read_pieces(input: &[u8]) -> Result<OffsetDateTime, Parse>
    ensures { Gives (λ d. d) fault_of result (direct input.now) }
{
    let (parts, rest) = parse_prefix(false, input)?;
    resolved(parts, rest)
}

/// Whether a text begins with the four digits of a year. Where it does not, that is its first fault.
#[tactic(auto, using(crate::proofs::FastLemmas::no_year))]
#[inline(always)]
pub fn begins_with_year(input: &[u8]) -> bool
    ensures { result ≡ false → direct input.now ≡ Err (component (codes "year")) }
{
    four_digits(input).is_some()
}

/// The moment that a text of RFC 3339, section 5.6, names, with any one byte between date and time.
///
/// The first fault counts: what can't be read, the offset's range, what follows, the ranges of date and time, and last
/// whether a second 60 can be a leap second. It reads piece by piece; `read_fast` finds most moments sooner.
#[tactic(auto, using(crate::proofs::TameLemmas::given_short))]
#[inline(always)]
pub fn read_exact(input: &[u8]) -> Result<OffsetDateTime, Parse>
    ensures gives { Gives (λ d. d) fault_of result (direct input.now) }
    ensures short_name { IfErr result (λ e. HasShortName (fault_of e)) }
{
    read_pieces(input)
}

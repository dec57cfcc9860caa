//! The parts of an offset, timestamps, and what is passed over.
ghost use Rattle.std.specs.Prelude.{◌≡◌, ◌≤◌, ◌<◌, ◌*◌, ◌^◌, pos, neg_ℤ, Some, IfSome, option_map};
ghost use Rattle.parsing_combinator.specs.Pieces.{cut_view};
ghost use Rattle.parsing_combinator.specs.Shape.{taken};
ghost use Rattle.parsing_combinator.specs.Numbers as Numbers;
ghost use Rattle.parsing_components.specs.Record.{InSigned, IsInRange};
ghost use Rattle.parsing_components.specs.declared.said.Read.TheVariants as read;
ghost use Rattle.parsing_components.specs.Put.{passed};
ghost use Rattle.parsing_components.specs.Ranged.{nanoseconds_before_epoch, nanoseconds_after_epoch, says, up_to, since_epoch};
ghost use Rattle.parsing_components.specs.Component as Components;

use crate::said::Read;
use description_items::modifier::Padding;
use parsing_combinator::{offset_hour, timestamp};

/// The hours of an offset with their sign, and whether that is a minus.
#[inline(always)]
pub(crate) fn hour_of_offset(
    padding: Padding,
    mandatory: bool,
    bytes: &[u8],
) -> Option<(Read, &[u8])>
    ensures reads { cut_view result
        ≡ says (up_to 25 (λ negative hour. read.OffsetHour hour negative))
        (taken (Numbers.offset_hour padding mandatory)) bytes.now }
    ensures range { IfSome result (λ x. IsInRange x.0) }
{
    let ((negative, n), rest) = offset_hour(padding, mandatory, bytes)?;
    if n > 25 {
        return None;
    }
    let n = n as i8;
    let hour = if negative { -n } else { n };
    Some((Read::OffsetHour(hour, negative), rest))
}

// The nanoseconds of so many units before or after 1970, if the calendar has them.
fn nanoseconds(is_negative: bool, count: u128, unit: u32) -> Option<i128>
    requires fits { count * unit < 2 ^ 128 }
    ensures value { result ≡ since_epoch (λ n. n) unit (is_negative, count) }
    ensures bound { InSigned (neg_ℤ (pos nanoseconds_before_epoch))
        (pos nanoseconds_after_epoch) result }
{
    let count = count * u128::from(unit);
    let greatest = if is_negative {
        NANOSECONDS_BEFORE_EPOCH
    } else {
        NANOSECONDS_AFTER_EPOCH
    };
    if count > greatest {
        return None;
    }
    let count = count as i128;
    Some(if is_negative { -count } else { count })
}

/// Unix time in a unit, as nanoseconds.
#[tactic(auto, using(crate::proofs::Timestamps::product_fits))]
pub(crate) fn unix(mandatory: bool, most: usize, unit: u32, bytes: &[u8]) -> Option<(Read, &[u8])>
    requires some { 1 ≤ most }
    requires fits { most ≤ 23 }
    requires small { unit ≤ 1_000_000_000 }
    ensures reads { cut_view result
        ≡ says (since_epoch read.Unix unit) (taken (Numbers.timestamp mandatory most)) bytes.now }
    ensures range { IfSome result (λ x. IsInRange x.0) }
{
    let ((is_negative, count), rest) = timestamp(mandatory, most, bytes)?;
    let nanoseconds = nanoseconds(is_negative, count, unit)?;
    Some((Read::Unix(nanoseconds), rest))
}

/// What follows so many bytes.
#[inline(always)]
#[tactic(auto, unfolding(crate::specs::Component::ignored))]
pub(crate) fn ignored(count: u16, bytes: &[u8]) -> Option<&[u8]>
    ensures { option_map passed result ≡ Components.ignored count bytes.now }
{
    let count = usize::from(count);
    if bytes.len() < count {
        return None;
    }
    let (_, rest) = bytes.split_at(count);
    Some(rest)
}

/// So many bytes, after which no character goes on.
pub(crate) fn ignored_characters(count: u16, bytes: &[u8]) -> Option<&[u8]>
    ensures { option_map passed result ≡ Components.if_whole (Components.ignored count bytes.now) }
{
    let rest = ignored(count, bytes)?;
    match rest {
        [b, ..] if *b >= 0x80 && *b <= 0xbf => None,
        _ => Some(rest),
    }
}

// The nanoseconds from the first day to 1970, and from 1970 to the end of the last day.
const NANOSECONDS_BEFORE_EPOCH: u128 = 31_619_087_596_800_000_000_000;

const NANOSECONDS_AFTER_EPOCH: u128 = 31_494_784_780_799_999_999_999;

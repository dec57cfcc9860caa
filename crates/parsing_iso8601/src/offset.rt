//! The offset of a text.
ghost use Rattle.std.specs.Prelude.{◌≡◌, ◌≤◌, IfSome, Some};
ghost use Rattle.parsing_combinator.specs.Pieces.{cut_view};
ghost use Rattle.parsing_iso8601.specs.Offsets as Offsets;
ghost use Rattle.parsing_iso8601.specs.Ranges.{IsOffsetInRange};

use crate::kind::Kind;
use crate::written::WrittenOffset;
use parsing_combinator::{byte, sign, two_digits};

// Past a colon that the kind allows.
#[inline(always)]
fn maybe_colon(kind: Kind, bytes: &[u8]) -> &[u8]
    ensures { Offsets.maybe_colon kind bytes.now ≡ Some (tt, result.now) }
{
    match kind {
        Kind::Basic => bytes,
        Kind::Unknown | Kind::Extended => match byte(b':', bytes) {
            Some(rest) => rest,
            None => bytes,
        },
    }
}

// Hours and minutes under one sign.
#[inline(always)]
fn under_sign(is_negative: bool, hour: u8, minute: u8) -> WrittenOffset
    requires hour { hour ≤ 25 }
    requires minute { minute ≤ 59 }
    ensures value { result ≡ Offsets.offset_of is_negative hour minute }
    ensures range { IsOffsetInRange result }
{
    let (ahead, past) = (hour as i8, minute as i8);
    WrittenOffset {
        hour: if is_negative { -ahead } else { ahead },
        minute: if is_negative { -past } else { past },
        second: None,
    }
}

/// The offset at the start of the bytes: `Z`, or a sign and hours up to 25, with minutes where they are written.
#[tactic(auto, unfolding(crate::specs::Offsets::offset, crate::specs::Offsets::signed_offset, crate::specs::Offsets::offset_minute))]
#[inline(always)]
pub fn offset(kind: Kind, bytes: &[u8]) -> Option<(WrittenOffset, &[u8])>
    ensures cut { cut_view result ≡ Offsets.offset kind bytes.now }
    ensures range { IfSome result (λ x. IsOffsetInRange x.0) }
{
    if let Some(rest) = byte(b'Z', bytes) {
        let zulu = WrittenOffset {
            hour: 0,
            minute: 0,
            second: Some(0),
        };
        return Some((zulu, rest));
    }
    let (mark, rest) = sign(bytes)?;
    let (hour, rest) = two_digits(rest)?;
    if hour > 25 {
        return None;
    }
    let rest = maybe_colon(kind, rest);
    let (minute, rest) = two_digits(rest).unwrap_or((0, rest));
    if minute > 59 {
        return None;
    }
    Some((under_sign(mark == b'-', hour, minute), rest))
}

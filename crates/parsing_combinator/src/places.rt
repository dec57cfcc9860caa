//! Numbers at places of a text where digits are known to stand.
//!
//! Bytes stand in one number, the first one lowest: one product takes the tens of all digits, to the byte after them.
ghost use Rattle.std.specs.Prelude.{◌≡◌, ◌≤◌, ◌+◌, ◌*◌, ◌/◌, ◌%◌, Some, drop};
ghost use Rattle.parsing_combinator.specs.Pieces as Pieces;
ghost use Rattle.parsing_combinator.specs.Places.{HasPair, AreFour};

// The numbers of the first two and of the last two of four digits, each in a byte, the first one lowest.
#[inline(always)]
#[tactic(auto, using(crate::proofs::AtPlaces::product))]
pub(crate) fn pairs(digits: u32) -> (u8, u8)
    requires { AreFour digits }
    ensures first { result.0 ≡ digits % 256 * 10 + digits / 256 % 256 }
    ensures second { result.1 ≡ digits / 65_536 % 256 * 10 + digits / 16_777_216 }
{
    let pairs = digits.wrapping_mul(2561);
    ((pairs / 0x100 % 0x100) as u8, (pairs / 0x100_0000) as u8)
}

/// The numbers of the two digits at a place and of the two after them.
#[inline(always)]
pub fn two_pairs_at(text: &[u8], place: usize) -> (u8, u8)
    requires first { HasPair text.now place }
    requires second { HasPair text.now (place + 2) }
    ensures first { Pieces.digits 2 (drop place text.now)
        ≡ Some (result.0, drop (place + 2) text.now) }
    ensures second { Pieces.digits 2 (drop (place + 2) text.now)
        ≡ Some (result.1, drop (place + 4) text.now) }
    ensures first_bound { result.0 ≤ 99 }
    ensures second_bound { result.1 ≤ 99 }
{
    let bytes = [
        text[place],
        text[place + 1],
        text[place + 2],
        text[place + 3],
    ];
    pairs(u32::from_le_bytes(bytes) - 0x3030_3030)
}

/// The number of the four digits at a place.
#[inline(always)]
pub fn four_digits_at(text: &[u8], place: usize) -> u16
    requires high { HasPair text.now place }
    requires low { HasPair text.now (place + 2) }
    ensures digits { Pieces.digits 4 (drop place text.now)
        ≡ Some (result, drop (place + 4) text.now) }
    ensures bound { result ≤ 9999 }
{
    let (high, low) = two_pairs_at(text, place);
    u16::from(high) * 100 + u16::from(low)
}

//! Digits, up to eight of them read at once.
//!
//! Eight bytes stand in one number, the first one lowest: one test takes all of them, and one product the tens of all
//! digits. A text of another shape may be `None` here and still be read byte by byte.
ghost use Rattle.std.specs.Prelude.{◌≡◌, ◌≤◌, ◌<◌, ◌+◌, ◌-◌, ◌*◌, ◌%◌, ◌^◌, IfSome, IfNone, Some, [], take, drop, length, replicate, bit_and};
ghost use Rattle.base.specs.Bytes.{digit_zero};
ghost use Rattle.parsing_combinator.specs.Pieces as Pieces;
ghost use Rattle.parsing_combinator.specs.Chunks as Chunks;

use crate::cut::one_digit;
use crate::places::pairs;

// Eight bytes as one number, the first one lowest.
type Chunk = u64;

// The first eight bytes.
#[inline(always)]
#[tactic(auto, using(crate::proofs::Lanes::chunk_eight))]
fn first_chunk(bytes: &[u8]) -> Option<(Chunk, &[u8])>
    ensures enough { IfSome result (λ x. 8 ≤ length bytes.now) }
    ensures few { IfNone result (length bytes.now < 8) }
    ensures chunk { IfSome result (λ x. x.0 ≡ Chunks.chunk (take 8 bytes.now)) }
    ensures rest { IfSome result (λ x. x.1.now ≡ drop 8 bytes.now) }
{
    let [a, b, c, d, e, f, g, h, rest @ ..] = bytes else {
        return None;
    };
    Some((u64::from_le_bytes([*a, *b, *c, *d, *e, *f, *g, *h]), rest))
}

/// What eight bytes have above the digit zero, where all of them are digits.
#[inline(always)]
pub fn above_zeros(chunk: u64) -> Option<u64>
    ensures above { IfSome result (λ x. x + 0x3030_3030_3030_3030 ≡ chunk) }
    ensures digits { IfSome result (λ _. Chunks.AreEightDigits chunk) }
{
    let above = chunk.wrapping_sub(0x3030_3030_3030_3030);
    if (above | above.wrapping_add(0x0606_0606_0606_0606)) & 0xf0f0_f0f0_f0f0_f0f0 != 0 {
        return None;
    }
    Some(above)
}

// Eight digits, where all of them are there.
#[inline(always)]
fn eight_digits(bytes: &[u8]) -> Option<(u32, &[u8])>
    ensures digits { IfSome result (λ x. Pieces.digits 8 bytes.now ≡ Some (x.0, x.1.now)) }
    ensures bound { IfSome result (λ x. x.0 < 100_000_000) }
{
    let (chunk, rest) = first_chunk(bytes)?;
    let digits = above_zeros(chunk)?;
    let (first, second) = pairs((digits % 0x1_0000_0000) as u32);
    let (third, fourth) = pairs((digits / 0x1_0000_0000) as u32);
    let high = u32::from(first) * 100 + u32::from(second);
    let low = u32::from(third) * 100 + u32::from(fourth);
    Some((high * 10_000 + low, rest))
}

// The first eight bytes, or all of them where they are fewer.
#[inline(always)]
#[tactic(auto, using(std::proofs::lemmas::List::take_all))]
fn chunk_of(bytes: &[u8]) -> Chunk
    ensures { result ≡ Chunks.chunk (take 8 bytes.now) }
{
    match first_chunk(bytes) {
        Some((chunk, _)) => chunk,
        None => short_chunk(bytes),
    }
}

// All bytes, fewer than eight.
#[inline(always)]
#[tactic(auto, using(crate::proofs::PaddingLemmas::drop_fits, crate::proofs::PaddingLemmas::chunk_drop))]
fn short_chunk(bytes: &[u8]) -> Chunk
    requires { length bytes.now < 8 }
    ensures { result ≡ Chunks.chunk bytes.now }
{
    let mut chunk = 0;
    let mut at = bytes.len();
    while at > 0 {
        at -= 1;
        chunk = chunk * 256 + u64::from(bytes[at]);
    }
    chunk
}

// How many of the eight bytes come before the first that has not the high half of a digit.
#[inline(always)]
#[tactic(auto, using(std::proofs::lemmas::Nat::trailing_le), unfolding(crate::specs::Chunks::likely_digits))]
fn likely_digits(chunk: Chunk) -> usize
    ensures value { result ≡ Chunks.likely_digits chunk }
    ensures few { result ≤ 8 }
{
    let others = (chunk & 0xf0f0_f0f0_f0f0_f0f0) ^ 0x3030_3030_3030_3030;
    others.trailing_zeros() as usize / 8
}

// Ones in the first bytes, for each number of them.
static FIRST_BYTES: [Chunk; 9] = [
    0,
    0xff,
    0xffff,
    0xff_ffff,
    0xffff_ffff,
    0xff_ffff_ffff,
    0xffff_ffff_ffff,
    0xff_ffff_ffff_ffff,
    0xffff_ffff_ffff_ffff,
];

// The digit zero in all bytes but the first, for each number of these.
static ZEROS_AFTER: [Chunk; 9] = [
    0x3030_3030_3030_3030,
    0x3030_3030_3030_3000,
    0x3030_3030_3030_0000,
    0x3030_3030_3000_0000,
    0x3030_3030_0000_0000,
    0x3030_3000_0000_0000,
    0x3030_0000_0000_0000,
    0x3000_0000_0000_0000,
    0,
];

/// The digit zero at each of eight places after the first so many.
#[inline(always)]
#[tactic(auto, using(crate::proofs::PaddingLemmas::zeros_at))]
pub fn zeros_after(count: usize) -> u64
    requires { count ≤ 8 }
    ensures { result ≡ Chunks.chunk (replicate (8 - count) digit_zero) * 2 ^ (8 * count) }
{
    ZEROS_AFTER[count]
}

/// At most eight digits at the start, in one number with the digit zero after them, the first one lowest, and how many
/// they are: all that are there, where they are fewer than eight.
#[inline(always)]
pub fn digit_chunk(bytes: &[u8]) -> Option<(u64, usize)>
    ensures { IfSome result (λ x. Chunks.IsDigitChunk bytes.now x.0 x.1) }
{
    let chunk = chunk_of(bytes);
    let count = likely_digits(chunk);
    if count == 0 {
        return None;
    }
    // Each byte has the high half of a digit.
    let digits = (chunk & FIRST_BYTES[count]) + zeros_after(count);
    let sum = digits.wrapping_add(0x0606_0606_0606_0606);
    if sum & 0xf0f0_f0f0_f0f0_f0f0 != 0x3030_3030_3030_3030 {
        return None;
    }
    Some((digits, count))
}

/// Nine digits, where all of them are there.
#[tactic(auto, using(crate::proofs::Fixed::digits_nine))]
#[inline(always)]
pub fn nine_digits(bytes: &[u8]) -> Option<(u32, &[u8])>
    ensures digits { IfSome result (λ x. Pieces.digits 9 bytes.now ≡ Some (x.0, x.1.now)) }
    ensures bound { IfSome result (λ x. x.0 < 1_000_000_000) }
{
    let (high, rest) = eight_digits(bytes)?;
    let (low, rest) = one_digit(rest)?;
    Some((high * 10 + u32::from(low), rest))
}

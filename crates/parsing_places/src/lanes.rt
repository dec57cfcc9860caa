//! Vectors of sixteen bytes.
ghost use Rattle.std.specs.Prelude.{◌≡◌, ◌≤◌, ◌<◌, ◌+◌, ◌-◌, ◌*◌, ◌/◌, ◌^◌, ◌%◌, ℕ, List, get_or, length, true, bit_or};
ghost use Rattle.parsing_places.specs.Lanes.{above, are_moves};
ghost use Rattle.std.specs.Simd.Lanes.{number_l, chunk};

use std::simd::prelude::*;

/// How many bytes are in a vector.
pub const LANES: usize = 16;

/// The sixteen bytes from a place on.
#[inline(always)]
pub fn sixteen_from(text: &[u8], place: usize) -> u8x16
    requires { place + LANES ≤ length text.now }
    ensures bytes { (k : ℕ) → k < LANES → get_or result k 0 ≡ get_or text.now (place + k) 0 }
    ensures small { (k : ℕ) → get_or text.now k 0 < 256 }
{
    u8x16::from_slice(&text[place..])
}

/// How far each byte lies above another.
#[inline(always)]
pub fn all_above(bytes: u8x16, low: u8x16) -> u8x16
    ensures above { (k : ℕ) → k < LANES → get_or result k 0 ≡ above (get_or bytes k 0) (get_or low k 0) }
    ensures small { (k : ℕ) → get_or bytes k 0 < 256 }
{
    bytes - low
}

/// Whether no byte of three vectors is more than another.
#[inline(always)]
pub(crate) fn are_at_most(
    first: u8x16,
    first_high: u8x16,
    second: u8x16,
    second_high: u8x16,
    third: u8x16,
    third_high: u8x16,
) -> bool
    ensures { result ≡ true → (k : ℕ) → k < LANES → (get_or first k 0 ≤ get_or first_high k 0)
        × (get_or second k 0 ≤ get_or second_high k 0)
        × (get_or third k 0 ≤ get_or third_high k 0) }
{
    (first.simd_le(first_high) & second.simd_le(second_high) & third.simd_le(third_high)).all()
}

// The byte `0` in the first nine lanes.
const NINE_ZEROS: [u8; LANES] = *b"000000000\0\0\0\0\0\0\0";

/// The first nine digits as text, and the other lanes as they are.
#[inline(always)]
pub(crate) fn as_text(digits: u8x16) -> u8x16
    ensures text { (k : ℕ) → k < 9 → get_or result k 0 ≡ (get_or digits k 0 + 48) % 2 ^ 8 }
    ensures rest { (k : ℕ) → 9 ≤ k → k < LANES → get_or digits k 0 ≡ 0 → get_or result k 0 ≡ 0 }
{
    digits + u8x16::from_array(NINE_ZEROS)
}

/// The first eight bytes as one number, the first one lowest, and the ninth, after which there are zeros.
#[inline(always)]
pub(crate) fn first_nine(bytes: u8x16) -> (u64, u64)
    requires { (k : ℕ) → 9 ≤ k → k < LANES → get_or bytes k 0 ≡ 0 }
    ensures first { result.0 ≡ number_l 256 (chunk 0 8 bytes) }
    ensures last { result.1 ≡ get_or bytes 8 0 }
    ensures small { (k : ℕ) → get_or bytes k 0 < 256 }
    ensures long { length bytes ≡ 16 }
{
    let halves: [u64; 2] = u64x2::from_le_bytes(bytes).to_array();
    (halves[0], halves[1])
}

/// The bits of both.
#[inline(always)]
pub fn joined(first: u8x16, second: u8x16) -> u8x16
    ensures { (k : ℕ) → k < LANES → get_or result k 0 ≡ bit_or (get_or first k 0) (get_or second k 0) }
{
    first | second
}

/// Where each lane of a vector comes from.
#[derive(Clone, Copy)]
pub struct Moves {
    /// The lane that each one takes, of another vector; one of 128 or more takes nothing, and is 0.
    pub lanes: [u8; LANES],
    ghost right: { are_moves lanes ≡ true },
}

/// The lanes that moves take.
#[tactic(auto, using(crate::proofs::LaneLemmas::taken_lane, crate::proofs::LaneLemmas::no_lane))]
#[inline(always)]
pub fn taken_by(moves: &Moves, bytes: u8x16) -> u8x16
    ensures taken { (k : ℕ) → k < LANES → get_or moves.now.lanes k 0 < LANES
        → get_or result k 0 ≡ get_or bytes (get_or moves.now.lanes k 0) 0 }
    ensures none { (k : ℕ) → k < LANES → 128 ≤ get_or moves.now.lanes k 0 → get_or result k 0 ≡ 0 }
{
    bytes.swizzle_dyn(u8x16::from_array(moves.lanes))
}

// Each two bytes as one number, the first one lowest.
#[tactic(auto, using(crate::proofs::LaneLemmas::word_at))]
#[inline(always)]
fn words_of(bytes: u8x16) -> u16x8
    ensures { (j : ℕ) → j < 8 → get_or result j 0 ≡ get_or bytes (2 * j) 0 + get_or bytes (2 * j + 1) 0 * 256 }
{
    u16x8::from_le_bytes(bytes)
}

// In each lane ten times the low byte and the high one.
#[inline(always)]
fn numbers_of(words: u16x8) -> u16x8
    ensures { (j : ℕ) → j < 8 → get_or result j 0 ≡ get_or words j 0 * 2561 % 2 ^ 16 / 256 }
{
    words * u16x8::splat(2561) >> u16x8::splat(8)
}

// The bytes of the lanes, the lowest one first.
#[inline(always)]
fn bytes_of(words: u16x8) -> u8x16
    ensures { (j : ℕ) → j < 8 → get_or result (2 * j) 0 ≡ get_or words j 0 % 256 }
{
    words.to_le_bytes()
}

/// Of each two digits the number.
#[tactic(auto, using(crate::proofs::LaneLemmas::number_at))]
#[inline(always)]
pub fn paired(digits: u8x16) -> u8x16
    ensures { (j : ℕ) → j < 8 → get_or digits (2 * j) 0 ≤ 9 → get_or digits (2 * j + 1) 0 ≤ 9 → get_or result (2 * j) 0 ≡ get_or digits (2 * j) 0 * 10 + get_or digits (2 * j + 1) 0 }
{
    bytes_of(numbers_of(words_of(digits)))
}

/// Month and day, minute of the day, minutes of the offset, second and sign.
#[inline(always)]
pub fn sums(numbers: u8x16) -> (u32, u32, u32, u32)
    ensures first { result.0 ≡ get_or numbers 0 0 + 64 * get_or numbers 2 0 }
    ensures second { result.1 ≡ 60 * get_or numbers 4 0 + get_or numbers 6 0 }
    ensures third { result.2 ≡ 60 * get_or numbers 8 0 + get_or numbers 10 0 }
    ensures fourth { result.3 ≡ get_or numbers 12 0 + 64 * get_or numbers 14 0 }
{
    let weights = u8x16::from_array([1, 0, 64, 0, 60, 0, 1, 0, 60, 0, 1, 0, 1, 0, 64, 0]);
    let sums: [u32; 4] = numbers.dot4(weights).to_array();
    (sums[0], sums[1], sums[2], sums[3])
}

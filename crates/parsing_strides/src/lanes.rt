//! Vectors of sixteen bytes.
ghost use Rattle.std.specs.Prelude.{◌≡◌, ◌≤◌, ◌<◌, ◌+◌, ◌*◌, ℕ, get_or, length, true};
ghost use Rattle.parsing_combinator.specs.Tame.{EndsWith};

use parsing_places::{LANES, Moves, padded, sixteen_from};
pub(crate) use parsing_places::{all_above, taken_by};
use std::simd::prelude::*;

// All lanes in order, and then as many that take nothing.
static DOWN: [u8; 2 * LANES] = [
    0, 1, 2, 3, 4, 5, 6, 7, 8, 9, 10, 11, 12, 13, 14, 15, 128, 128, 128, 128, 128, 128, 128, 128,
    128, 128, 128, 128, 128, 128, 128, 128,
];

// The lanes after so many, moved to the first ones.
#[inline(always)]
fn moved_down(bytes: u8x16, by: usize) -> u8x16
    requires { by ≤ LANES }
    ensures { (k : ℕ) → by + k < LANES → get_or result k 0 ≡ get_or bytes (by + k) 0 }
{
    bytes.swizzle_dyn(sixteen_from(&DOWN, by))
}

/// The first sixteen bytes of what is left of a line. What stands after its end means nothing.
#[inline(always)]
pub(crate) fn first_sixteen(line: &[u8], rest: &[u8]) -> u8x16
    requires { EndsWith line.now rest.now }
    ensures { (k : ℕ) → k < LANES → k < length rest.now → get_or result k 0 ≡ get_or rest.now k 0 }
{
    if rest.len() >= LANES {
        return sixteen_from(rest, 0);
    }
    if line.len() < LANES {
        return u8x16::from_array(padded(rest));
    }
    let last = sixteen_from(line, line.len() - LANES);
    moved_down(last, LANES - rest.len())
}

/// Whether no byte is more than another.
#[inline(always)]
pub(crate) fn are_at_most(bytes: u8x16, most: u8x16) -> bool
    ensures { result ≡ true → (k : ℕ) → k < LANES → get_or bytes k 0 ≤ get_or most k 0 }
{
    bytes.simd_le(most).all()
}

/// In each lane the number of two digits.
#[inline(always)]
pub(crate) fn numbers_of(tens: u8x16, ones: u8x16) -> u8x16
    ensures { (k : ℕ) → k < LANES → get_or tens k 0 * 10 + get_or ones k 0 < 256
        → get_or result k 0 ≡ get_or tens k 0 * 10 + get_or ones k 0 }
{
    let twice = tens + tens;
    let fourfold = twice + twice;
    fourfold + fourfold + twice + ones
}

/// The numbers of the lanes that moves take, and what was in the others.
#[inline(always)]
pub(crate) fn put_taken(moves: &Moves, numbers: u8x16, lanes: u8x16) -> u8x16
    ensures taken { (k : ℕ) → k < LANES → get_or moves.now.lanes k 0 < 128
        → get_or result k 0 ≡ get_or numbers k 0 }
    ensures kept { (k : ℕ) → k < LANES → 128 ≤ get_or moves.now.lanes k 0
        → get_or result k 0 ≡ get_or lanes k 0 }
{
    let is_kept = u8x16::from_array(moves.lanes).simd_ge(u8x16::splat(128));
    is_kept.select(lanes, numbers)
}

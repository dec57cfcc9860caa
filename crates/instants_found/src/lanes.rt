//! Vectors of 16 bytes, lane by lane.
ghost use Rattle.std.specs.Prelude.{◌≡◌, ◌<◌, ◌≤◌, ◌==◌, ◌+◌, ℕ, false, length, get_or, slice_index};
ghost use Rattle.std.specs.Int.{bit_at};
ghost use Rattle.instants_found.specs.Ranges.{above, is_within};

use crate::range::Range;
use crate::spread::Spread;
pub(crate) use instants_edges::{LANES, load};
use std::simd::prelude::*;

/// A bit for each lane, which is 0 only where the lane is another byte than this.
#[inline(always)]
pub(crate) fn bits_of_byte(bytes: u8x16, byte: &Spread) -> u64
    ensures { (k : ℕ) → k < LANES → bit_at result k ≡ 0 → (slice_index bytes k == byte.now.byte) ≡ false }
{
    bytes.simd_eq(u8x16::from_array(byte.lanes)).to_bitmask()
}

// How far each lane lies above another.
#[inline(always)]
fn all_above(bytes: u8x16, low: u8x16) -> u8x16
    ensures above { (k : ℕ) → k < LANES → get_or result k 0 ≡ above (get_or bytes k 0) (get_or low k 0) }
    ensures long { length result ≡ LANES }
{
    bytes - low
}

/// A bit for each lane, which is 0 only where the lane is none of these bytes.
#[inline(always)]
pub(crate) fn bits_within(bytes: u8x16, range: &Range) -> u64
    ensures { (k : ℕ) → k < LANES → bit_at result k ≡ 0 → is_within range.now (slice_index bytes k) ≡ false }
{
    all_above(bytes, u8x16::from_array(range.low.lanes))
        .simd_le(u8x16::from_array(range.span.lanes))
        .to_bitmask()
}

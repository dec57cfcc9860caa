//! Colons, looked for sixteen bytes at a time.
ghost use Rattle.std.specs.Prelude.{◌≡◌, ◌<◌, ◌≤◌, ◌==◌, ◌+◌, ℕ, true, false, length, slice_index, get_or};
ghost use Rattle.std.specs.Int.{bit_at};
ghost use Rattle.base.specs.Bytes.{colon};

use std::simd::prelude::*;

/// How many bytes are looked at at once.
pub const LANES: usize = 16;

/// The bytes from a place on.
#[inline(always)]
pub fn load(bytes: &[u8], place: usize) -> u8x16
    requires { place + LANES ≤ length bytes.now }
    ensures { (k : ℕ) → k < LANES → slice_index result k ≡ slice_index bytes.now (place + k) }
{
    u8x16::from_slice(&bytes[place..])
}

// A bit for each lane, which is 0 only where the lane is no colon.
#[inline(always)]
fn colons(bytes: u8x16) -> u64
    ensures { (k : ℕ) → k < LANES → bit_at result k ≡ 0 → (slice_index bytes k == colon) ≡ false }
{
    bytes.simd_eq(u8x16::splat(b':')).to_bitmask()
}

// Whether a colon stands among the sixteen bytes from a place on.
#[inline(always)]
fn has_colon(line: &[u8], at: usize) -> bool
    requires { at + LANES ≤ length line.now }
    ensures { result ≡ false → (k : ℕ) → k < LANES → (get_or line.now (at + k) 0 == colon) ≡ false }
{
    colons(load(line, at)) != 0
}

/// Whether no colon stands before a place: `false` says nothing of it. The last sixteen bytes begin before the end of those
/// before them.
#[inline(always)]
pub(crate) fn lacks_colon(line: &[u8], place: usize) -> bool
    requires { place ≤ length line.now }
    ensures { result ≡ true → (k : ℕ) → k < place → (get_or line.now k 0 == colon) ≡ false }
{
    if place < LANES {
        return false;
    }
    let last = place - LANES;
    let mut at = 0;
    while at < last {
        if has_colon(line, at) {
            return false;
        }
        at += LANES;
    }
    !has_colon(line, last)
}

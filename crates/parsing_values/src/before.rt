//! At most eight digits that end at a place of a line.
ghost use Rattle.std.specs.Prelude.{◌-◌, ◌<◌, ◌≤◌, drop, length, IfSome};
ghost use Rattle.parsing_combinator.specs.Chunks as Chunks;

use parsing_combinator::{above_zeros, zeros_after};
use std::simd::prelude::*;

/// So many digits that end at a place, at most eight, in one number with the digit zero after them, the first one lowest:
/// `None` says nothing.
#[inline(always)]
pub(crate) fn digits_before(line: &[u8], end: usize, count: usize) -> Option<u64>
    requires room { 8 ≤ end }
    requires within { end ≤ length line.now }
    requires some { 0 < count }
    requires few { count ≤ 8 }
    ensures { IfSome result (λ x. Chunks.IsOfDigits (drop (end - count) line.now) x count) }
{
    let eight = u64::from_le_bytes(u8x8::from_slice(&line[end - 8..]).to_array());
    let digits = (eight >> (8 * (8 - count))) + zeros_after(count);
    let _above = above_zeros(digits)?;
    Some(digits)
}

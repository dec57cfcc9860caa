//! Bytes of a string that stand for themselves, looked at sixteen at a time.
ghost use Rattle.std.specs.Prelude.{◌≡◌, ◌<◌, ◌≤◌, ◌==◌, ℕ, true, false, length, drop, get_or, position, slice_index};
ghost use Rattle.std.specs.Int.{bit_at};
ghost use Rattle.instants_fields.specs.Pieces.{rest_of};
ghost use Rattle.instants_fields.specs.Strings.{string};
ghost use Rattle.instants_fields.specs.Laws.{IsPlain};

use std::simd::prelude::*;

// How many bytes are looked at at once.
const LANES: usize = 16;

// The first bytes.
#[inline(always)]
fn load(text: &[u8]) -> u8x16
    requires { LANES ≤ length text.now }
    ensures { (k : ℕ) → k < LANES → slice_index result k ≡ slice_index text.now k }
{
    u8x16::from_slice(text)
}

// The bytes after so many.
#[inline(always)]
#[tactic(auto, using(std::proofs::lemmas::List::take_rest))]
pub(crate) fn after(text: &[u8], count: usize) -> &[u8]
    requires { count ≤ length text.now }
    ensures { result.now ≡ drop count text.now }
{
    &text[count..]
}

// A bit for each lane, which is 0 only where the lane is another byte than this.
#[inline(always)]
fn bits_of(bytes: u8x16, byte: u8) -> u64
    ensures { (k : ℕ) → k < LANES → bit_at result k ≡ 0 → (slice_index bytes k == byte) ≡ false }
{
    bytes.simd_eq(u8x16::splat(byte)).to_bitmask()
}

// Whether the first sixteen bytes are free of backslashes: `false` says nothing.
#[inline(always)]
fn is_free(text: &[u8]) -> bool
    requires { LANES ≤ length text.now }
    ensures { result ≡ true → (k : ℕ) → k < LANES → (get_or text.now k 0 == 92) ≡ false }
{
    bits_of(load(text), b'\\') == 0
}

// Whether a text of at least sixteen bytes is free of backslashes, sixteen at a time: `false` says nothing.
#[inline(always)]
fn is_all_free(text: &[u8]) -> bool
    requires { LANES ≤ length text.now }
    ensures { result ≡ true → (k : ℕ) → k < length text.now → (get_or text.now k 0 == 92) ≡ false }
{
    let last = text.len() - LANES;
    let mut count = 0;
    while count < last {
        if !is_free(after(text, count)) {
            return false;
        }
        count += LANES;
    }
    is_free(after(text, last))
}

/// Where the first escape begins, by its backslash: what stands in the part after it is not what the value says.
#[inline(always)]
pub fn first_escape(part: &[u8]) -> Option<usize>
    ensures { result ≡ position (λ c. c == 92) part.now }
{
    if part.len() >= LANES && is_all_free(part) {
        return None;
    }
    part.iter().position(|byte| *byte == b'\\')
}

// A bit for each lane, which is 0 only where the lane is no control character.
#[inline(always)]
fn bits_of_controls(bytes: u8x16) -> u64
    ensures { (k : ℕ) → k < LANES → bit_at result k ≡ 0 → 32 ≤ slice_index bytes k }
{
    bytes.simd_le(u8x16::splat(31)).to_bitmask()
}

// A bit for each of the first sixteen bytes, which is 0 only where the byte stands for itself.
#[inline(always)]
fn others(text: &[u8]) -> u64
    requires { LANES ≤ length text.now }
    ensures { (k : ℕ) → k < LANES → bit_at result k ≡ 0 → IsPlain (get_or text.now k 0) }
{
    let bytes = load(text);
    bits_of(bytes, b'"') | bits_of(bytes, b'\\') | bits_of_controls(bytes)
}

// Whether a byte stands for itself, which most letters of a name do by the first test.
fn is_plain(byte: u8) -> bool
    ensures { result ≡ true → IsPlain byte }
{
    byte > b'\\' || !matches!(byte, 0..0x20 | b'"' | b'\\')
}

// How many bytes at the start of a short text stand for themselves.
#[inline(never)]
fn few_plain(text: &[u8]) -> usize
    ensures plain { (k : ℕ) → k < result → IsPlain (get_or text.now k 0) }
    ensures within { result ≤ length text.now }
{
    for index in 0..text.len() {
        if !is_plain(text[index]) {
            return index;
        }
    }
    text.len()
}

// How many bytes at the start of a text stand for themselves: sixteen at a time, and the last fifteen one by one.
#[inline(never)]
fn many_plain(text: &[u8]) -> usize
    ensures plain { (k : ℕ) → k < result → IsPlain (get_or text.now k 0) }
    ensures within { result ≤ length text.now }
{
    let mut count = 0;
    while text.len() - count >= LANES {
        let others = others(after(text, count));
        if others != 0 {
            let plain = others.trailing_zeros() as usize;
            return count + plain.min(LANES);
        }
        count += LANES;
    }
    count + few_plain(after(text, count))
}

// The same, where there are mostly fewer than sixteen. No call of the others is inlined.
#[inline(always)]
pub(crate) fn plain_count(text: &[u8]) -> usize
    ensures plain { (k : ℕ) → k < result → IsPlain (get_or text.now k 0) }
    ensures within { result ≤ length text.now }
{
    if text.len() < LANES {
        return few_plain(text);
    }
    let others = others(text);
    if others != 0 {
        let plain = others.trailing_zeros() as usize;
        return plain.min(LANES);
    }
    LANES + many_plain(after(text, LANES))
}

// The rest of a string without the bytes at its start that stand for themselves.
#[inline(always)]
pub(crate) fn after_plain(text: &[u8]) -> &[u8]
    ensures same { rest_of (string result.now) ≡ rest_of (string text.now) }
    ensures shorter { length result.now ≤ length text.now }
{
    after(text, plain_count(text))
}

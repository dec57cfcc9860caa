//! The last bytes of a text.
ghost use Rattle.std.specs.Prelude.{◌≡◌, ◌≤◌, ◌<◌, ◌+◌, ◌-◌, ℕ, List, drop, get_or, length, true, IfSome};
ghost use Rattle.parsing_combinator.specs.Written.{WriteFraction};
ghost use Rattle.parsing_places.specs.Last.{HaveFraction, HaveLast};

use super::{LastBytes, TWICE};
use crate::lanes::{LANES, are_at_most, as_text, first_nine, sixteen_from};
use crate::shape::Window;
use parsing_values::Fraction;
use std::simd::prelude::*;

/// The fraction of these digits, of which at most nine are there, and zeros after them.
#[inline(always)]
pub fn fraction_of(digits: u8x16) -> Fraction
    requires few { (k : ℕ) → k < LANES → get_or digits k 0 ≤ 9 }
    requires rest { (k : ℕ) → 9 ≤ k → k < LANES → get_or digits k 0 ≡ 0 }
    ensures writes { (text : List ℕ) (place count : ℕ) → HaveFraction text place count digits
        → WriteFraction (drop place text) count result }
    ensures bound { result < 1_000_000_000 }
{
    let (first, last) = first_nine(as_text(digits));
    Fraction::of_nine(first, last)
}

// Whether the lowest byte at each place before the last ones is `0`.
fn begin_with_zeros(window: &Window, length: usize) -> bool
    requires { length ≤ LANES }
    ensures { result ≡ true → (k : ℕ) → k + length < LANES → get_or window.now.low k 0 ≡ 48 }
{
    for place in 0..LANES - length {
        if window.low[place] != b'0' {
            return false;
        }
    }
    true
}

// The places before so many bytes, and then lanes that take nothing.
fn places_before(length: usize) -> [u8; TWICE]
    requires { length ≤ LANES }
    ensures before { (k : ℕ) → k + length < LANES → get_or result k 0 ≡ k }
    ensures after { (k : ℕ) → LANES ≤ k + length → k < TWICE → 128 ≤ get_or result k 0 }
{
    let mut places = [128; TWICE];
    for place in 0..LANES - length {
        places[place] = place as u8;
    }
    places
}

impl LastBytes {
    /// Those of a window, of which so many bytes stand after the fraction: the lowest byte before them has to be `0`.
    pub fn of(window: Window, length: usize) -> Option<LastBytes>
        ensures window { IfSome result (λ l. l.window ≡ window) }
        ensures length { IfSome result (λ l. l.length ≡ length) }
    {
        if length > LANES || !begin_with_zeros(&window, length) {
            return None;
        }
        Some(LastBytes {
            window,
            length,
            places: places_before(length),
        })
    }

    // So many bytes before the last ones, and zeros after them.
    #[inline(always)]
    fn bytes_before(&self, bytes: u8x16, count: usize) -> u8x16
        requires { count + self.now.length ≤ LANES }
        ensures taken { (k : ℕ) → k < count
            → get_or result k 0 ≡ get_or bytes (LANES - self.now.length - count + k) 0 }
        ensures zeros { (k : ℕ) → count ≤ k → k < LANES → get_or result k 0 ≡ 0 }
    {
        let moves = sixteen_from(&self.places, LANES - self.length - count);
        bytes.swizzle_dyn(moves)
    }

    /// Whether a text up to an end has what has to stand after a fraction of so many digits, the lanes that take it, and the
    /// digits of the fraction.
    #[inline(always)]
    pub fn read(&self, text: &[u8], end: usize, count: usize) -> (bool, u8x16, u8x16)
        requires long { LANES ≤ end }
        requires within { end ≤ length text.now }
        requires few { count ≤ 9 }
        requires near { count + self.now.length ≤ LANES }
        ensures last { result.0 ≡ true → HaveLast self.now text.now end count result.1 result.2 }
        ensures digits { result.0 ≡ true → (k : ℕ) → k < LANES → get_or result.2 k 0 ≤ 9 }
        ensures rest { (k : ℕ) → 9 ≤ k → k < LANES → get_or result.2 k 0 ≡ 0 }
    {
        let high = u8x16::from_array(self.window.high);
        let nine = u8x16::splat(9);
        let (bytes, taken) = self.window.taken_at(text, end - LANES);
        let digits = self.bytes_before(bytes, count);
        let fits = are_at_most(bytes, high, digits, nine, digits, nine);
        (fits, taken, digits)
    }
}

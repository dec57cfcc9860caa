//! Two windows over a text, made for any layout and then checked.
ghost use Rattle.std.specs.Prelude.{◌≡◌, ◌≤◌, ◌<◌, ◌+◌, ℕ, length, get_or, true, IfSome};
ghost use Rattle.parsing_places.specs.Windows.{Taken};

use crate::lanes::{LANES, Moves, are_at_most, joined};
use crate::shape::Window;
use std::simd::prelude::*;

/// Sixteen bytes at the start of a text, and sixteen from a place on.
#[derive(Clone, Copy)]
pub struct Windows {
    pub prefix: Window,
    pub back: Window,
    /// Where the second window begins.
    pub back_at: usize,
}

impl Moves {
    /// The moves of these lanes, where each takes one of sixteen bytes, or nothing.
    #[tactic(auto, using(crate::proofs::LaneLemmas::moves_all))]
    pub fn checked(lanes: [u8; LANES]) -> Option<Moves>
        ensures { IfSome result (λ m. m.lanes ≡ lanes) }
    {
        for lane in 0..LANES {
            if lanes[lane] >= 16 && lanes[lane] < 128 {
                return None;
            }
        }
        Some(Moves { lanes })
    }
}

/// The bytes of a text that is shorter than a window, and zeros after them.
#[cold]
#[inline(never)]
pub fn padded(text: &[u8]) -> [u8; LANES]
    requires { length text.now < LANES }
    ensures { (k : ℕ) → get_or result k 0 ≡ get_or text.now k 0 }
{
    let mut bytes = [0; LANES];
    bytes[..text.len()].copy_from_slice(text);
    bytes
}

impl Windows {
    // Whether a text lies within both windows, and the digits that lanes take of it.
    #[inline(always)]
    fn digits_within(&self, text: &[u8]) -> (bool, u8x16)
        requires { self.now.back_at + LANES ≤ length text.now }
        ensures { result.0 ≡ true → Taken self.now text.now result.1 }
    {
        let (first, first_taken) = self.prefix.taken_at(text, 0);
        let (second, second_taken) = self.back.taken_at(text, self.back_at);
        let first_high = u8x16::from_array(self.prefix.high);
        let second_high = u8x16::from_array(self.back.high);
        let fits = are_at_most(first, first_high, second, second_high, second, second_high);
        (fits, joined(first_taken, second_taken))
    }

    // The digits of a text that is shorter than a window.
    #[cold]
    #[inline(never)]
    fn digits_of_few(&self, text: &[u8]) -> (bool, u8x16)
        requires few { length text.now < LANES }
        requires prefix { self.now.back_at ≡ 0 }
        ensures { result.0 ≡ true → Taken self.now text.now result.1 }
    {
        self.digits_within(&padded(text))
    }

    /// Whether a text lies within both windows, and the digits that lanes take of it. It may be shorter than a window that
    /// begins at its prefix.
    #[inline(always)]
    pub fn digits_of(&self, text: &[u8]) -> (bool, u8x16)
        requires { 0 < self.now.back_at → self.now.back_at + LANES ≤ length text.now }
        ensures { result.0 ≡ true → Taken self.now text.now result.1 }
    {
        if text.len() < LANES {
            return self.digits_of_few(text);
        }
        self.digits_within(text)
    }
}

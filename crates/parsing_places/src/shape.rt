//! What may stand in a text.
ghost use Rattle.std.specs.Prelude.{◌≡◌, ◌≤◌, ◌<◌, ◌+◌, ℕ, length, get_or};
ghost use Rattle.parsing_places.specs.Lanes.{above};
ghost use Rattle.parsing_places.specs.Last.{HaveWindow};

use crate::lanes::{LANES, Moves, all_above, sixteen_from, taken_by};
use std::simd::prelude::*;

/// Sixteen bytes of a text.
#[derive(Clone, Copy)]
pub struct Window {
    /// The lowest byte at each place.
    pub low: [u8; LANES],
    /// How far a byte may lie above the lowest one: 255 where any byte may stand, 0 where one alone may.
    pub high: [u8; LANES],
    /// Which lane takes which byte.
    pub taken: Moves,
}

impl Window {
    /// How far each of the sixteen bytes from a place on lies above the lowest one, and what lanes take of that.
    #[inline(always)]
    pub(crate) fn taken_at(&self, text: &[u8], at: usize) -> (u8x16, u8x16)
        requires { at + LANES ≤ length text.now }
        ensures above { (k : ℕ) → k < LANES
            → get_or result.0 k 0 ≡ above (get_or text.now (at + k) 0) (get_or self.now.low k 0) }
        ensures small { (k : ℕ) → get_or text.now k 0 < 256 }
        ensures taken { ((k : ℕ) → k < LANES → get_or result.0 k 0 ≤ get_or self.now.high k 0)
            → HaveWindow self.now text.now at result.1 }
    {
        let above = all_above(sixteen_from(text, at), u8x16::from_array(self.low));
        (above, taken_by(&self.taken, above))
    }
}

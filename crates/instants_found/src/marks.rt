//! The places of a line at which a date may begin, marked sixteen at a time.
ghost use Rattle.std.specs.Prelude.{◌≡◌, ◌<◌, ◌≤◌, ◌+◌, ℕ, length, map, IfSome};

use crate::keys::{KeyedLine, Keys, REACH};
use crate::lanes::{LANES, bits_within, load};
use crate::range::Range;
use crate::starts::{FOURTH, Place, are_within, marked_at, range_of};
use instants_sources::Source;

// How many bytes a date may begin with, less one, that marks may tell from others where there are no keys: digits and marks beside
// them, and not letters.
const FEW: u8 = 31;

/// What each date of some sources has: one of their keys, and a first and a fourth byte from a range.
#[derive(Clone, Copy)]
pub(crate) struct Marks {
    pub(crate) keys: Keys,
    pub(crate) first: Range,
    pub(crate) fourth: Range,
}

impl Marks {
    ghost use Rattle.std.specs.Int.{bit_at};
    ghost use Rattle.instants_sources.specs.Grammar.{grammar_of};
    ghost use Rattle.instants_found.specs.Keys.{IsKeyedBy};
    ghost use Rattle.instants_found.specs.Marks.{AreMarks, IsUnmarked};

    /// The marks of these sources, whose dates begin with these bytes, if none has a date of fewer than four bytes, and not most
    /// places of a text would be marked.
    pub(crate) fn of(sources: &[Source<'_>], starts: &[bool; 256]) -> Option<Marks>
        ensures { IfSome result (AreMarks (map grammar_of sources.now) starts.now) }
    {
        let keys = Keys::of(sources);
        let first = range_of(starts);
        if !are_within(starts, &first) || (keys.are_few() && first.span.byte > FEW) {
            return None;
        }
        let fourths = marked_at(sources, Place::Fourth);
        let fourth = range_of(&fourths);
        if fourths[0] || !are_within(&fourths, &fourth) {
            return None;
        }
        Some(Marks {
            keys,
            first,
            fourth,
        })
    }

    /// A bit for each of the 16 places from one on, which is 0 only where no date begins.
    #[inline(always)]
    pub(crate) fn bits(&self, line: &[u8], keyed: &KeyedLine<'_>, at: usize) -> u64
        requires within { at + REACH ≤ length line.now }
        requires keyed { IsKeyedBy self.now.keys line.now keyed.now }
        ensures { (k : ℕ) → k < LANES → bit_at result k ≡ 0 → IsUnmarked self.now line.now (at + k) }
    {
        let bits = self.keys.bits(line, keyed, at);
        if bits == 0 {
            return 0;
        }
        let begun = bits & bits_within(load(line, at), &self.first);
        if begun == 0 {
            return 0;
        }
        begun & bits_within(load(line, at + FOURTH), &self.fourth)
    }
}

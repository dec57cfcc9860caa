//! The lowest and the highest byte at the first places of texts, and how long they are.
ghost use Rattle.std.specs.Prelude.{◌≡◌, ◌≤◌, ◌<◌, ℕ, Bool, List, [], true, false, get_or};
ghost use Rattle.std.specs.Option.{ForSome};
ghost use Rattle.parsing_layout.specs.Bounds.{Admits, LongestWith};
ghost use Rattle.parsing_layout.specs.Stretch.{IsCut};

use crate::stretch::Stretch;
use std::simd::prelude::*;

// How many places have a range.
const PLACES: usize = 16;

/// The lowest and the highest byte that can stand at each of the first sixteen places of a text, and how many bytes it has
/// at most, where that is known.
#[derive(Clone, Copy)]
pub struct Bounds {
    low: [u8; PLACES],
    high: [u8; PLACES],
    longest: Option<usize>,
}

impl Bounds {
    /// Those of all texts.
    pub fn any() -> Bounds
        ensures { (whole : Bool) (line : List ℕ) → Admits whole result line }
    {
        Bounds {
            low: [0; PLACES],
            high: [255; PLACES],
            longest: None,
        }
    }

    /// Those of what is left after a text: anything, or nothing where it is to be the whole line.
    pub fn end() -> Bounds
        ensures any { (line : List ℕ) → Admits false result line }
        ensures whole { Admits true result [] }
    {
        Bounds {
            low: [0; PLACES],
            high: [255; PLACES],
            longest: Some(0),
        }
    }

    /// Those of no text.
    pub fn none() -> Bounds
        ensures { (whole : Bool) (line : List ℕ) → get_or line 0 0 < 256
            → ¬ Admits whole result line }
    {
        Bounds {
            low: [255; PLACES],
            high: [0; PLACES],
            longest: Some(0),
        }
    }

    // The range of a place, where a stretch stands before the texts that these are the bounds of.
    fn range_after(&self, stretch: Stretch, place: usize) -> (u8, u8)
        requires { place < PLACES }
        ensures low { (whole : Bool) (line rest : List ℕ) → IsCut stretch line rest
            → Admits whole self.now rest → result.0 ≤ get_or line place 0 }
        ensures high { (whole : Bool) (line rest : List ℕ) → IsCut stretch line rest
            → Admits whole self.now rest → get_or line place 0 < 256
            → get_or line place 0 ≤ result.1 }
    {
        if place < stretch.least {
            return stretch.range(place);
        }
        if !stretch.is_whole {
            return (0, 255);
        }
        let there = place - stretch.least;
        (self.low[there], self.high[there])
    }

    // How long a text is at most that has a stretch before one of those texts.
    fn longest_after(&self, stretch: Stretch) -> Option<usize>
        ensures { LongestWith result stretch self.now }
    {
        if !stretch.is_whole {
            return None;
        }
        self.longest?.checked_add(stretch.least)
    }

    /// Makes them those of the texts that begin with a stretch and go on with one of their texts.
    pub fn put(&mut self, stretch: Stretch)
        ensures { (whole : Bool) (line rest : List ℕ) → IsCut stretch line rest
            → Admits whole self.old rest → Admits whole self.new line }
    {
        let mut bounds = Bounds::any();
        bounds.longest = self.longest_after(stretch);
        for place in 0..PLACES {
            let (low, high) = self.range_after(stretch, place);
            bounds.low[place] = low;
            bounds.high[place] = high;
        }
        *self = bounds;
    }

    // How long their texts and others are at most.
    fn longest_of_both(&self, other: &Bounds) -> Option<usize>
        ensures mine { (length : ℕ) → ForSome self.now.longest (λ n. length ≤ n)
            → ForSome result (λ n. length ≤ n) }
        ensures others { (length : ℕ) → ForSome other.now.longest (λ n. length ≤ n)
            → ForSome result (λ n. length ≤ n) }
    {
        Some(self.longest?.max(other.longest?))
    }

    /// Makes them those of their texts and others.
    pub fn join(&mut self, other: &Bounds)
        ensures kept { (whole : Bool) (line : List ℕ) → Admits whole self.old line
            → Admits whole self.new line }
        ensures joined { (whole : Bool) (line : List ℕ) → Admits whole other.now line
            → Admits whole self.new line }
    {
        let mut bounds = Bounds::any();
        bounds.longest = self.longest_of_both(other);
        for place in 0..PLACES {
            bounds.low[place] = self.low[place].min(other.low[place]);
            bounds.high[place] = self.high[place].max(other.high[place]);
        }
        *self = bounds;
    }

    // Whether each of sixteen bytes can stand at its place.
    #[inline(always)]
    fn are_within(&self, bytes: u8x16) -> bool
        ensures { ((place : ℕ) → place < PLACES → get_or self.now.low place 0 ≤ get_or bytes place 0)
            → ((place : ℕ) → place < PLACES → get_or bytes place 0 ≤ get_or self.now.high place 0) → result ≡ true }
    {
        let above = u8x16::from_array(self.low).simd_le(bytes);
        let below = bytes.simd_le(u8x16::from_array(self.high));
        (above & below).all()
    }

    // Whether the byte at a place of a line can't stand there; after the line stands NUL.
    fn is_outside(&self, line: &[u8], place: usize) -> bool
        requires { place < PLACES }
        ensures { result ≡ true → ¬ Admits false self.now line.now }
    {
        let byte = line.get(place).copied().unwrap_or(0);
        byte < self.low[place] || byte > self.high[place]
    }

    // Whether one of the first places of a line, which may have fewer, has a byte outside of its bounds.
    #[inline(never)]
    fn is_outside_short(&self, line: &[u8]) -> bool
        ensures { result ≡ true → ¬ Admits false self.now line.now }
    {
        for place in 0..PLACES {
            if self.is_outside(line, place) {
                return true;
            }
        }
        false
    }

    /// Whether one of the first sixteen bytes of a line can't stand at its place, so that the line begins with none of the
    /// texts: `false` says nothing of it. A line that is shorter counts as one that goes on with NUL.
    #[inline(always)]
    pub fn rule_out(&self, line: &[u8]) -> bool
        ensures { result ≡ true → ¬ Admits false self.now line.now }
    {
        if line.len() < PLACES {
            return self.is_outside_short(line);
        }
        !self.are_within(u8x16::from_slice(line))
    }

    /// Whether that shows, or the length of a line, that the line is none of the texts: `false` says nothing of it.
    #[inline(always)]
    pub fn rule_out_whole(&self, line: &[u8]) -> bool
        ensures { result ≡ true → ¬ Admits true self.now line.now }
    {
        if let Some(longest) = self.longest {
            if line.len() > longest {
                return true;
            }
        }
        self.rule_out(line)
    }
}

//! The bytes that can stand at the first places of a line.
ghost use Rattle.std.specs.Prelude.{◌≡◌, ℕ, Bool, true, false, List, get_or, map};
ghost use Rattle.description_items.specs.Tree.{trees, listed};
ghost use Rattle.description_tree.specs.Description.{v3_tree};
ghost use Rattle.parsing_components.specs.Component.{reads_component, reads_component_v3};
ghost use Rattle.parsing_layout.specs.Stretch.{IsCut};
ghost use Rattle.parsing_components.specs.Reads.{reading, reading_of_all};
ghost use Rattle.parsing_item_layouts.specs.FirstBytes.{AreOf, Fits, can_stand, rule_out};

use crate::front::Front;
use crate::walk::{put_node, put_nodes};
use description_items::BorrowedFormatItem;
use description_tree::FormatDescriptionV3;
use parsing_layout::Stretch;

/// For each of the first four places of a line, the bytes that can stand there.
#[derive(Clone, Copy)]
pub struct FirstBytes {
    places: [[bool; 256]; 4],
}

// The bytes that are in one set or in the other.
fn joined(some: &[bool; 256], others: &[bool; 256]) -> [bool; 256]
    ensures some { (byte : ℕ) → get_or some.now byte true ≡ true → get_or result byte true ≡ true }
    ensures others { (byte : ℕ) → get_or others.now byte true ≡ true → get_or result byte true ≡ true }
{
    let mut bytes = [true; 256];
    for byte in 0..256 {
        bytes[byte] = some[byte] || others[byte];
    }
    bytes
}

impl FirstBytes {
    /// Those of the lines that items read, one after the other, as in versions 1 and 2 and in strftime.
    pub fn of_items(items: &[BorrowedFormatItem<'_>]) -> FirstBytes
        ensures { AreOf (reading_of_all reads_component (listed (trees items.now))) result }
    {
        let mut bytes = FirstBytes::end();
        put_nodes(&mut bytes, items);
        bytes
    }

    /// Those of the lines that a description of version 3 reads.
    pub fn of_description(description: &FormatDescriptionV3<'_>) -> FirstBytes
        ensures { AreOf (reading reads_component_v3 (v3_tree description.now)) result }
    {
        let mut bytes = FirstBytes::end();
        put_node(&mut bytes, description.inner());
        bytes
    }

    // The bytes of a place, where a stretch stands before the lines that these are the bytes of.
    #[tactic(auto, using(crate::proofs::FrontLemmas::stands_there, crate::proofs::FrontLemmas::after_stretch))]
    fn bytes_after(&self, stretch: Stretch, place: usize) -> [bool; 256]
        ensures { (line rest : List ℕ) → IsCut stretch line rest → Fits self.now rest
            → get_or result (get_or line place 0) true ≡ true }
    {
        if place < stretch.least {
            return stretch.bytes_at(place);
        }
        if !stretch.is_whole || place - stretch.least >= 4 {
            return [true; 256];
        }
        self.places[place - stretch.least]
    }

    /// Whether one of the first four bytes of a line can't stand at its place, so that the line is not read. A line
    /// that is shorter counts as one that goes on with NUL.
    #[inline(always)]
    #[tactic(auto, unfolding(crate::specs::FirstBytes::rule_out))]
    pub fn rule_out(&self, line: &[u8]) -> bool
        ensures { result ≡ rule_out self.now line.now }
    {
        match line {
            [first, second, third, fourth, ..] => {
                // (each byte by itself: LLVM would test a chain of `&&` again at each of its ends)
                if !self.places[0][usize::from(*first)] {
                    return true;
                }
                if !self.places[1][usize::from(*second)] {
                    return true;
                }
                if !self.places[2][usize::from(*third)] {
                    return true;
                }
                !self.places[3][usize::from(*fourth)]
            }
            _ => self.rule_out_short(line),
        }
    }

    // Whether the first bytes of a line, which may have fewer than four, rule it out.
    #[inline(never)]
    #[tactic(auto, unfolding(crate::specs::FirstBytes::rule_out))]
    fn rule_out_short(&self, line: &[u8]) -> bool
        ensures { result ≡ rule_out self.now line.now }
    {
        !(self.can_stand(0, byte_at(line, 0))
            && self.can_stand(1, byte_at(line, 1))
            && self.can_stand(2, byte_at(line, 2))
            && self.can_stand(3, byte_at(line, 3)))
    }

    /// Whether a byte can stand at a place of a line that is read; any can after the first four. A line that is shorter
    /// counts as one that goes on with NUL.
    pub fn can_stand(&self, place: usize, byte: u8) -> bool
        ensures value { result ≡ can_stand self.now place byte }
        ensures ruled_out { result ≡ false
            → (line : List ℕ) → get_or line place 0 ≡ byte → rule_out self.now line ≡ true }
    {
        if place >= 4 {
            return true;
        }
        let bytes = &self.places[place];
        bytes[usize::from(byte)]
    }
}

impl Front for FirstBytes {
    ghost fits = { λ whole f line. Fits f line };

    fn end() -> FirstBytes {
        let all = [true; 256];
        FirstBytes {
            places: [all, all, all, all],
        }
    }

    fn none() -> FirstBytes {
        let none = [false; 256];
        FirstBytes {
            places: [none, none, none, none],
        }
    }

    fn put(&mut self, stretch: Stretch) {
        self.places = [
            self.bytes_after(stretch, 0),
            self.bytes_after(stretch, 1),
            self.bytes_after(stretch, 2),
            self.bytes_after(stretch, 3),
        ];
    }

    fn join(&mut self, other: &FirstBytes) {
        self.places = [
            joined(&self.places[0], &other.places[0]),
            joined(&self.places[1], &other.places[1]),
            joined(&self.places[2], &other.places[2]),
            joined(&self.places[3], &other.places[3]),
        ];
    }

    fn join_signed(&mut self, other: &FirstBytes) {
        self.join(other);
    }
}

// The byte at a place of a line, or NUL after it.
fn byte_at(line: &[u8], place: usize) -> u8
    ensures { result ≡ get_or line.now place 0 }
{
    line.get(place).copied().unwrap_or(0)
}

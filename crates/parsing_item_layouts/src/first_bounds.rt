//! The range of bytes at each of the first places of a line, and how long a line is.
ghost use Rattle.std.specs.Prelude.{◌≡◌, ℕ, Bool, List, true, map};
ghost use Rattle.std.specs.Option.{IsSomeAnd};
ghost use Rattle.parsing_layout.specs.Bounds.{Admits};
ghost use Rattle.description_items.specs.Tree.{trees, listed};
ghost use Rattle.description_tree.specs.Description.{v3_tree};
ghost use Rattle.parsing_components.specs.Component.{reads_component, reads_component_v3};
ghost use Rattle.parsing_components.specs.Meaning.{Meaning};
ghost use Rattle.parsing_components.specs.Reads.{reading, reading_of_all};
ghost use Rattle.parsing_item_layouts.specs.FirstBounds.{AreBoundsOf, IsOutside, IsWithin, ReadsNoneWhole};

use crate::front::Front;
use crate::walk::{put_node, put_nodes};
use description_items::BorrowedFormatItem;
use description_tree::FormatDescriptionV3;
use parsing_layout::{Bounds, Stretch};

/// The lowest and the highest byte that can stand at each of the first sixteen places of a line, and how many bytes are
/// read at most, where that is known.
///
/// A number, like a year, may have a sign: the lines that have one at the first such place have bounds of their own, since
/// less is known of them after it.
#[derive(Clone, Copy)]
pub struct FirstBounds {
    usual: Bounds,
    /// Those of the lines with a sign, where a line may have one.
    signed: Option<Bounds>,
}

// The bounds of some texts and of others, where there are any.
fn joined(some: Option<Bounds>, others: &Option<Bounds>) -> Option<Bounds>
    ensures some { (whole : Bool) (line : List ℕ) → IsSomeAnd some (λ b. Admits whole b line)
        → IsSomeAnd result (λ b. Admits whole b line) }
    ensures others { (whole : Bool) (line : List ℕ) → IsSomeAnd others.now (λ b. Admits whole b line)
        → IsSomeAnd result (λ b. Admits whole b line) }
{
    match (some, others) {
        (Some(mut bounds), Some(more)) => {
            bounds.join(more);
            Some(bounds)
        }
        (Some(bounds), None) => Some(bounds),
        (None, others) => *others,
    }
}

impl FirstBounds {
    /// Those of the lines that items read, one after the other, as in versions 1 and 2 and in strftime.
    pub fn of_items(items: &[BorrowedFormatItem<'_>]) -> FirstBounds
        ensures { AreBoundsOf (reading_of_all reads_component (listed (trees items.now))) result }
    {
        let mut bounds = FirstBounds::end();
        put_nodes(&mut bounds, items);
        bounds
    }

    /// Those of the lines that a description of version 3 reads.
    pub fn of_description(description: &FormatDescriptionV3<'_>) -> FirstBounds
        ensures { AreBoundsOf (reading reads_component_v3 (v3_tree description.now)) result }
    {
        let mut bounds = FirstBounds::end();
        put_node(&mut bounds, description.inner());
        bounds
    }

    /// Whether one of the first sixteen bytes of a line can't stand at its place, so that no prefix of the line is read: `false`
    /// says nothing of it. A line that is shorter counts as one that goes on with NUL.
    #[inline(always)]
    pub fn rule_out(&self, line: &[u8]) -> bool
        ensures { result ≡ true → IsOutside self.now line.now }
    {
        if !self.usual.rule_out(line) {
            return false;
        }
        match &self.signed {
            Some(signed) => signed.rule_out(line),
            None => true,
        }
    }

    /// Whether that shows, or the length of a line, that the line is not read as a whole: `false` says nothing of it.
    #[inline(always)]
    pub fn rule_out_whole(&self, line: &[u8]) -> bool
        ensures { result ≡ true → (m : Meaning) → AreBoundsOf m self.now
            → ReadsNoneWhole m line.now }
    {
        if !self.usual.rule_out_whole(line) {
            return false;
        }
        match &self.signed {
            Some(signed) => signed.rule_out_whole(line),
            None => true,
        }
    }
}

impl Front for FirstBounds {
    ghost fits = { IsWithin };

    fn end() -> FirstBounds {
        FirstBounds {
            usual: Bounds::end(),
            signed: None,
        }
    }

    fn none() -> FirstBounds {
        FirstBounds {
            usual: Bounds::none(),
            signed: None,
        }
    }

    fn put(&mut self, stretch: Stretch) {
        self.usual.put(stretch);
        if let Some(signed) = &mut self.signed {
            signed.put(stretch);
        }
    }

    fn join(&mut self, other: &FirstBounds) {
        self.usual.join(&other.usual);
        self.signed = joined(self.signed, &other.signed);
    }

    fn join_signed(&mut self, other: &FirstBounds) {
        if let Some(signed) = &self.signed {
            self.usual.join(signed);
        }
        self.signed = joined(Some(other.usual), &other.signed);
    }
}

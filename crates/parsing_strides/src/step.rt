//! Steps: one item, or parts of fixed widths.
ghost use Rattle.std.specs.Prelude.{◌≡◌, ◌≤◌, true, List, IfSome, length, take};
ghost use Rattle.parsing_combinator.specs.Tame.{EndsWith};
ghost use Rattle.parsing_layout.specs.declared.items.Item.{Item};
ghost use Rattle.parsing_strides.specs.Found.{SayItems};
ghost use Rattle.parsing_strides.specs.declared.step.Step.TheVariants as step;
ghost use Rattle.parsing_strides.specs.Strides.{FitsStep, count_of};

use crate::found::Found;
use crate::making::stride_of;
use crate::part::read_part;
use crate::stride::Stride;
use parsing_combinator::byte as after_byte;
use parsing_layout::{Item, Part};

/// One item, or parts of fixed widths.
#[derive(Clone, Copy)]
pub(crate) enum Step {
    Part(Part),
    /// This byte and a part after it, or neither.
    Optional(u8, Part),
    Stride(Stride),
}

// A stride that was made for the first items.
fn checked_stride(items: &[Item]) -> Option<Stride>
    ensures { IfSome result
        (λ s. (s.count ≤ length items.now) × FitsStep (step.Stride s) (take s.count items.now)) }
{
    let stride = stride_of(items)?;
    if stride.count > items.len() || !stride.fits(&items[..stride.count]) {
        return None;
    }
    Some(stride)
}

impl Step {
    /// How many items it reads.
    pub(crate) fn count(&self) -> usize
        ensures { result ≡ count_of self.now }
    {
        match self {
            Step::Part(_) | Step::Optional(_, _) => 1,
            Step::Stride(stride) => stride.count,
        }
    }

    /// The step that items begin with: a stride, or else one item.
    pub(crate) fn of_items(items: &[Item]) -> Option<Step>
        ensures { IfSome result
            (λ s. (count_of s ≤ length items.now) × FitsStep s (take (count_of s) items.now)) }
    {
        if let Some(stride) = checked_stride(items) {
            return Some(Step::Stride(stride));
        }
        match items {
            [] => None,
            [Item::Part(part), ..] => Some(Step::Part(*part)),
            [Item::Optional(byte, part), ..] => Some(Step::Optional(*byte, *part)),
        }
    }

    /// Reads its items at the start of what is left of a line, and returns what follows them: `None` says nothing of the line.
    #[inline(always)]
    pub(crate) fn read<'l>(
        &self,
        line: &[u8],
        rest: &'l [u8],
        found: &mut Found,
    ) -> Option<&'l [u8]>
        requires { EndsWith line.now rest.now }
        ensures says { (items : List Item) → FitsStep self.now items
            → IfSome result (λ after. SayItems items rest.now after.now found.old found.new) }
        ensures end { IfSome result (λ after. EndsWith line.now after.now) }
    {
        match self {
            Step::Part(part) => read_part(*part, rest, found),
            Step::Optional(byte, part) => match after_byte(*byte, rest) {
                Some(after) => read_part(*part, after, found),
                None => Some(rest),
            },
            Step::Stride(stride) => stride.read(line, rest, found),
        }
    }
}

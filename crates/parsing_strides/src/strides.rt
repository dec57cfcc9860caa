//! Lists of items, of which some are read sixteen bytes at a time.
ghost use Rattle.std.specs.Prelude.{◌≤◌};

use crate::found::Found;
use crate::step::Step;
use parsing_layout::{Field, Item, Part};

// The most steps.
const MOST: usize = 16;

/// How the items of a layout are read: some of them sixteen bytes at a time.
#[derive(Clone, Copy)]
pub struct Strides {
    pub(crate) steps: [Step; MOST],
    pub(crate) count: usize,
    ghost few: { count ≤ 16 },
}

impl Strides {
    ghost use Rattle.std.specs.Prelude.{◌≡◌, true, false, List, IfSome};
    ghost use Rattle.parsing_combinator.specs.Tame.{EndsWith};
    ghost use Rattle.parsing_layout.specs.Items.{SaysItems, all_possible};
    ghost use Rattle.parsing_layout.specs.declared.items.Item.{Item};
    ghost use Rattle.parsing_layout.specs.declared.parts.Field.{Field};
    ghost use Rattle.parsing_layout.specs.declared.parts.Part.{Part};
    ghost use Rattle.parsing_layout.specs.Said.{are_apart, fields_of};
    ghost use Rattle.parsing_strides.specs.Found.{SayItems, values_in};
    ghost use Rattle.parsing_strides.specs.Strides.{AreMade, IsMade};

    /// The strides of items: `None` where they would be too many.
    pub fn of_items(items: &[Item]) -> Option<Strides>
        ensures { IfSome result (λ s. IsMade s items.now) }
    {
        let mut steps = [Step::Part(Part::Any); MOST];
        let mut rest = items;
        for count in 0..MOST + 1 {
            if rest.is_empty() {
                return Some(Strides { steps, count });
            }
            if count == MOST {
                return None;
            }
            let step = Step::of_items(rest)?;
            let (_, others) = rest.split_at(step.count());
            rest = others;
            steps[count] = step;
        }
        None
    }

    // Reads steps one after the other.
    #[inline(always)]
    fn run<'l>(steps: &[Step], line: &'l [u8], found: &mut Found) -> Option<&'l [u8]>
        ensures says { (items : List Item) → AreMade steps.now items
            → are_apart (all_possible items) ≡ true
            → IfSome result (λ rest. SayItems items line.now rest.now found.old found.new) }
        ensures end { IfSome result (λ rest. EndsWith line.now rest.now) }
    {
        let mut rest = line;
        for step in steps {
            rest = step.read(line, rest, found)?;
        }
        Some(rest)
    }

    /// Reads the items at the start of a line, and returns what follows them: `None` says nothing of the line.
    #[inline(never)]
    pub fn read<'l>(&self, line: &'l [u8], found: &mut Found) -> Option<&'l [u8]>
        ensures says { (items : List Item) → IsMade self.now items
            → are_apart (all_possible items) ≡ true
            → IfSome result (λ rest. (way : List Part)
            × SaysItems items line.now (values_in found.new) rest.now way
            × ((f : Field) → fields_of way f ≡ false → values_in found.new f ≡ values_in found.old f)) }
        ensures end { IfSome result (λ rest. EndsWith line.now rest.now) }
    {
        let rest = Strides::run(&self.steps[..self.count], line, found)?;
        let sign = found.get(Field::Sign);
        if sign != b'+' && sign != b'-' {
            return None;
        }
        Some(rest)
    }
}

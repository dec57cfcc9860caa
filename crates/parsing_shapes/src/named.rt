//! The fields of a text whose month is written by its name, and that has an offset at a known place.
ghost use Rattle.std.specs.Prelude.{◌≡◌, ◌≤◌, drop, false, length, true, IfSome, List};
ghost use Rattle.parsing_layout.specs.declared.parts.Part.{Part};
ghost use Rattle.parsing_shapes.specs.Named.{SaysNamed};
ghost use Rattle.parsing_shapes.specs.Shape.{fits};
ghost use Rattle.parsing_places.specs.Windows.{spares_two};

use crate::dated::numbers_of;
use crate::shape::Shape;
use crate::sums::sums_of;
use parsing_values::{Fields, Fraction};

/// The fields of a text that begins with the parts of a shape, an offset among them, where the month is known from its name: its
/// letters are bytes of any kind to the shape. `None` says nothing of the text.
#[inline(always)]
pub fn read_named_moment(shape: &Shape, month: u8, text: &[u8]) -> Option<Fields>
    requires whole { shape.now.has_tail ≡ false }
    requires spared { spares_two shape.now.windows 0 ≡ true }
    requires month { month ≤ 12 }
    requires long { shape.now.length ≤ length text.now }
    ensures { (parts : List Part) → fits shape.now parts ≡ true
        → IfSome result (SaysNamed parts month text.now (drop shape.now.length text.now)) }
{
    let (days, minute, offset, seconds) = sums_of(shape, text)?;
    let days = days + u32::from(month);
    let sums = (days, minute, offset, seconds);
    let numbers = numbers_of(text, shape.year, true, sums, Fraction::new(0))?;
    numbers.on_day(numbers.high, numbers.low)
}

//! The numbers of a text, all read at once.
ghost use Rattle.std.specs.Prelude.{◌≡◌, ◌≤◌, ◌<◌, ◌+◌, ◌-◌, drop, false, length, true, IfSome};
ghost use Rattle.parsing_combinator.specs.Written.{WriteFraction};
ghost use Rattle.parsing_shapes.specs.Moment.{AreTaken};
ghost use Rattle.parsing_shapes.specs.Sums.{AreSums};

use crate::shape::Shape;
use parsing_places::{LANES, LastBytes, fraction_of, joined, paired, sums};
use parsing_values::Fraction;

/// Month and 64 days, the minute of the day, the minutes of an offset, and a sign and 64 seconds.
pub type Sums = (u32, u32, u32, u32);

/// The sums of a text that begins with the parts of a shape, an offset among them or none.
#[inline(always)]
pub fn sums_of(shape: &Shape, text: &[u8]) -> Option<Sums>
    requires whole { shape.now.has_tail ≡ false }
    requires long { shape.now.length ≤ length text.now }
    ensures { IfSome result (λ x. AreSums shape.now text.now x.0 x.1 x.2 x.3) }
{
    let (lies, digits) = shape.windows.digits_of(text);
    if !lies {
        return None;
    }
    Some(sums(paired(digits)))
}

/// The sums of a text that begins with the parts of a shape, then so many digits of a fraction, and what stands after it, up to an
/// end; and the fraction.
#[inline(always)]
pub fn split_sums_of(
    shape: &Shape,
    last: &LastBytes,
    text: &[u8],
    end: usize,
    count: usize,
) -> Option<(Sums, Fraction)>
    requires longer { shape.now.length ≤ length text.now }
    requires long { LANES ≤ end }
    requires within { end ≤ length text.now }
    requires few { count ≤ 9 }
    requires near { count + last.now.length ≤ LANES }
    ensures sums { IfSome result
        (λ x. AreTaken shape.now last.now.window text.now end x.0.0 x.0.1 x.0.2 x.0.3) }
    ensures fraction { IfSome result
        (λ x. WriteFraction (drop (end - last.now.length - count) text.now) count x.1) }
    ensures bound { IfSome result (λ x. x.1 < 1_000_000_000) }
{
    let (lies, digits) = shape.windows.digits_of(text);
    let (ends, after, fraction) = last.read(text, end, count);
    if !lies || !ends {
        return None;
    }
    let sums = sums(paired(joined(digits, after)));
    Some((sums, fraction_of(fraction)))
}

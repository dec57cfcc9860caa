//! The offset that is assumed where a text has none.
ghost use Rattle.std.specs.Prelude.{◌≡◌, ◌≤◌, ◌*ℤ◌, Some, Ok, pos, unsigned_abs};
ghost use Rattle.parsing_components.specs.Prefix.{beginning};
ghost use Rattle.parsing_components.specs.Whole.{offset_named};

use calendar::UtcOffset;

/// The minutes of an assumed offset, of which the seconds don't count.
#[inline(always)]
pub fn assumed_minutes(offset: UtcOffset) -> i16
    ensures named { offset_named (beginning (Some offset)) ≡ Ok (pos 60 *ℤ result) }
    ensures bound { unsigned_abs result ≤ 1559 }
{
    offset.whole_minutes()
}

//! The day of the last date on a zone's clock.
ghost use Rattle.std.specs.Prelude.{◌≡◌, ◌*ℤ◌, ◌≤◌, unsigned_abs, pos};

mod calls;

use calendar::UtcOffset;
use parsing_values::Year;

/// A day on which a zone's clock shows each time of day once, at one offset of whole minutes; or none yet. Most lines of a log are
/// of the same day as the line above.
#[derive(Clone, Copy)]
pub struct KeptDay {
    pub(crate) year: Year,
    pub(crate) month: u8,
    // 0 where no day is kept yet.
    pub(crate) day: u8,
    pub(crate) offset: UtcOffset,
    // The same in minutes.
    pub(crate) minutes: i32,
    ghost same: { offset ≡ pos 60 *ℤ minutes },
    ghost is_offset: { unsigned_abs minutes ≤ 1559 },
}

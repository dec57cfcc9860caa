//! The offset that counts where lines have none.
ghost use Rattle.std.specs.Prelude.{◌≤◌, unsigned_abs, IfSome};
ghost use Rattle.parsing_item_parts.specs.Assumed.{Assumes};

use calendar::UtcOffset;
use parsing_components::assumed_minutes;

/// The minutes of an offset.
#[derive(Clone, Copy)]
pub struct Minutes {
    pub number: i16,
    ghost few: { unsigned_abs number ≤ 1559 },
}

impl Minutes {
    /// The minutes that are assumed for lines without an offset, and any others where an offset is written: `None` where neither is.
    #[inline(always)]
    pub fn assumed(is_written: bool, assumed: Option<UtcOffset>) -> Option<Minutes>
        ensures { IfSome result (λ minutes. Assumes is_written assumed minutes.number) }
    {
        if is_written {
            return Some(Minutes { number: 0 });
        }
        let offset = assumed?;
        Some(Minutes {
            number: assumed_minutes(offset),
        })
    }
}

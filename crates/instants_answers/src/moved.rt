//! The day and the minute of fields at another offset, where the day is in their month.
ghost use Rattle.std.specs.Prelude.{◌≡◌, ◌/◌, ◌<◌, ◌≤◌, pos, ◌-ℤ◌, IfSome};
ghost use Rattle.instants_answers.specs.Moved.{IsMoved};

use crate::target::DAYS_AHEAD;
use calendar_count::march;
use parsing_values::{Fields, has_day};

const DAY_MINUTES: u32 = 1440;

// The whole days of so many minutes. (A product in place of a division, which takes longer.)
#[inline(always)]
fn whole_days(minutes: u32) -> u32
    requires { minutes < 20_000 }
    ensures { result ≡ minutes / 1440 }
{
    (minutes * 11_651) >> 24
}

// The day of the month, and the minute of it, so many minutes after the day began that is four days before the fields' day:
// `None` where it is in another month. Both are as wide as a word, so that they are not packed into one. No jump depends on
// whether the day is another one. The calls of `count_of_day` serve the check alone, and leave no code.
#[inline(always)]
pub(crate) fn moved_within_month(fields: &Fields, since: u32) -> Option<(u64, u64)>
    requires { since ≤ 12_000 }
    ensures { IfSome result (λ moved. IsMoved fields.now (pos since -ℤ pos 5760) moved.0 moved.1) }
{
    let days = whole_days(since);
    let day = (fields.day + days as u8).wrapping_sub(DAYS_AHEAD);
    if !has_day(fields.year, fields.month, day) {
        return None;
    }
    let year = i32::from(fields.year.number());
    let _ = (
        march::count_of_day(year, fields.month, fields.day),
        march::count_of_day(year, fields.month, day),
    );
    Some((u64::from(day), u64::from(since - days * DAY_MINUTES)))
}

//! The line of the fields of a date-time, shown at another offset.

ghost use Rattle.std.specs.Prelude.{◌≡◌, ◌+◌, ◌*◌, ◌<◌, ◌≤◌, true, false, pos, ◌+ℤ◌, ◌-ℤ◌, int_div, length, Some, if◌then◌else◌};
ghost use Rattle.std.specs.Ordering.{int_eq};
ghost use Rattle.calendar.specs.UtcOffset.{IsClockOffset};
ghost use Rattle.calendar_count.specs.Calendar.{ymd};
ghost use Rattle.datetime_wall.specs.Wall.{instant, shown_at};
ghost use Rattle.parsing_values.specs.Moment.{moment_of};
ghost use Rattle.instants_answers.specs.Moved.{at_offset};
ghost use Rattle.instants_answers.specs.Text.{FitsLine, moment_text, parts_text};

use crate::answer::Answer;
use crate::fields::{push_clock, push_date};
use crate::moved::moved_within_month;
use crate::target::Target;
use parsing_values::Fields;

// Writes the line of a day of the fields' month, a minute of it, and the fields' second and fraction.
#[inline(always)]
fn write_parts(fields: &Fields, day: u64, minute: u64, target: Target, answer: &mut Answer)
    requires day { day ≤ 31 }
    requires minute { minute < 1440 }
    ensures line { answer.new ≡ parts_text
        (ymd (pos fields.now.year) fields.now.month day)
        (minute * 60 + fields.now.second) fields.now.fraction target }
    ensures len { length answer.new ≡ (if int_eq target (pos 0) then 30 else 35) }
    ensures fraction { fields.now.fraction < 1_000_000_000 }
    ensures clock { IsClockOffset target }
{
    answer.clear();
    push_date(answer, fields.year, u32::from(fields.month), day as u32);
    push_clock(answer, minute as usize, fields.second, fields.fraction);
    target.push_text(answer);
}

// The minutes from four days before the fields' day to their time at the target.
#[inline(always)]
pub(crate) fn minutes_since(fields: &Fields, target: Target) -> u32
    ensures value { pos result ≡
        pos 5760 +ℤ (pos fields.now.minute +ℤ (int_div target (pos 60) -ℤ fields.now.offset)) }
    ensures bound { result ≤ 12_000 }
{
    let ahead = target.minutes_ahead() - fields.offset;
    (ahead + i32::from(fields.minute)) as u32
}

/// Writes the line of the moment that fields name, as it is shown at the target, in place of what the answer held.
///
/// No day is counted: `false`, with the answer as it was, where the day at the target is in another month.
#[inline(always)]
pub fn write_fields(fields: &Fields, target: Target, answer: &mut Answer) -> bool
    ensures line { result ≡ true → answer.new ≡ moment_text
        (at_offset target (moment_of fields.now)) }
    ensures shown { result ≡ true → shown_at target (instant (moment_of fields.now))
        ≡ Some (at_offset target (moment_of fields.now)) }
    ensures fits { result ≡ true → FitsLine (at_offset target (moment_of fields.now)) }
    ensures len { result ≡ true → length answer.new ≡ (if int_eq target (pos 0) then 30 else 35) }
    ensures kept { result ≡ false → answer.new ≡ answer.old }
{
    let Some(moved) = moved_within_month(fields, minutes_since(fields, target)) else {
        return false;
    };
    write_parts(fields, moved.0, moved.1, target, answer);
    true
}

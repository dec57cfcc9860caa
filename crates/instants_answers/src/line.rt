//! The line of a moment.

ghost use Rattle.std.specs.Prelude.{◌≡◌, ◌<◌, ◌≤◌, ◌↔◌, pos, length, IsTrue, if◌then◌else◌};
ghost use Rattle.std.specs.Ordering.{int_eq};
ghost use Rattle.calendar_count.specs.Calendar.{day_at};
ghost use Rattle.datetime_wall.specs.Wall.{day_of};
ghost use Rattle.calendar.specs.UtcOffset.{IsClockOffset};
ghost use Rattle.instants_answers.specs.Text.{FitsLine, has_written_year, moment_text};

use crate::answer::Answer;
use crate::fields::{push_clock, push_date};
use crate::target::Target;
use calendar::UtcOffset;
use calendar_count::closed;
use datetime_types::OffsetDateTime;
use parsing_values::{Fraction, Year};

const GREATEST_OFFSET: u32 = 86_340;

/// Whether four digits write the year that is shown: it is 0 to 9999.
#[inline(always)]
#[tactic(auto, unfolding(crate::specs::Text::has_written_year))]
pub fn has_written_year(date_time: OffsetDateTime) -> bool
    ensures { result ≡ has_written_year date_time }
{
    closed::has_four_digit_year(date_time.date().count())
}

/// Whether hours and minutes of a clock write the offset: it is of whole minutes, within 23:59.
#[inline(always)]
pub fn is_target(offset: UtcOffset) -> bool
    ensures { IsTrue result ↔ IsClockOffset offset }
{
    let seconds = offset.whole_seconds().unsigned_abs();
    seconds % 60 == 0 && seconds <= GREATEST_OFFSET
}

/// Whether `rfc3339_line` can write the moment: its year is 0 to 9999, and its offset is of whole
/// minutes, within 23:59.
#[inline(always)]
pub fn fits_line(date_time: OffsetDateTime) -> bool
    ensures { IsTrue result ↔ FitsLine date_time }
{
    has_written_year(date_time) && is_target(date_time.offset())
}

// The year, the month and the day that are shown.
#[inline(always)]
#[tactic(auto, unfolding(crate::specs::Text::has_written_year))]
fn shown_date(date_time: OffsetDateTime) -> (u16, u32, u32)
    requires { IsTrue (has_written_year date_time) }
    ensures value { day_at (day_of date_time.wall)
        ≡ record { year = pos result.0; month = result.1; day = result.2 } }
    ensures year { result.0 ≤ 9999 }
    ensures month { result.1 ≤ 12 }
    ensures day { result.2 < 100 }
{
    let (year, month, day) = date_time.date().to_calendar_date();
    (year as u16, u32::from(month.number()), u32::from(day))
}

/// Writes the line of a moment in place of what the answer held.
#[inline(always)]
#[tactic(auto, unfolding(crate::specs::Text::moment_text))]
pub fn write_line(date_time: OffsetDateTime, answer: &mut Answer)
    requires { FitsLine date_time }
    ensures line { answer.new ≡ moment_text date_time }
    ensures len { length answer.new ≡ (if int_eq date_time.offset (pos 0) then 30 else 35) }
{
    let (year, month, day) = shown_date(date_time);
    let (hour, minute, second, nanosecond) = date_time.time().as_hms_nano();
    let minute = usize::from(hour) * 60 + usize::from(minute);
    answer.clear();
    push_date(answer, Year::new(year), month, day);
    push_clock(answer, minute, u32::from(second), Fraction::new(nanosecond));
    Target::new(date_time.offset()).push_text(answer);
}

/// The moment as RFC 3339, section 5.6, writes it, with nine digits of the second's fraction: 30
/// bytes with `Z` for offset zero, else 35.
#[inline(always)]
pub fn rfc3339_line(date_time: OffsetDateTime) -> Answer
    requires { FitsLine date_time }
    ensures line { result ≡ moment_text date_time }
    ensures len { length result ≡ (if int_eq date_time.offset (pos 0) then 30 else 35) }
{
    let mut answer = Answer::new();
    write_line(date_time, &mut answer);
    answer
}

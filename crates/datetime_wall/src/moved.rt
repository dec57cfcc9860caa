//! Wall clocks moved by durations.
ghost use Rattle.std.specs.Prelude.{◌≡◌, ◌↔◌, ◌≤◌, ◌<◌, ◌^◌, pos, ◌+ℤ◌, ◌-ℤ◌, ◌≤ℤ◌, IsSome, IfSome, unsigned_abs};
ghost use Rattle.calendar_count.specs.Range.{last_count, IsCount};
ghost use Rattle.calendar_clock.specs.DateAdjustment.{carry};
ghost use Rattle.datetime_wall.specs.Wall.{day_nanos, wall_clock, IsWallClock};

use calendar_clock::{DateAdjustment, Time};
use calendar_count::range::LAST_COUNT;
use calendar_dates::Date;
use calendar_spans::SignedDuration;

// The days that an adjustment stands for.
#[inline(always)]
fn carried_days(adjustment: DateAdjustment) -> i64
    ensures value { result ≡ carry adjustment }
    ensures bound { unsigned_abs result ≤ 1 }
{
    match adjustment {
        DateAdjustment::Previous => -1,
        DateAdjustment::Next => 1,
        DateAdjustment::None => 0,
    }
}

// The day so many days later, or `None` where the calendar does not have it.
#[inline(always)]
fn moved_by_days(date: Date, days: i64) -> Option<Date>
    requires { unsigned_abs days ≤ 2 ^ 62 }
    ensures some { IsSome result
        ↔ ((pos 0 ≤ℤ (pos date +ℤ days)) × ((pos date +ℤ days) ≤ℤ pos last_count)) }
    ensures value { IfSome result (λ moved. pos moved ≡ pos date +ℤ days) }
    ensures bound { IfSome result IsCount }
{
    let count = i64::from(date.count()) + days;
    if count < 0 || count > i64::from(LAST_COUNT) {
        return None;
    }
    Some(Date::from_count(count as u32))
}

/// The date and the time so much later, or `None` where the calendar does not have the day.
#[inline(always)]
pub fn added(date: Date, time: Time, duration: SignedDuration) -> Option<(Date, Time)>
    ensures some { IsSome result ↔ IsWallClock (wall_clock date time +ℤ duration) }
    ensures value { IfSome result (λ moved. wall_clock moved.0 moved.1
        ≡ wall_clock date time +ℤ duration) }
    ensures bound { IfSome result (λ moved. IsCount moved.0 × (moved.1 < day_nanos)) }
{
    let (adjustment, time) = time.adjusting_add(duration);
    let date = moved_by_days(date, duration.whole_days() + carried_days(adjustment))?;
    Some((date, time))
}

/// The date and the time so much earlier, or `None` where the calendar does not have the day.
#[inline(always)]
pub fn subtracted(date: Date, time: Time, duration: SignedDuration) -> Option<(Date, Time)>
    ensures some { IsSome result ↔ IsWallClock (wall_clock date time -ℤ duration) }
    ensures value { IfSome result (λ moved. wall_clock moved.0 moved.1
        ≡ wall_clock date time -ℤ duration) }
    ensures bound { IfSome result (λ moved. IsCount moved.0 × (moved.1 < day_nanos)) }
{
    let (adjustment, time) = time.adjusting_sub(duration);
    let date = moved_by_days(date, carried_days(adjustment) - duration.whole_days())?;
    Some((date, time))
}

//! Calculations on a wall clock, given as a date and a time.
ghost use Rattle.std.specs.Prelude.{◌≡◌, ◌↔◌, ◌≤◌, ◌<◌, pos, ◌+◌, ◌*◌, ◌/◌, ◌+ℤ◌, ◌*ℤ◌, IsSome, IfSome, unsigned_abs};
ghost use Rattle.std.specs.Int.{int_div_euclid};
ghost use Rattle.datetime_wall.specs.Seconds.{IsUnixSecond};
ghost use Rattle.calendar_count.specs.Range.{unix_epoch, IsCount};
ghost use Rattle.datetime_wall.specs.Wall.{second_nanos, day_nanos, wall_clock, instant, IsWallClock};

use calendar_clock::{Time, UtcOffset};
use calendar_count::range::{LAST_COUNT, UNIX_EPOCH};
use calendar_dates::Date;

const DAY_SECONDS: u32 = 86_400;

// Days that make a sum of seconds positive, and the same in seconds.
const SHIFT_DAYS: u32 = 3;

const SHIFT_SECONDS: i32 = 259_200;

// The second of the day so many seconds later, counted from three days earlier on.
#[inline(always)]
fn shifted_second(time: Time, seconds: i32) -> u32
    requires { unsigned_abs seconds ≤ 187_198 }
    ensures value { pos result ≡ pos (time / second_nanos + 259_200) +ℤ seconds }
    ensures bound { result < 600_000 }
{
    (time.second_of_day() as i32 + seconds + SHIFT_SECONDS) as u32
}

/// The date and the time so many seconds later, or `None` where the calendar has no such day.
///
/// The seconds are within ±187,198: no two offsets from UTC are further apart.
#[inline(always)]
pub fn moved_by_seconds(date: Date, time: Time, seconds: i32) -> Option<(Date, Time)>
    requires { unsigned_abs seconds ≤ 187_198 }
    ensures some { IsSome result
        ↔ IsWallClock (wall_clock date time +ℤ seconds *ℤ pos second_nanos) }
    ensures value { IfSome result (λ moved. wall_clock moved.0 moved.1
        ≡ wall_clock date time +ℤ seconds *ℤ pos second_nanos) }
    ensures bound { IfSome result (λ moved. IsCount moved.0 × (moved.1 < day_nanos)) }
{
    let shifted = shifted_second(time, seconds);
    let day = date.count() + shifted / DAY_SECONDS;
    if day < SHIFT_DAYS {
        return None;
    }
    let count = day - SHIFT_DAYS;
    if count > LAST_COUNT {
        return None;
    }
    let time = Time::from_seconds_nanoseconds(shifted % DAY_SECONDS, time.nanosecond());
    Some((Date::from_count(count), time))
}

/// The wall clock of a date and a time: the nanoseconds since 1970 began on that clock.
#[inline(always)]
pub fn wall_nanoseconds(date: Date, time: Time) -> i128
    ensures value { result ≡ wall_clock date time }
    ensures range { IsWallClock result }
{
    let days = date.count() as i64 - UNIX_EPOCH as i64;
    let seconds = days * DAY_SECONDS as i64 + time.second_of_day() as i64;
    seconds as i128 * 1_000_000_000 + time.nanosecond() as i128
}

/// The whole seconds since 1970 began on the clock that shows a date and a time, rounded down.
#[inline(always)]
pub fn unix_seconds(date: Date, time: Time) -> i64
    ensures value { result ≡ int_div_euclid (wall_clock date time) (pos second_nanos) }
    ensures bound { IsUnixSecond result }
{
    let days = date.count() as i64 - UNIX_EPOCH as i64;
    days * DAY_SECONDS as i64 + time.second_of_day() as i64
}

/// The instant of a date and a time at an offset from UTC: the nanoseconds since 1970 began in UTC.
#[inline(always)]
pub fn instant_nanoseconds(date: Date, time: Time, offset: UtcOffset) -> i128
    ensures value { result ≡ instant (record { wall = wall_clock date time; offset = offset }) }
    ensures bound { unsigned_abs result ≤ (unix_epoch + 2) * day_nanos }
{
    let days = date.count() as i64 - UNIX_EPOCH as i64;
    let second = time.second_of_day() as i64 - offset.whole_seconds() as i64;
    let seconds = days * DAY_SECONDS as i64 + second;
    seconds as i128 * 1_000_000_000 + time.nanosecond() as i128
}

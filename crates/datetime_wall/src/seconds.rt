//! The days and the clock of seconds of Unix time.
ghost use Rattle.std.specs.Prelude.{◌≡◌, ◌/◌, ◌%◌, ◌<◌, pos, ◌+ℤ◌};
ghost use Rattle.std.specs.Int.{int_div_euclid, int_rem_euclid};
ghost use Rattle.calendar_count.specs.Range.{IsCount, unix_epoch};
ghost use Rattle.datetime_wall.specs.Seconds.{day_seconds, IsUnixSecond};

use crate::quotients;
use calendar_count::range::UNIX_EPOCH;

// The seconds from the first day to 1970-01-01.
const EPOCH_SECONDS: i64 = UNIX_EPOCH as i64 * 86_400;

/// The count of the day in UTC, from -999999-01-01 on, that a second of Unix time lies in.
#[inline(always)]
pub fn count_of_seconds(seconds: i64) -> u64
    requires { IsUnixSecond seconds }
    ensures value { pos result ≡ int_div_euclid seconds (pos day_seconds) +ℤ pos unix_epoch }
    ensures bound { IsCount result }
{
    quotients::days_of_seconds((seconds + EPOCH_SECONDS) as u64)
}

/// The second of the day in UTC of a second of Unix time, 0 to 86,399.
#[inline(always)]
pub fn second_of_day(seconds: i64) -> u32
    requires { IsUnixSecond seconds }
    ensures value { pos result ≡ int_rem_euclid seconds (pos day_seconds) }
    ensures bound { result < day_seconds }
{
    let seconds = (seconds + EPOCH_SECONDS) as u64;
    (seconds - 86_400 * quotients::days_of_seconds(seconds)) as u32
}

/// The hour, the minute and the second of a second of the day, which is below 86,400.
#[inline(always)]
pub fn clock_of_second(second: u32) -> (u8, u8, u8)
    requires { second < day_seconds }
    ensures hour { result.0 ≡ second / 3600 }
    ensures minute { result.1 ≡ second / 60 % 60 }
    ensures second { result.2 ≡ second % 60 }
    ensures bound { (result.0 < 24) × (result.1 < 60) × (result.2 < 60) }
{
    let (hour, minute, second) = quotients::clock(u64::from(second));
    (hour as u8, minute as u8, second as u8)
}

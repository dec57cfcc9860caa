//! Times of day.
ghost use Rattle.std.specs.Prelude.{◌≡◌, ◌+◌, ◌*◌, ◌/◌, ◌%◌, ◌<◌, IfOk};
ghost use Rattle.calendar_clock.specs.Time.{second_nanos, day_nanos, hour_at, minute_at, second_at, nanosecond_at, time_of};

use calendar_count::{ComponentName, ComponentRange};
use std::marker::Model;

const NANOSECONDS_IN_SECOND: u64 = 1_000_000_000;

/// A time of day to the nanosecond, as RFC 3339 section 5.6 writes one, but with no leap second.
///
/// It is printed with its hour in as few digits as it has, and a fraction of at least one: `7:05:00.0`,
/// `23:20:50.52`.
///
/// A contract sees the nanoseconds since the day began.
#[derive(Clone, Copy)]
pub struct Time {
    second_of_day: u32,
    nanosecond: u32,
}

impl Model for Time {
    ghost use Rattle.std.specs.Prelude.{ℕ, ◌+◌, ◌*◌, ◌/◌, ◌%◌, ◌<◌};
    ghost use Rattle.calendar_clock.specs.Time.{second_nanos};
    ghost use Rattle.calendar_clock.specs.TimeParts.{second_of_parts, nanosecond_of_parts};

    ghost Value = { ℕ };

    ghost view = { λ t. t.second_of_day * second_nanos + t.nanosecond };

    ghost invariant = { λ t. (t.second_of_day < 86_400) × (t.nanosecond < second_nanos) };

    ghost inverse = { λ n. record {
      second_of_day = n / second_nanos;
      nanosecond = n % second_nanos;
    } };

    ghost inverse_ok = { λ t h. Prim.rw (
      second_of_parts t.second_of_day t.nanosecond h.1,
      nanosecond_of_parts t.second_of_day t.nanosecond h.1,
    ) };
}

impl Time {
    /// The first time of a day, 0:00.
    pub const MIDNIGHT: Time = Time {
        second_of_day: 0,
        nanosecond: 0,
    };

    /// The last time of a day, 23:59:59.999999999.
    pub const MAX: Time = Time {
        second_of_day: 86_399,
        nanosecond: 999_999_999,
    };

    /// The time so many seconds after midnight, below 86,400, and so many nanoseconds, below 1,000,000,000.
    #[inline(always)]
    pub fn from_seconds_nanoseconds(second_of_day: u32, nanosecond: u32) -> Time
        requires second { second_of_day < 86_400 }
        requires nanosecond { nanosecond < second_nanos }
        ensures value { result ≡ second_of_day * second_nanos + nanosecond }
        ensures bound { result < day_nanos }
    {
        Time {
            second_of_day,
            nanosecond,
        }
    }

    /// The time with this hour below 24, and minute and second below 60; else the coarsest part that
    /// is out of range is refused.
    #[inline(always)]
    pub fn from_hms(hour: u8, minute: u8, second: u8) -> Result<Time, ComponentRange>
        ensures value { result ≡ time_of hour minute second 0 }
        ensures bound { IfOk result (λ t. t < day_nanos) }
    {
        Time::from_hms_nano(hour, minute, second, 0)
    }

    /// The time with this hour below 24, minute and second below 60, and nanosecond below
    /// 1,000,000,000; else the coarsest part that is out of range is refused.
    #[inline(always)]
    #[tactic(auto, unfolding(crate::specs::Time::time_of))]
    pub fn from_hms_nano(
        hour: u8,
        minute: u8,
        second: u8,
        nanosecond: u32,
    ) -> Result<Time, ComponentRange>
        ensures value { result ≡ time_of hour minute second nanosecond }
        ensures bound { IfOk result (λ t. t < day_nanos) }
    {
        if hour > 23 {
            return Err(ComponentRange::unconditional(ComponentName::Hour));
        }
        if minute > 59 {
            return Err(ComponentRange::unconditional(ComponentName::Minute));
        }
        if second > 59 {
            return Err(ComponentRange::unconditional(ComponentName::Second));
        }
        if nanosecond > 999_999_999 {
            return Err(ComponentRange::unconditional(ComponentName::Nanosecond));
        }
        let second_of_day = hour as u32 * 3600 + minute as u32 * 60 + second as u32;
        Ok(Time::from_seconds_nanoseconds(second_of_day, nanosecond))
    }

    /// The whole seconds since midnight, below 86,400.
    #[inline(always)]
    pub fn second_of_day(self) -> u32
        ensures value { result ≡ self / second_nanos }
        ensures bound { result < 86_400 }
        ensures range { self < day_nanos }
    {
        self.second_of_day
    }

    /// The nanoseconds since midnight, below 86,400,000,000,000.
    #[inline(always)]
    pub fn nanosecond_of_day(self) -> u64
        ensures value { result ≡ self }
        ensures bound { result < day_nanos }
    {
        u64::from(self.second_of_day) * NANOSECONDS_IN_SECOND + u64::from(self.nanosecond)
    }

    /// The hour, below 24.
    #[inline(always)]
    pub fn hour(self) -> u8
        ensures value { result ≡ hour_at self }
        ensures bound { result < 24 }
    {
        (self.second_of_day() / 3600) as u8
    }

    /// The minute of the hour, below 60.
    #[inline(always)]
    pub fn minute(self) -> u8
        ensures value { result ≡ minute_at self }
        ensures bound { result < 60 }
    {
        (self.second_of_day() / 60 % 60) as u8
    }

    /// The second of the minute, below 60.
    #[inline(always)]
    pub fn second(self) -> u8
        ensures value { result ≡ second_at self }
        ensures bound { result < 60 }
    {
        (self.second_of_day() % 60) as u8
    }

    /// The nanosecond of the second, below 1,000,000,000.
    #[inline(always)]
    pub fn nanosecond(self) -> u32
        ensures value { result ≡ nanosecond_at self }
        ensures bound { result < second_nanos }
    {
        self.nanosecond
    }

    /// The hour, the minute and the second.
    #[inline(always)]
    pub fn as_hms(self) -> (u8, u8, u8)
        ensures hour { result.0 ≡ hour_at self }
        ensures minute { result.1 ≡ minute_at self }
        ensures second { result.2 ≡ second_at self }
        ensures bound { (result.0 < 24) × (result.1 < 60) × (result.2 < 60) }
    {
        (self.hour(), self.minute(), self.second())
    }

    /// The hour, the minute, the second and the nanosecond.
    #[inline(always)]
    pub fn as_hms_nano(self) -> (u8, u8, u8, u32)
        ensures hour { result.0 ≡ hour_at self }
        ensures minute { result.1 ≡ minute_at self }
        ensures second { result.2 ≡ second_at self }
        ensures nanosecond { result.3 ≡ nanosecond_at self }
        ensures bound { (result.0 < 24) × (result.1 < 60) × (result.2 < 60)
            × (result.3 < second_nanos) }
    {
        (self.hour(), self.minute(), self.second(), self.nanosecond())
    }
}

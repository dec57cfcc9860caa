//! Times of day by their parts, and their parts.
ghost use Rattle.std.specs.Prelude.{◌≡◌, ◌+◌, ◌<◌, IfOk};
ghost use Rattle.calendar_clock.specs.Time.{milli_nanos, micro_nanos, second_nanos, minute_nanos, hour_nanos, day_nanos, hour_at, minute_at, second_at, millisecond_at, microsecond_at, nanosecond_at, time_of, time_of_milli, time_of_micro, cut_to};

use crate::time::Time;
use calendar_count::{ComponentName, ComponentRange};

impl Time {
    /// The time with this hour below 24, minute and second below 60, and millisecond below 1000; else
    /// the coarsest part that is out of range is refused.
    #[inline(always)]
    #[tactic(auto, unfolding(crate::specs::Time::time_of, crate::specs::Time::time_of_milli))]
    pub fn from_hms_milli(
        hour: u8,
        minute: u8,
        second: u8,
        millisecond: u16,
    ) -> Result<Time, ComponentRange>
        ensures value { result ≡ time_of_milli hour minute second millisecond }
        ensures bound { IfOk result (λ t. t < day_nanos) }
    {
        let whole = Time::from_hms(hour, minute, second)?;
        if millisecond > 999 {
            return Err(ComponentRange::unconditional(ComponentName::Millisecond));
        }
        Ok(whole.with_nanosecond(u32::from(millisecond) * 1_000_000))
    }

    /// The time with this hour below 24, minute and second below 60, and microsecond below 1,000,000;
    /// else the coarsest part that is out of range is refused.
    #[inline(always)]
    #[tactic(auto, unfolding(crate::specs::Time::time_of, crate::specs::Time::time_of_micro))]
    pub fn from_hms_micro(
        hour: u8,
        minute: u8,
        second: u8,
        microsecond: u32,
    ) -> Result<Time, ComponentRange>
        ensures value { result ≡ time_of_micro hour minute second microsecond }
        ensures bound { IfOk result (λ t. t < day_nanos) }
    {
        let whole = Time::from_hms(hour, minute, second)?;
        if microsecond > 999_999 {
            return Err(ComponentRange::unconditional(ComponentName::Microsecond));
        }
        Ok(whole.with_nanosecond(microsecond * 1000))
    }

    // The same second, and so many nanoseconds past it.
    #[inline(always)]
    fn with_nanosecond(self, nanosecond: u32) -> Time
        requires { nanosecond < second_nanos }
        ensures value { result ≡ cut_to second_nanos self + nanosecond }
        ensures bound { result < day_nanos }
    {
        Time::from_seconds_nanoseconds(self.second_of_day(), nanosecond)
    }

    /// The millisecond of the second, below 1000.
    #[inline(always)]
    pub fn millisecond(self) -> u16
        ensures value { result ≡ millisecond_at self }
        ensures bound { result < 1000 }
    {
        (self.nanosecond() / 1_000_000) as u16
    }

    /// The microsecond of the second, below 1,000,000.
    #[inline(always)]
    pub fn microsecond(self) -> u32
        ensures value { result ≡ microsecond_at self }
        ensures bound { result < 1_000_000 }
    {
        self.nanosecond() / 1000
    }

    /// The hour, the minute, the second and the millisecond.
    #[inline(always)]
    pub fn as_hms_milli(self) -> (u8, u8, u8, u16)
        ensures hour { result.0 ≡ hour_at self }
        ensures minute { result.1 ≡ minute_at self }
        ensures second { result.2 ≡ second_at self }
        ensures millisecond { result.3 ≡ millisecond_at self }
        ensures bound { (result.0 < 24) × (result.1 < 60) × (result.2 < 60) × (result.3 < 1000) }
    {
        (
            self.hour(),
            self.minute(),
            self.second(),
            self.millisecond(),
        )
    }

    /// The hour, the minute, the second and the microsecond.
    #[inline(always)]
    pub fn as_hms_micro(self) -> (u8, u8, u8, u32)
        ensures hour { result.0 ≡ hour_at self }
        ensures minute { result.1 ≡ minute_at self }
        ensures second { result.2 ≡ second_at self }
        ensures microsecond { result.3 ≡ microsecond_at self }
        ensures bound { (result.0 < 24) × (result.1 < 60) × (result.2 < 60)
            × (result.3 < 1_000_000) }
    {
        (
            self.hour(),
            self.minute(),
            self.second(),
            self.microsecond(),
        )
    }

    /// The same time in another hour, refused from 24 on.
    pub fn replace_hour(self, hour: u8) -> Result<Time, ComponentRange>
        ensures value { result
            ≡ time_of hour (minute_at self) (second_at self) (nanosecond_at self) }
        ensures bound { IfOk result (λ t. t < day_nanos) }
    {
        Time::from_hms_nano(hour, self.minute(), self.second(), self.nanosecond())
    }

    /// The same time in another minute of the hour, refused from 60 on.
    pub fn replace_minute(self, minute: u8) -> Result<Time, ComponentRange>
        ensures value { result
            ≡ time_of (hour_at self) minute (second_at self) (nanosecond_at self) }
        ensures bound { IfOk result (λ t. t < day_nanos) }
    {
        Time::from_hms_nano(self.hour(), minute, self.second(), self.nanosecond())
    }

    /// The same time in another second of the minute, refused from 60 on.
    pub fn replace_second(self, second: u8) -> Result<Time, ComponentRange>
        ensures value { result
            ≡ time_of (hour_at self) (minute_at self) second (nanosecond_at self) }
        ensures bound { IfOk result (λ t. t < day_nanos) }
    {
        Time::from_hms_nano(self.hour(), self.minute(), second, self.nanosecond())
    }

    /// The same second, and so many whole milliseconds past it, refused from 1000 on.
    pub fn replace_millisecond(self, millisecond: u16) -> Result<Time, ComponentRange>
        ensures value { result
            ≡ time_of_milli (hour_at self) (minute_at self) (second_at self) millisecond }
        ensures bound { IfOk result (λ t. t < day_nanos) }
    {
        Time::from_hms_milli(self.hour(), self.minute(), self.second(), millisecond)
    }

    /// The same second, and so many whole microseconds past it, refused from 1,000,000 on.
    pub fn replace_microsecond(self, microsecond: u32) -> Result<Time, ComponentRange>
        ensures value { result
            ≡ time_of_micro (hour_at self) (minute_at self) (second_at self) microsecond }
        ensures bound { IfOk result (λ t. t < day_nanos) }
    {
        Time::from_hms_micro(self.hour(), self.minute(), self.second(), microsecond)
    }

    /// The same second, and so many nanoseconds past it, refused from 1,000,000,000 on.
    pub fn replace_nanosecond(self, nanosecond: u32) -> Result<Time, ComponentRange>
        ensures value { result
            ≡ time_of (hour_at self) (minute_at self) (second_at self) nanosecond }
        ensures bound { IfOk result (λ t. t < day_nanos) }
    {
        Time::from_hms_nano(self.hour(), self.minute(), self.second(), nanosecond)
    }

    /// The time at which its hour began.
    pub fn truncate_to_hour(self) -> Time
        ensures value { result ≡ cut_to hour_nanos self }
        ensures bound { result < day_nanos }
    {
        let second_of_day = self.second_of_day();
        Time::from_seconds_nanoseconds(second_of_day - second_of_day % 3600, 0)
    }

    /// The time at which its minute began.
    pub fn truncate_to_minute(self) -> Time
        ensures value { result ≡ cut_to minute_nanos self }
        ensures bound { result < day_nanos }
    {
        let second_of_day = self.second_of_day();
        Time::from_seconds_nanoseconds(second_of_day - second_of_day % 60, 0)
    }

    /// The time at which its second began.
    pub fn truncate_to_second(self) -> Time
        ensures value { result ≡ cut_to second_nanos self }
        ensures bound { result < day_nanos }
    {
        self.with_nanosecond(0)
    }

    /// The time at which its millisecond began.
    pub fn truncate_to_millisecond(self) -> Time
        ensures value { result ≡ cut_to milli_nanos self }
        ensures bound { result < day_nanos }
    {
        let nanosecond = self.nanosecond();
        self.with_nanosecond(nanosecond - nanosecond % 1_000_000)
    }

    /// The time at which its microsecond began.
    pub fn truncate_to_microsecond(self) -> Time
        ensures value { result ≡ cut_to micro_nanos self }
        ensures bound { result < day_nanos }
    {
        let nanosecond = self.nanosecond();
        self.with_nanosecond(nanosecond - nanosecond % 1000)
    }
}

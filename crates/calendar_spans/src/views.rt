//! A duration in whole units, cut toward zero, and what is past them.
ghost use Rattle.std.specs.Prelude.{◌≡◌, ◌↔◌, ◌≤◌, ◌*◌, ◌+◌, ◌^◌, ◌/◌, ◌%◌, pos, ◌<ℤ◌, IsTrue, int_div, int_rem, unsigned_abs};
ghost use Rattle.std.specs.Duration.{as_nanos};
ghost use Rattle.calendar_spans.specs.Duration.{micro_nanos, milli_nanos, second_nanos, minute_nanos, hour_nanos, day_nanos, week_nanos, IsDuration, nearest_duration};

use crate::duration::{
    SECONDS_IN_DAY, SECONDS_IN_HOUR, SECONDS_IN_MINUTE, SECONDS_IN_WEEK, SignedDuration,
};
use std::time::Duration;

impl SignedDuration {
    /// The whole weeks of seven days, cut toward zero.
    #[inline(always)]
    pub fn whole_weeks(self) -> i64
        ensures value { result ≡ int_div self (pos week_nanos) }
        ensures bound { unsigned_abs result ≤ 15_250_284_452_471 }
    {
        self.whole_seconds() / SECONDS_IN_WEEK
    }

    /// The whole days of 24 hours, cut toward zero.
    #[inline(always)]
    pub fn whole_days(self) -> i64
        ensures value { result ≡ int_div self (pos day_nanos) }
        ensures bound { unsigned_abs result ≤ 106_751_991_167_300 }
    {
        self.whole_seconds() / SECONDS_IN_DAY
    }

    /// The whole hours, cut toward zero.
    #[inline(always)]
    pub fn whole_hours(self) -> i64
        ensures value { result ≡ int_div self (pos hour_nanos) }
        ensures bound { unsigned_abs result ≤ 2_562_047_788_015_215 }
    {
        self.whole_seconds() / SECONDS_IN_HOUR
    }

    /// The whole minutes, cut toward zero.
    #[inline(always)]
    pub fn whole_minutes(self) -> i64
        ensures value { result ≡ int_div self (pos minute_nanos) }
        ensures bound { unsigned_abs result ≤ 153_722_867_280_912_930 }
    {
        self.whole_seconds() / SECONDS_IN_MINUTE
    }

    /// The whole milliseconds, cut toward zero.
    #[inline(always)]
    pub fn whole_milliseconds(self) -> i128
        ensures value { result ≡ int_div self (pos milli_nanos) }
        ensures bound { unsigned_abs result ≤ 2 ^ 63 * 1000 + 999 }
    {
        let (seconds, nanoseconds) = self.parts();
        seconds * 1000 + i128::from(nanoseconds / 1_000_000)
    }

    /// The whole microseconds, cut toward zero.
    #[inline(always)]
    pub fn whole_microseconds(self) -> i128
        ensures value { result ≡ int_div self (pos micro_nanos) }
        ensures bound { unsigned_abs result ≤ 2 ^ 63 * 1_000_000 + 999_999 }
    {
        let (seconds, nanoseconds) = self.parts();
        seconds * 1_000_000 + i128::from(nanoseconds / 1000)
    }

    /// The milliseconds past the whole seconds, cut toward zero, within ±999.
    #[inline(always)]
    pub fn subsec_milliseconds(self) -> i16
        ensures value { result ≡ int_div (int_rem self (pos second_nanos)) (pos milli_nanos) }
        ensures bound { unsigned_abs result ≤ 999 }
    {
        (self.subsec_nanoseconds() / 1_000_000) as i16
    }

    /// The microseconds past the whole seconds, cut toward zero, within ±999,999.
    #[inline(always)]
    pub fn subsec_microseconds(self) -> i32
        ensures value { result ≡ int_div (int_rem self (pos second_nanos)) (pos micro_nanos) }
        ensures bound { unsigned_abs result ≤ 999_999 }
    {
        self.subsec_nanoseconds() / 1000
    }

    /// Whether it is no time at all.
    #[inline(always)]
    pub fn is_zero(self) -> bool
        ensures value { IsTrue result ↔ (self ≡ pos 0) }
    {
        self.whole_nanoseconds() == 0
    }

    /// Whether it leads back.
    #[inline(always)]
    pub fn is_negative(self) -> bool
        ensures value { IsTrue result ↔ (self <ℤ pos 0) }
        ensures range { IsDuration self }
    {
        self.whole_nanoseconds() < 0
    }

    /// Whether it leads forward.
    #[inline(always)]
    pub fn is_positive(self) -> bool
        ensures value { IsTrue result ↔ (pos 0 <ℤ self) }
        ensures range { IsDuration self }
    {
        self.whole_nanoseconds() > 0
    }

    /// Its length without the sign, or `MAX` where that is no duration, as for `MIN`.
    #[tactic(auto, unfolding(crate::specs::DurationParts::duration_nanos))]
    pub fn abs(self) -> SignedDuration
        ensures value { result ≡ nearest_duration (pos (unsigned_abs self)) }
    {
        if !self.is_negative() {
            return self;
        }
        let Some(length) = self.checked_neg() else {
            return SignedDuration::MAX;
        };
        length
    }

    /// Its length without the sign, as a duration of std. Each duration has one.
    #[inline(always)]
    pub fn unsigned_abs(self) -> Duration
        ensures value { as_nanos result ≡ unsigned_abs self }
    {
        let (seconds, nanoseconds) = self.length_parts();
        Duration::new(seconds, nanoseconds)
    }

    // The whole seconds of its length without the sign, and the nanoseconds past them.
    #[inline(always)]
    #[tactic(auto, using(crate::proofs::TextLemmas::seconds_of_length, crate::proofs::TextLemmas::nanoseconds_of_length))]
    pub(crate) fn length_parts(self) -> (u64, u32)
        ensures seconds { result.0 ≡ unsigned_abs self / second_nanos }
        ensures nanoseconds { result.1 ≡ unsigned_abs self % second_nanos }
        ensures bound { result.0 ≤ 2 ^ 63 }
    {
        (
            self.whole_seconds().unsigned_abs(),
            self.subsec_nanoseconds().unsigned_abs(),
        )
    }
}

//! Times of day moved by durations, and durations between them.
ghost use Rattle.std.specs.Prelude.{◌≡◌, ◌+◌, ◌-◌, ◌*◌, ◌%◌, ◌^◌, ◌<◌, pos, neg_ℤ, ◌+ℤ◌, ◌-ℤ◌, ◌*ℤ◌, ◌<ℤ◌, ◌≤ℤ◌, int_div, unsigned_abs};
ghost use Rattle.calendar_clock.specs.Time.{second_nanos, day_nanos, on_clock};
ghost use Rattle.calendar_clock.specs.declared.date_adjustment.DateAdjustment.TheVariants as adjustment;
ghost use Rattle.calendar_clock.specs.DateAdjustment.{carry};

use crate::date_adjustment::DateAdjustment;
use crate::time::Time;
use calendar_spans::SignedDuration;
use std::ops::{Add, AddAssign, Sub, SubAssign};

const NANOSECONDS_IN_SECOND: i32 = 1_000_000_000;

const SECONDS_IN_DAY: i32 = 86_400;

const LONG_SECONDS_IN_DAY: i64 = 86_400;

const NANOSECONDS_IN_DAY: u64 = 86_400_000_000_000;

// The seconds and nanoseconds of a duration past its whole days, cut toward zero.
#[inline(always)]
fn past_days(duration: SignedDuration) -> (i32, i32)
    ensures whole { duration ≡ int_div duration (pos day_nanos) *ℤ pos day_nanos
        +ℤ (result.0 *ℤ pos second_nanos +ℤ result.1) }
    ensures bound { (unsigned_abs result.0 < 86_400) × (unsigned_abs result.1 < second_nanos) }
    ensures forward { pos 0 <ℤ (result.0 *ℤ pos second_nanos +ℤ result.1) → pos 0 <ℤ duration }
    ensures back { (result.0 *ℤ pos second_nanos +ℤ result.1) <ℤ pos 0 → duration <ℤ pos 0 }
{
    let seconds = (duration.whole_seconds() % LONG_SECONDS_IN_DAY) as i32;
    (seconds, duration.subsec_nanoseconds())
}

// The same seconds and nanoseconds, with the nanoseconds from 0 to under a second.
#[inline(always)]
fn carried(seconds: i32, nanoseconds: i32) -> (i32, u32)
    requires seconds { unsigned_abs seconds < 2 ^ 30 }
    requires low { neg_ℤ (pos second_nanos) <ℤ nanoseconds }
    requires high { nanoseconds <ℤ pos (2 * second_nanos) }
    ensures whole { result.0 *ℤ pos second_nanos +ℤ pos result.1
        ≡ seconds *ℤ pos second_nanos +ℤ nanoseconds }
    ensures bound { result.1 < second_nanos }
{
    if nanoseconds < 0 {
        return (seconds - 1, (nanoseconds + NANOSECONDS_IN_SECOND) as u32);
    }
    if nanoseconds >= NANOSECONDS_IN_SECOND {
        return (seconds + 1, (nanoseconds - NANOSECONDS_IN_SECOND) as u32);
    }
    (seconds, nanoseconds as u32)
}

// What a clock shows so many seconds and nanoseconds after midnight, and on which day.
#[inline(always)]
fn shown(seconds: i32, nanoseconds: u32) -> (DateAdjustment, Time)
    requires low { neg_ℤ (pos 86_400) ≤ℤ seconds }
    requires high { seconds <ℤ pos 172_800 }
    requires nanoseconds { nanoseconds < second_nanos }
    ensures sum { seconds *ℤ pos second_nanos +ℤ pos nanoseconds
        ≡ carry result.0 *ℤ pos day_nanos +ℤ pos result.1 }
    ensures bound { result.1 < day_nanos }
{
    let (adjustment, second_of_day) = if seconds < 0 {
        (DateAdjustment::Previous, seconds + SECONDS_IN_DAY)
    } else if seconds >= SECONDS_IN_DAY {
        (DateAdjustment::Next, seconds - SECONDS_IN_DAY)
    } else {
        (DateAdjustment::None, seconds)
    };
    (
        adjustment,
        Time::from_seconds_nanoseconds(second_of_day as u32, nanoseconds),
    )
}

impl Time {
    /// The duration to the next time that the clock shows the other time: at least zero and under a
    /// day.
    pub fn duration_until(self, other: Time) -> SignedDuration
        ensures value { result ≡ pos ((other + (day_nanos - self)) % day_nanos) }
    {
        let (from, to) = (self.nanosecond_of_day(), other.nanosecond_of_day());
        let nanoseconds = if from <= to {
            to - from
        } else {
            to + (NANOSECONDS_IN_DAY - from)
        };
        SignedDuration::nanoseconds(nanoseconds as i64)
    }

    /// The duration since the clock last showed the other time: at least zero and under a day.
    pub fn duration_since(self, other: Time) -> SignedDuration
        ensures value { result ≡ pos ((self + (day_nanos - other)) % day_nanos) }
    {
        other.duration_until(self)
    }

    // The time so many seconds and nanoseconds later, and on which day.
    #[inline(always)]
    fn moved(self, seconds: i32, nanoseconds: i32) -> (DateAdjustment, Time)
        requires seconds { unsigned_abs seconds < 86_400 }
        requires nanoseconds { unsigned_abs nanoseconds < second_nanos }
        ensures sum { pos self +ℤ (seconds *ℤ pos second_nanos +ℤ nanoseconds)
            ≡ carry result.0 *ℤ pos day_nanos +ℤ pos result.1 }
        ensures bound { result.1 < day_nanos }
        ensures range { self < day_nanos }
    {
        let (second_of_day, nanosecond) = (self.second_of_day() as i32, self.nanosecond() as i32);
        let (seconds, nanoseconds) = carried(second_of_day + seconds, nanosecond + nanoseconds);
        shown(seconds, nanoseconds)
    }

    /// The time so much later, and whether that is the day before, the same or the day after, apart
    /// from the whole days of the duration, cut toward zero.
    #[inline(always)]
    pub fn adjusting_add(self, duration: SignedDuration) -> (DateAdjustment, Time)
        ensures sum { pos self +ℤ duration
            ≡ (int_div duration (pos day_nanos) +ℤ carry result.0) *ℤ pos day_nanos
            +ℤ pos result.1 }
        ensures bound { result.1 < day_nanos }
        ensures forward { result.0 ≡ adjustment.Next → pos 0 <ℤ duration }
        ensures back { result.0 ≡ adjustment.Previous → duration <ℤ pos 0 }
    {
        let (seconds, nanoseconds) = past_days(duration);
        self.moved(seconds, nanoseconds)
    }

    /// The time so much earlier, and whether that is the day before, the same or the day after, apart
    /// from the whole days of the duration, cut toward zero.
    #[inline(always)]
    pub fn adjusting_sub(self, duration: SignedDuration) -> (DateAdjustment, Time)
        ensures sum { pos self -ℤ duration
            ≡ (carry result.0 -ℤ int_div duration (pos day_nanos)) *ℤ pos day_nanos
            +ℤ pos result.1 }
        ensures bound { result.1 < day_nanos }
        ensures forward { result.0 ≡ adjustment.Next → duration <ℤ pos 0 }
        ensures back { result.0 ≡ adjustment.Previous → pos 0 <ℤ duration }
    {
        let (seconds, nanoseconds) = past_days(duration);
        self.moved(-seconds, -nanoseconds)
    }
}

impl Add<SignedDuration> for Time {
    type Output = Time;

    ghost add_gives = { λ t d r. r ≡ on_clock (pos t +ℤ d) };

    fn add(self, duration: SignedDuration) -> Time {
        let (_, time) = self.adjusting_add(duration);
        time
    }
}

impl AddAssign<SignedDuration> for Time {
    ghost add_assign_gives = { λ t d r. r ≡ on_clock (pos t +ℤ d) };

    fn add_assign(&mut self, duration: SignedDuration) {
        *self = *self + duration;
    }
}

impl Sub<SignedDuration> for Time {
    type Output = Time;

    ghost sub_gives = { λ t d r. r ≡ on_clock (pos t -ℤ d) };

    fn sub(self, duration: SignedDuration) -> Time {
        let (_, time) = self.adjusting_sub(duration);
        time
    }
}

impl SubAssign<SignedDuration> for Time {
    ghost sub_assign_gives = { λ t d r. r ≡ on_clock (pos t -ℤ d) };

    fn sub_assign(&mut self, duration: SignedDuration) {
        *self = *self - duration;
    }
}

impl Sub for Time {
    type Output = SignedDuration;

    ghost sub_gives = { λ t u r. r ≡ pos t -ℤ pos u };

    fn sub(self, other: Time) -> SignedDuration {
        let nanoseconds = self.nanosecond_of_day() as i64 - other.nanosecond_of_day() as i64;
        SignedDuration::nanoseconds(nanoseconds)
    }
}

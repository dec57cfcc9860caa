//! Days moved by durations, of which the whole days count, cut toward zero.
ghost use Rattle.std.specs.Prelude.{◌≡◌, ◌↔◌, pos, ◌+ℤ◌, ◌-ℤ◌, ◌*ℤ◌, IsSome, IfSome};
ghost use Rattle.calendar_count.specs.Range.{IsCount};
ghost use Rattle.calendar_spans.specs.Duration.{day_nanos};
ghost use Rattle.calendar_dates.specs.Arithmetic.{days_of, IsDayCount, nearest_count};

use crate::Date;
use calendar_count::range::LAST_COUNT;
use calendar_spans::SignedDuration;
use std::ops::{Add, AddAssign, Sub, SubAssign};

// The day so many days after the first one, if it is in range.
#[inline(always)]
fn day_at(count: i64) -> Option<Date>
    ensures some { IsSome result ↔ IsDayCount count }
    ensures value { IfSome result (λ d. pos d ≡ count) }
    ensures bound { IfSome result IsCount }
{
    if count < 0 {
        return None;
    }
    if count > LAST_COUNT as i64 {
        return None;
    }
    Some(Date::from_count(count as u32))
}

// The day nearest to it.
#[inline(always)]
fn day_near(count: i64) -> Date
    ensures value { result ≡ nearest_count count }
    ensures bound { IsCount result }
{
    if count < 0 {
        return Date::MIN;
    }
    if count > LAST_COUNT as i64 {
        return Date::MAX;
    }
    Date::from_count(count as u32)
}

impl Date {
    /// The day so many whole days later, or `None` past the ends of the calendar. What a duration has past its
    /// whole days has no effect.
    #[inline(always)]
    pub fn checked_add(self, duration: SignedDuration) -> Option<Date>
        ensures some { IsSome result ↔ IsDayCount (pos self +ℤ days_of duration) }
        ensures value { IfSome result (λ d. pos d ≡ pos self +ℤ days_of duration) }
        ensures bound { IfSome result IsCount }
    {
        day_at(self.count() as i64 + duration.whole_days())
    }

    /// The day so many whole days earlier, or `None` past the ends of the calendar. What a duration has past
    /// its whole days has no effect.
    #[inline(always)]
    pub fn checked_sub(self, duration: SignedDuration) -> Option<Date>
        ensures some { IsSome result ↔ IsDayCount (pos self -ℤ days_of duration) }
        ensures value { IfSome result (λ d. pos d ≡ pos self -ℤ days_of duration) }
        ensures bound { IfSome result IsCount }
    {
        day_at(self.count() as i64 - duration.whole_days())
    }

    /// The day so many whole days later, or the last or the first day where that is out of range.
    #[inline(always)]
    pub fn saturating_add(self, duration: SignedDuration) -> Date
        ensures value { result ≡ nearest_count (pos self +ℤ days_of duration) }
        ensures bound { IsCount result }
    {
        day_near(self.count() as i64 + duration.whole_days())
    }

    /// The day so many whole days earlier, or the first or the last day where that is out of range.
    #[inline(always)]
    pub fn saturating_sub(self, duration: SignedDuration) -> Date
        ensures value { result ≡ nearest_count (pos self -ℤ days_of duration) }
        ensures bound { IsCount result }
    {
        day_near(self.count() as i64 - duration.whole_days())
    }
}

impl Add<SignedDuration> for Date {
    type Output = Date;

    ghost can_add = { λ day duration. IsDayCount (pos day +ℤ days_of duration) };

    ghost add_gives = { λ day duration sum. pos sum ≡ pos day +ℤ days_of duration };

    fn add(self, duration: SignedDuration) -> Date {
        self.checked_add(duration).unwrap()
    }
}

impl AddAssign<SignedDuration> for Date {
    ghost can_add_assign = { λ day duration. IsDayCount (pos day +ℤ days_of duration) };

    ghost add_assign_gives = { λ day duration sum. pos sum ≡ pos day +ℤ days_of duration };

    fn add_assign(&mut self, duration: SignedDuration) {
        *self = *self + duration;
    }
}

impl Sub<SignedDuration> for Date {
    type Output = Date;

    ghost can_sub = { λ day duration. IsDayCount (pos day -ℤ days_of duration) };

    ghost sub_gives = { λ day duration difference.
        pos difference ≡ pos day -ℤ days_of duration };

    fn sub(self, duration: SignedDuration) -> Date {
        self.checked_sub(duration).unwrap()
    }
}

impl SubAssign<SignedDuration> for Date {
    ghost can_sub_assign = { λ day duration. IsDayCount (pos day -ℤ days_of duration) };

    ghost sub_assign_gives = { λ day duration difference.
        pos difference ≡ pos day -ℤ days_of duration };

    fn sub_assign(&mut self, duration: SignedDuration) {
        *self = *self - duration;
    }
}

impl Sub<Date> for Date {
    type Output = SignedDuration;

    ghost sub_gives = { λ later earlier duration.
        duration ≡ (pos later -ℤ pos earlier) *ℤ pos day_nanos };

    fn sub(self, other: Date) -> SignedDuration {
        SignedDuration::days(self.count() as i64 - other.count() as i64)
    }
}

//! Dates and times of day moved by durations, and durations between them.
ghost use Rattle.std.specs.Prelude.{◌≡◌, ◌↔◌, IsSome, IfSome, pos, ◌+ℤ◌, ◌-ℤ◌, if◌then◌else◌};
ghost use Rattle.std.specs.Duration.{as_nanos};
ghost use Rattle.datetime_wall.specs.Wall.{first_wall_clock, last_wall_clock, IsWallClock, nearest_wall_clock};

use crate::PlainDateTime;
use crate::difference::difference;
use calendar::SignedDuration;
use datetime_wall::durations::nearest_from_std;
use datetime_wall::moved;
use std::ops::{Add, AddAssign, Sub, SubAssign};
use std::time::Duration;

impl PlainDateTime {
    // The first or the last wall clock.
    #[tactic(auto, unfolding(datetime_wall::specs::Wall::wall_clock))]
    fn end(is_first: bool) -> PlainDateTime
        ensures { result ≡ (if is_first then first_wall_clock else last_wall_clock) }
    {
        if is_first {
            PlainDateTime::MIN
        } else {
            PlainDateTime::MAX
        }
    }

    /// The date and time so much later, or `None` where the calendar does not have the day.
    #[inline(always)]
    pub fn checked_add(self, duration: SignedDuration) -> Option<PlainDateTime>
        ensures some { IsSome result ↔ IsWallClock (self +ℤ duration) }
        ensures value { IfSome result (λ m. m ≡ self +ℤ duration) }
        ensures range { IsWallClock self }
    {
        let (date, time) = moved::added(self.date(), self.time(), duration)?;
        Some(PlainDateTime::new(date, time))
    }

    /// The date and time so much earlier, or `None` where the calendar does not have the day.
    #[inline(always)]
    pub fn checked_sub(self, duration: SignedDuration) -> Option<PlainDateTime>
        ensures some { IsSome result ↔ IsWallClock (self -ℤ duration) }
        ensures value { IfSome result (λ m. m ≡ self -ℤ duration) }
        ensures range { IsWallClock self }
    {
        let (date, time) = moved::subtracted(self.date(), self.time(), duration)?;
        Some(PlainDateTime::new(date, time))
    }

    /// The date and time so much later, or `None` where the calendar does not have the day.
    pub fn checked_add_std(self, duration: Duration) -> Option<PlainDateTime>
        ensures some { IsSome result ↔ IsWallClock (self +ℤ pos (as_nanos duration)) }
        ensures value { IfSome result (λ m. m ≡ self +ℤ pos (as_nanos duration)) }
    {
        // The greatest duration already leads out of the calendar.
        self.checked_add(nearest_from_std(duration))
    }

    /// The date and time so much earlier, or `None` where the calendar does not have the day.
    pub fn checked_sub_std(self, duration: Duration) -> Option<PlainDateTime>
        ensures some { IsSome result ↔ IsWallClock (self -ℤ pos (as_nanos duration)) }
        ensures value { IfSome result (λ m. m ≡ self -ℤ pos (as_nanos duration)) }
    {
        // The greatest duration already leads out of the calendar.
        self.checked_sub(nearest_from_std(duration))
    }

    /// The date and time so much later, or the nearest one that the calendar has.
    pub fn saturating_add(self, duration: SignedDuration) -> PlainDateTime
        ensures { result ≡ nearest_wall_clock (self +ℤ duration) }
    {
        let Some(moved) = self.checked_add(duration) else {
            return PlainDateTime::end(duration.is_negative());
        };
        moved
    }

    /// The date and time so much earlier, or the nearest one that the calendar has.
    pub fn saturating_sub(self, duration: SignedDuration) -> PlainDateTime
        ensures { result ≡ nearest_wall_clock (self -ℤ duration) }
    {
        let Some(moved) = self.checked_sub(duration) else {
            return PlainDateTime::end(duration.is_positive());
        };
        moved
    }
}

impl Add<SignedDuration> for PlainDateTime {
    type Output = PlainDateTime;

    ghost can_add = { λ a d. IsWallClock (a +ℤ d) };

    ghost add_gives = { λ a d r. r ≡ a +ℤ d };

    fn add(self, duration: SignedDuration) -> PlainDateTime {
        self.checked_add(duration).unwrap()
    }
}

impl AddAssign<SignedDuration> for PlainDateTime {
    ghost can_add_assign = { λ a d. IsWallClock (a +ℤ d) };

    ghost add_assign_gives = { λ a d r. r ≡ a +ℤ d };

    fn add_assign(&mut self, duration: SignedDuration) {
        *self = *self + duration;
    }
}

impl Sub<SignedDuration> for PlainDateTime {
    type Output = PlainDateTime;

    ghost can_sub = { λ a d. IsWallClock (a -ℤ d) };

    ghost sub_gives = { λ a d r. r ≡ a -ℤ d };

    fn sub(self, duration: SignedDuration) -> PlainDateTime {
        self.checked_sub(duration).unwrap()
    }
}

impl SubAssign<SignedDuration> for PlainDateTime {
    ghost can_sub_assign = { λ a d. IsWallClock (a -ℤ d) };

    ghost sub_assign_gives = { λ a d r. r ≡ a -ℤ d };

    fn sub_assign(&mut self, duration: SignedDuration) {
        *self = *self - duration;
    }
}

impl Add<Duration> for PlainDateTime {
    type Output = PlainDateTime;

    ghost can_add = { λ a d. IsWallClock (a +ℤ pos (as_nanos d)) };

    ghost add_gives = { λ a d r. r ≡ a +ℤ pos (as_nanos d) };

    fn add(self, duration: Duration) -> PlainDateTime {
        self.checked_add_std(duration).unwrap()
    }
}

impl AddAssign<Duration> for PlainDateTime {
    ghost can_add_assign = { λ a d. IsWallClock (a +ℤ pos (as_nanos d)) };

    ghost add_assign_gives = { λ a d r. r ≡ a +ℤ pos (as_nanos d) };

    fn add_assign(&mut self, duration: Duration) {
        *self = *self + duration;
    }
}

impl Sub<Duration> for PlainDateTime {
    type Output = PlainDateTime;

    ghost can_sub = { λ a d. IsWallClock (a -ℤ pos (as_nanos d)) };

    ghost sub_gives = { λ a d r. r ≡ a -ℤ pos (as_nanos d) };

    fn sub(self, duration: Duration) -> PlainDateTime {
        self.checked_sub_std(duration).unwrap()
    }
}

impl SubAssign<Duration> for PlainDateTime {
    ghost can_sub_assign = { λ a d. IsWallClock (a -ℤ pos (as_nanos d)) };

    ghost sub_assign_gives = { λ a d r. r ≡ a -ℤ pos (as_nanos d) };

    fn sub_assign(&mut self, duration: Duration) {
        *self = *self - duration;
    }
}

impl Sub for PlainDateTime {
    type Output = SignedDuration;

    ghost sub_gives = { λ a b r. r ≡ a -ℤ b };

    fn sub(self, other: PlainDateTime) -> SignedDuration {
        difference(self.parts(), other.parts())
    }
}

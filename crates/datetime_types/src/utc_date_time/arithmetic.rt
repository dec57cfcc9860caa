//! Dates and times of day moved by durations, and durations between them.
ghost use Rattle.std.specs.Prelude.{◌≡◌, ◌↔◌, IsSome, IfSome, pos, ◌+ℤ◌, ◌-ℤ◌};
ghost use Rattle.std.specs.Duration.{as_nanos};
ghost use Rattle.datetime_wall.specs.Wall.{IsWallClock, nearest_wall_clock};

use crate::UtcDateTime;
use crate::difference::difference;
use calendar::SignedDuration;
use std::ops::{Add, AddAssign, Sub, SubAssign};
use std::time::Duration;

impl UtcDateTime {
    /// The date and time so much later, or `None` where the calendar does not have the day.
    #[inline(always)]
    pub fn checked_add(self, duration: SignedDuration) -> Option<UtcDateTime>
        ensures some { IsSome result ↔ IsWallClock (self +ℤ duration) }
        ensures value { IfSome result (λ m. m ≡ self +ℤ duration) }
        ensures range { IsWallClock self }
    {
        Some(UtcDateTime::from_wall(self.wall.checked_add(duration)?))
    }

    /// The date and time so much earlier, or `None` where the calendar does not have the day.
    #[inline(always)]
    pub fn checked_sub(self, duration: SignedDuration) -> Option<UtcDateTime>
        ensures some { IsSome result ↔ IsWallClock (self -ℤ duration) }
        ensures value { IfSome result (λ m. m ≡ self -ℤ duration) }
        ensures range { IsWallClock self }
    {
        Some(UtcDateTime::from_wall(self.wall.checked_sub(duration)?))
    }

    /// The date and time so much later, or `None` where the calendar does not have the day.
    pub fn checked_add_std(self, duration: Duration) -> Option<UtcDateTime>
        ensures some { IsSome result ↔ IsWallClock (self +ℤ pos (as_nanos duration)) }
        ensures value { IfSome result (λ m. m ≡ self +ℤ pos (as_nanos duration)) }
    {
        Some(UtcDateTime::from_wall(self.wall.checked_add_std(duration)?))
    }

    /// The date and time so much earlier, or `None` where the calendar does not have the day.
    pub fn checked_sub_std(self, duration: Duration) -> Option<UtcDateTime>
        ensures some { IsSome result ↔ IsWallClock (self -ℤ pos (as_nanos duration)) }
        ensures value { IfSome result (λ m. m ≡ self -ℤ pos (as_nanos duration)) }
    {
        Some(UtcDateTime::from_wall(self.wall.checked_sub_std(duration)?))
    }

    /// The date and time so much later, or the nearest one that the calendar has.
    pub fn saturating_add(self, duration: SignedDuration) -> UtcDateTime
        ensures { result ≡ nearest_wall_clock (self +ℤ duration) }
    {
        UtcDateTime::from_wall(self.wall.saturating_add(duration))
    }

    /// The date and time so much earlier, or the nearest one that the calendar has.
    pub fn saturating_sub(self, duration: SignedDuration) -> UtcDateTime
        ensures { result ≡ nearest_wall_clock (self -ℤ duration) }
    {
        UtcDateTime::from_wall(self.wall.saturating_sub(duration))
    }
}

impl Add<SignedDuration> for UtcDateTime {
    type Output = UtcDateTime;

    ghost can_add = { λ a d. IsWallClock (a +ℤ d) };

    ghost add_gives = { λ a d r. r ≡ a +ℤ d };

    fn add(self, duration: SignedDuration) -> UtcDateTime {
        self.checked_add(duration).unwrap()
    }
}

impl AddAssign<SignedDuration> for UtcDateTime {
    ghost can_add_assign = { λ a d. IsWallClock (a +ℤ d) };

    ghost add_assign_gives = { λ a d r. r ≡ a +ℤ d };

    fn add_assign(&mut self, duration: SignedDuration) {
        *self = *self + duration;
    }
}

impl Sub<SignedDuration> for UtcDateTime {
    type Output = UtcDateTime;

    ghost can_sub = { λ a d. IsWallClock (a -ℤ d) };

    ghost sub_gives = { λ a d r. r ≡ a -ℤ d };

    fn sub(self, duration: SignedDuration) -> UtcDateTime {
        self.checked_sub(duration).unwrap()
    }
}

impl SubAssign<SignedDuration> for UtcDateTime {
    ghost can_sub_assign = { λ a d. IsWallClock (a -ℤ d) };

    ghost sub_assign_gives = { λ a d r. r ≡ a -ℤ d };

    fn sub_assign(&mut self, duration: SignedDuration) {
        *self = *self - duration;
    }
}

impl Add<Duration> for UtcDateTime {
    type Output = UtcDateTime;

    ghost can_add = { λ a d. IsWallClock (a +ℤ pos (as_nanos d)) };

    ghost add_gives = { λ a d r. r ≡ a +ℤ pos (as_nanos d) };

    fn add(self, duration: Duration) -> UtcDateTime {
        self.checked_add_std(duration).unwrap()
    }
}

impl AddAssign<Duration> for UtcDateTime {
    ghost can_add_assign = { λ a d. IsWallClock (a +ℤ pos (as_nanos d)) };

    ghost add_assign_gives = { λ a d r. r ≡ a +ℤ pos (as_nanos d) };

    fn add_assign(&mut self, duration: Duration) {
        *self = *self + duration;
    }
}

impl Sub<Duration> for UtcDateTime {
    type Output = UtcDateTime;

    ghost can_sub = { λ a d. IsWallClock (a -ℤ pos (as_nanos d)) };

    ghost sub_gives = { λ a d r. r ≡ a -ℤ pos (as_nanos d) };

    fn sub(self, duration: Duration) -> UtcDateTime {
        self.checked_sub_std(duration).unwrap()
    }
}

impl SubAssign<Duration> for UtcDateTime {
    ghost can_sub_assign = { λ a d. IsWallClock (a -ℤ pos (as_nanos d)) };

    ghost sub_assign_gives = { λ a d r. r ≡ a -ℤ pos (as_nanos d) };

    fn sub_assign(&mut self, duration: Duration) {
        *self = *self - duration;
    }
}

impl Sub for UtcDateTime {
    type Output = SignedDuration;

    ghost sub_gives = { λ a b r. r ≡ a -ℤ b };

    fn sub(self, other: UtcDateTime) -> SignedDuration {
        difference(self.parts(), other.parts())
    }
}

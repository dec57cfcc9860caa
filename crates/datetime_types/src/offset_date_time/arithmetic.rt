//! Dates and times of day moved by durations, and durations between them.
ghost use Rattle.std.specs.Prelude.{◌≡◌, ◌↔◌, IsSome, IfSome, pos, ◌+ℤ◌, ◌-ℤ◌};
ghost use Rattle.std.specs.Duration.{as_nanos};
ghost use Rattle.datetime_wall.specs.Wall.{IsWallClock, nearest_wall_clock, instant};

use crate::OffsetDateTime;
use crate::difference::difference;
use calendar::SignedDuration;
use std::ops::{Add, AddAssign, Sub, SubAssign};
use std::time::Duration;

impl OffsetDateTime {
    /// The date and time at the offset so much later, or `None` where the calendar does not have the day.
    #[inline(always)]
    pub fn checked_add(self, duration: SignedDuration) -> Option<OffsetDateTime>
        ensures some { IsSome result ↔ IsWallClock (self.wall +ℤ duration) }
        ensures value { IfSome result
            (λ m. m ≡ record { wall = self.wall +ℤ duration; offset = self.offset }) }
        ensures range { IsWallClock self.wall }
    {
        let wall = self.wall.checked_add(duration)?;
        Some(OffsetDateTime::from_wall(wall, self.offset))
    }

    /// The date and time at the offset so much earlier, or `None` where the calendar does not have the day.
    #[inline(always)]
    pub fn checked_sub(self, duration: SignedDuration) -> Option<OffsetDateTime>
        ensures some { IsSome result ↔ IsWallClock (self.wall -ℤ duration) }
        ensures value { IfSome result
            (λ m. m ≡ record { wall = self.wall -ℤ duration; offset = self.offset }) }
        ensures range { IsWallClock self.wall }
    {
        let wall = self.wall.checked_sub(duration)?;
        Some(OffsetDateTime::from_wall(wall, self.offset))
    }

    /// The date and time at the offset so much later, or `None` where the calendar does not have the day.
    pub fn checked_add_std(self, duration: Duration) -> Option<OffsetDateTime>
        ensures some { IsSome result ↔ IsWallClock (self.wall +ℤ pos (as_nanos duration)) }
        ensures value { IfSome result
            (λ m. m ≡ record {
              wall = self.wall +ℤ pos (as_nanos duration);
              offset = self.offset;
            }) }
    {
        let wall = self.wall.checked_add_std(duration)?;
        Some(OffsetDateTime::from_wall(wall, self.offset))
    }

    /// The date and time at the offset so much earlier, or `None` where the calendar does not have the day.
    pub fn checked_sub_std(self, duration: Duration) -> Option<OffsetDateTime>
        ensures some { IsSome result ↔ IsWallClock (self.wall -ℤ pos (as_nanos duration)) }
        ensures value { IfSome result
            (λ m. m ≡ record {
              wall = self.wall -ℤ pos (as_nanos duration);
              offset = self.offset;
            }) }
    {
        let wall = self.wall.checked_sub_std(duration)?;
        Some(OffsetDateTime::from_wall(wall, self.offset))
    }

    /// The date and time at the offset so much later, or the nearest one that the calendar has, with the
    /// same offset.
    pub fn saturating_add(self, duration: SignedDuration) -> OffsetDateTime
        ensures { result
            ≡ record { wall = nearest_wall_clock (self.wall +ℤ duration); offset = self.offset } }
    {
        OffsetDateTime::from_wall(self.wall.saturating_add(duration), self.offset)
    }

    /// The date and time at the offset so much earlier, or the nearest one that the calendar has, with the
    /// same offset.
    pub fn saturating_sub(self, duration: SignedDuration) -> OffsetDateTime
        ensures { result
            ≡ record { wall = nearest_wall_clock (self.wall -ℤ duration); offset = self.offset } }
    {
        OffsetDateTime::from_wall(self.wall.saturating_sub(duration), self.offset)
    }
}

impl Add<SignedDuration> for OffsetDateTime {
    type Output = OffsetDateTime;

    ghost can_add = { λ a d. IsWallClock (a.wall +ℤ d) };

    ghost add_gives = { λ a d r. r ≡ record { wall = a.wall +ℤ d; offset = a.offset } };

    fn add(self, duration: SignedDuration) -> OffsetDateTime {
        self.checked_add(duration).unwrap()
    }
}

impl AddAssign<SignedDuration> for OffsetDateTime {
    ghost can_add_assign = { λ a d. IsWallClock (a.wall +ℤ d) };

    ghost add_assign_gives = { λ a d r. r ≡ record { wall = a.wall +ℤ d; offset = a.offset } };

    fn add_assign(&mut self, duration: SignedDuration) {
        *self = *self + duration;
    }
}

impl Sub<SignedDuration> for OffsetDateTime {
    type Output = OffsetDateTime;

    ghost can_sub = { λ a d. IsWallClock (a.wall -ℤ d) };

    ghost sub_gives = { λ a d r. r ≡ record { wall = a.wall -ℤ d; offset = a.offset } };

    fn sub(self, duration: SignedDuration) -> OffsetDateTime {
        self.checked_sub(duration).unwrap()
    }
}

impl SubAssign<SignedDuration> for OffsetDateTime {
    ghost can_sub_assign = { λ a d. IsWallClock (a.wall -ℤ d) };

    ghost sub_assign_gives = { λ a d r. r ≡ record { wall = a.wall -ℤ d; offset = a.offset } };

    fn sub_assign(&mut self, duration: SignedDuration) {
        *self = *self - duration;
    }
}

impl Add<Duration> for OffsetDateTime {
    type Output = OffsetDateTime;

    ghost can_add = { λ a d. IsWallClock (a.wall +ℤ pos (as_nanos d)) };

    ghost add_gives = { λ a d r. r
        ≡ record { wall = a.wall +ℤ pos (as_nanos d); offset = a.offset } };

    fn add(self, duration: Duration) -> OffsetDateTime {
        self.checked_add_std(duration).unwrap()
    }
}

impl AddAssign<Duration> for OffsetDateTime {
    ghost can_add_assign = { λ a d. IsWallClock (a.wall +ℤ pos (as_nanos d)) };

    ghost add_assign_gives = { λ a d r. r
        ≡ record { wall = a.wall +ℤ pos (as_nanos d); offset = a.offset } };

    fn add_assign(&mut self, duration: Duration) {
        *self = *self + duration;
    }
}

impl Sub<Duration> for OffsetDateTime {
    type Output = OffsetDateTime;

    ghost can_sub = { λ a d. IsWallClock (a.wall -ℤ pos (as_nanos d)) };

    ghost sub_gives = { λ a d r. r
        ≡ record { wall = a.wall -ℤ pos (as_nanos d); offset = a.offset } };

    fn sub(self, duration: Duration) -> OffsetDateTime {
        self.checked_sub_std(duration).unwrap()
    }
}

impl SubAssign<Duration> for OffsetDateTime {
    ghost can_sub_assign = { λ a d. IsWallClock (a.wall -ℤ pos (as_nanos d)) };

    ghost sub_assign_gives = { λ a d r. r
        ≡ record { wall = a.wall -ℤ pos (as_nanos d); offset = a.offset } };

    fn sub_assign(&mut self, duration: Duration) {
        *self = *self - duration;
    }
}

impl Sub for OffsetDateTime {
    type Output = SignedDuration;

    ghost sub_gives = { λ a b r. r ≡ instant a -ℤ instant b };

    fn sub(self, other: OffsetDateTime) -> SignedDuration {
        difference(self.parts(), other.parts())
    }
}

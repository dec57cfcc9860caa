//! Instants moved by durations, and durations between them.
ghost use Rattle.std.specs.Prelude.{◌≡◌, ◌↔◌, IsSome, IfSome, pos, ◌+ℤ◌, ◌-ℤ◌, ◌≤◌, ◌<◌, ◌^◌, ◌*ℤ◌, if◌then◌else◌, unsigned_abs, neg_ℤ, ◌<ℤ◌, ◌*◌};
ghost use Rattle.std.specs.Duration.{as_nanos};
ghost use Rattle.datetime_wall.specs.Wall.{second_nanos, first_wall_clock, last_wall_clock, IsWallClock, nearest_wall_clock};

use crate::Timestamp;
use crate::difference::difference;
use calendar::SignedDuration;
use datetime_wall::durations::nearest_from_std;
use std::ops::{Add, AddAssign, Sub, SubAssign};
use std::time::Duration;

// The seconds that are carried, and the nanoseconds that are left.
#[inline(always)]
fn carried(nanoseconds: i32) -> (i32, u32)
    requires low { neg_ℤ (pos second_nanos) <ℤ nanoseconds }
    requires high { nanoseconds <ℤ pos (2 * second_nanos) }
    ensures whole { result.0 *ℤ pos second_nanos +ℤ pos result.1 ≡ nanoseconds }
    ensures carry { unsigned_abs result.0 ≤ 1 }
    ensures bound { result.1 < second_nanos }
{
    if nanoseconds < 0 {
        (-1, (nanoseconds + 1_000_000_000) as u32)
    } else if nanoseconds < 1_000_000_000 {
        (0, nanoseconds as u32)
    } else {
        (1, (nanoseconds - 1_000_000_000) as u32)
    }
}

impl Timestamp {
    // The first or the last instant.
    #[tactic(auto, unfolding(crate::specs::Unix::unix_nanos))]
    fn end(is_first: bool) -> Timestamp
        ensures { result ≡ (if is_first then first_wall_clock else last_wall_clock) }
    {
        if is_first {
            Timestamp::MIN
        } else {
            Timestamp::MAX
        }
    }

    // The instant of these parts, where the calendar has it.
    #[inline(always)]
    fn of_parts(seconds: i128, nanosecond: u32) -> Option<Timestamp>
        requires { nanosecond < second_nanos }
        ensures some { IsSome result ↔ IsWallClock (seconds *ℤ pos second_nanos +ℤ pos nanosecond) }
        ensures value { IfSome result (λ t. t ≡ seconds *ℤ pos second_nanos +ℤ pos nanosecond) }
    {
        Timestamp::new(i64::try_from(seconds).ok()?, nanosecond).ok()
    }

    // The instant so many seconds and nanoseconds later, where the calendar has it.
    #[inline(always)]
    fn moved(self, seconds: i128, nanoseconds: i32) -> Option<Timestamp>
        requires seconds { unsigned_abs seconds ≤ 2 ^ 63 }
        requires nanoseconds { unsigned_abs nanoseconds < second_nanos }
        ensures some { IsSome result
            ↔ IsWallClock (self +ℤ (seconds *ℤ pos second_nanos +ℤ nanoseconds)) }
        ensures value { IfSome result
            (λ t. t ≡ self +ℤ (seconds *ℤ pos second_nanos +ℤ nanoseconds)) }
        ensures range { IsWallClock self }
    {
        let (own_seconds, own_nanosecond) = self.parts();
        let (carry, nanosecond) = carried(own_nanosecond as i32 + nanoseconds);
        let seconds = i128::from(own_seconds + i64::from(carry)) + seconds;
        Timestamp::of_parts(seconds, nanosecond)
    }

    /// The instant so much later, or `None` where the calendar does not have the day.
    #[inline(always)]
    pub fn checked_add(self, duration: SignedDuration) -> Option<Timestamp>
        ensures some { IsSome result ↔ IsWallClock (self +ℤ duration) }
        ensures value { IfSome result (λ m. m ≡ self +ℤ duration) }
        ensures range { IsWallClock self }
    {
        let seconds = i128::from(duration.whole_seconds());
        self.moved(seconds, duration.subsec_nanoseconds())
    }

    /// The instant so much earlier, or `None` where the calendar does not have the day.
    #[inline(always)]
    pub fn checked_sub(self, duration: SignedDuration) -> Option<Timestamp>
        ensures some { IsSome result ↔ IsWallClock (self -ℤ duration) }
        ensures value { IfSome result (λ m. m ≡ self -ℤ duration) }
        ensures range { IsWallClock self }
    {
        let seconds = i128::from(duration.whole_seconds());
        self.moved(-seconds, -duration.subsec_nanoseconds())
    }

    /// The instant so much later, or `None` where the calendar does not have the day.
    pub fn checked_add_std(self, duration: Duration) -> Option<Timestamp>
        ensures some { IsSome result ↔ IsWallClock (self +ℤ pos (as_nanos duration)) }
        ensures value { IfSome result (λ m. m ≡ self +ℤ pos (as_nanos duration)) }
    {
        // The greatest duration already leads out of the calendar.
        self.checked_add(nearest_from_std(duration))
    }

    /// The instant so much earlier, or `None` where the calendar does not have the day.
    pub fn checked_sub_std(self, duration: Duration) -> Option<Timestamp>
        ensures some { IsSome result ↔ IsWallClock (self -ℤ pos (as_nanos duration)) }
        ensures value { IfSome result (λ m. m ≡ self -ℤ pos (as_nanos duration)) }
    {
        // The greatest duration already leads out of the calendar.
        self.checked_sub(nearest_from_std(duration))
    }

    /// The instant so much later, or the nearest one that the calendar has.
    pub fn saturating_add(self, duration: SignedDuration) -> Timestamp
        ensures { result ≡ nearest_wall_clock (self +ℤ duration) }
    {
        let Some(moved) = self.checked_add(duration) else {
            return Timestamp::end(duration.is_negative());
        };
        moved
    }

    /// The instant so much earlier, or the nearest one that the calendar has.
    pub fn saturating_sub(self, duration: SignedDuration) -> Timestamp
        ensures { result ≡ nearest_wall_clock (self -ℤ duration) }
    {
        let Some(moved) = self.checked_sub(duration) else {
            return Timestamp::end(duration.is_positive());
        };
        moved
    }
}

impl Add<SignedDuration> for Timestamp {
    type Output = Timestamp;

    ghost can_add = { λ a d. IsWallClock (a +ℤ d) };

    ghost add_gives = { λ a d r. r ≡ a +ℤ d };

    fn add(self, duration: SignedDuration) -> Timestamp {
        self.checked_add(duration).unwrap()
    }
}

impl AddAssign<SignedDuration> for Timestamp {
    ghost can_add_assign = { λ a d. IsWallClock (a +ℤ d) };

    ghost add_assign_gives = { λ a d r. r ≡ a +ℤ d };

    fn add_assign(&mut self, duration: SignedDuration) {
        *self = *self + duration;
    }
}

impl Sub<SignedDuration> for Timestamp {
    type Output = Timestamp;

    ghost can_sub = { λ a d. IsWallClock (a -ℤ d) };

    ghost sub_gives = { λ a d r. r ≡ a -ℤ d };

    fn sub(self, duration: SignedDuration) -> Timestamp {
        self.checked_sub(duration).unwrap()
    }
}

impl SubAssign<SignedDuration> for Timestamp {
    ghost can_sub_assign = { λ a d. IsWallClock (a -ℤ d) };

    ghost sub_assign_gives = { λ a d r. r ≡ a -ℤ d };

    fn sub_assign(&mut self, duration: SignedDuration) {
        *self = *self - duration;
    }
}

impl Add<Duration> for Timestamp {
    type Output = Timestamp;

    ghost can_add = { λ a d. IsWallClock (a +ℤ pos (as_nanos d)) };

    ghost add_gives = { λ a d r. r ≡ a +ℤ pos (as_nanos d) };

    fn add(self, duration: Duration) -> Timestamp {
        self.checked_add_std(duration).unwrap()
    }
}

impl AddAssign<Duration> for Timestamp {
    ghost can_add_assign = { λ a d. IsWallClock (a +ℤ pos (as_nanos d)) };

    ghost add_assign_gives = { λ a d r. r ≡ a +ℤ pos (as_nanos d) };

    fn add_assign(&mut self, duration: Duration) {
        *self = *self + duration;
    }
}

impl Sub<Duration> for Timestamp {
    type Output = Timestamp;

    ghost can_sub = { λ a d. IsWallClock (a -ℤ pos (as_nanos d)) };

    ghost sub_gives = { λ a d r. r ≡ a -ℤ pos (as_nanos d) };

    fn sub(self, duration: Duration) -> Timestamp {
        self.checked_sub_std(duration).unwrap()
    }
}

impl SubAssign<Duration> for Timestamp {
    ghost can_sub_assign = { λ a d. IsWallClock (a -ℤ pos (as_nanos d)) };

    ghost sub_assign_gives = { λ a d r. r ≡ a -ℤ pos (as_nanos d) };

    fn sub_assign(&mut self, duration: Duration) {
        *self = *self - duration;
    }
}

impl Sub for Timestamp {
    type Output = SignedDuration;

    ghost sub_gives = { λ a b r. r ≡ a -ℤ b };

    fn sub(self, other: Timestamp) -> SignedDuration {
        difference(self.parts(), other.parts())
    }
}

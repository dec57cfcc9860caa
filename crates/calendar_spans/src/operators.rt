//! The operators of durations among themselves, which ask that the result is a duration.
ghost use Rattle.std.specs.Prelude.{◌≡◌, neg_ℤ, ◌+ℤ◌, ◌-ℤ◌};
ghost use Rattle.calendar_spans.specs.Duration.{IsDuration};

use crate::duration::SignedDuration;
use std::ops::{Add, AddAssign, Neg, Sub, SubAssign};

impl Neg for SignedDuration {
    type Output = SignedDuration;

    ghost can_neg = { λ a. IsDuration (neg_ℤ a) };

    ghost neg_gives = { λ a r. r ≡ neg_ℤ a };

    fn neg(self) -> SignedDuration {
        self.checked_neg().unwrap()
    }
}

impl Add for SignedDuration {
    type Output = SignedDuration;

    ghost can_add = { λ a b. IsDuration (a +ℤ b) };

    ghost add_gives = { λ a b r. r ≡ a +ℤ b };

    fn add(self, other: SignedDuration) -> SignedDuration {
        self.checked_add(other).unwrap()
    }
}

impl AddAssign for SignedDuration {
    ghost can_add_assign = { λ a b. IsDuration (a +ℤ b) };

    ghost add_assign_gives = { λ a b r. r ≡ a +ℤ b };

    fn add_assign(&mut self, other: SignedDuration) {
        *self = *self + other;
    }
}

impl Sub for SignedDuration {
    type Output = SignedDuration;

    ghost can_sub = { λ a b. IsDuration (a -ℤ b) };

    ghost sub_gives = { λ a b r. r ≡ a -ℤ b };

    fn sub(self, other: SignedDuration) -> SignedDuration {
        self.checked_sub(other).unwrap()
    }
}

impl SubAssign for SignedDuration {
    ghost can_sub_assign = { λ a b. IsDuration (a -ℤ b) };

    ghost sub_assign_gives = { λ a b r. r ≡ a -ℤ b };

    fn sub_assign(&mut self, other: SignedDuration) {
        *self = *self - other;
    }
}

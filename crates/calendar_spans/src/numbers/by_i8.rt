//! Products with `i8` and quotients by it.
ghost use Rattle.std.specs.Prelude.{◌≡◌, ◌≢◌, pos, ◌*ℤ◌, int_div};
ghost use Rattle.calendar_spans.specs.Duration.{IsDuration};

use crate::duration::SignedDuration;
use std::ops::{Div, DivAssign, Mul, MulAssign};

impl Mul<i8> for SignedDuration {
    type Output = SignedDuration;

    ghost can_mul = { λ a b. IsDuration (a *ℤ b) };

    ghost mul_gives = { λ a b r. r ≡ a *ℤ b };

    fn mul(self, factor: i8) -> SignedDuration {
        self.times(i64::from(factor)).unwrap()
    }
}

impl Mul<SignedDuration> for i8 {
    type Output = SignedDuration;

    ghost can_mul = { λ b a. IsDuration (a *ℤ b) };

    ghost mul_gives = { λ b a r. r ≡ a *ℤ b };

    fn mul(self, duration: SignedDuration) -> SignedDuration {
        duration * self
    }
}

impl MulAssign<i8> for SignedDuration {
    ghost can_mul_assign = { λ a b. IsDuration (a *ℤ b) };

    ghost mul_assign_gives = { λ a b r. r ≡ a *ℤ b };

    fn mul_assign(&mut self, factor: i8) {
        *self = *self * factor;
    }
}

impl Div<i8> for SignedDuration {
    type Output = SignedDuration;

    ghost can_div = { λ a b. (b ≢ pos 0) × IsDuration (int_div a b) };

    ghost div_gives = { λ a b r. r ≡ int_div a b };

    fn div(self, divisor: i8) -> SignedDuration {
        self.over(i64::from(divisor)).unwrap()
    }
}

impl DivAssign<i8> for SignedDuration {
    ghost can_div_assign = { λ a b. (b ≢ pos 0) × IsDuration (int_div a b) };

    ghost div_assign_gives = { λ a b r. r ≡ int_div a b };

    fn div_assign(&mut self, divisor: i8) {
        *self = *self / divisor;
    }
}

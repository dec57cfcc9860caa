//! Products with `u16` and quotients by it.
ghost use Rattle.std.specs.Prelude.{◌≡◌, ◌≢◌, pos, ◌*ℤ◌, int_div};
ghost use Rattle.calendar_spans.specs.Duration.{IsDuration};

use crate::duration::SignedDuration;
use std::ops::{Div, DivAssign, Mul, MulAssign};

impl Mul<u16> for SignedDuration {
    type Output = SignedDuration;

    ghost can_mul = { λ a b. IsDuration (a *ℤ pos b) };

    ghost mul_gives = { λ a b r. r ≡ a *ℤ pos b };

    fn mul(self, factor: u16) -> SignedDuration {
        self.times(i64::from(factor)).unwrap()
    }
}

impl Mul<SignedDuration> for u16 {
    type Output = SignedDuration;

    ghost can_mul = { λ b a. IsDuration (a *ℤ pos b) };

    ghost mul_gives = { λ b a r. r ≡ a *ℤ pos b };

    fn mul(self, duration: SignedDuration) -> SignedDuration {
        duration * self
    }
}

impl MulAssign<u16> for SignedDuration {
    ghost can_mul_assign = { λ a b. IsDuration (a *ℤ pos b) };

    ghost mul_assign_gives = { λ a b r. r ≡ a *ℤ pos b };

    fn mul_assign(&mut self, factor: u16) {
        *self = *self * factor;
    }
}

impl Div<u16> for SignedDuration {
    type Output = SignedDuration;

    ghost can_div = { λ a b. b ≢ 0 };

    ghost div_gives = { λ a b r. r ≡ int_div a (pos b) };

    fn div(self, divisor: u16) -> SignedDuration {
        self.over(i64::from(divisor)).unwrap()
    }
}

impl DivAssign<u16> for SignedDuration {
    ghost can_div_assign = { λ a b. b ≢ 0 };

    ghost div_assign_gives = { λ a b r. r ≡ int_div a (pos b) };

    fn div_assign(&mut self, divisor: u16) {
        *self = *self / divisor;
    }
}

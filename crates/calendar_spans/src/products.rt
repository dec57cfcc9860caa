//! Products with numbers of up to 32 bits.
ghost use Rattle.std.specs.Prelude.{◌≡◌, ◌↔◌, ◌<◌, ◌^◌, ◌*ℤ◌, IsSome, IfSome, unsigned_abs};
ghost use Rattle.calendar_spans.specs.Duration.{IsDuration, nearest_duration};

use crate::duration::{SignedDuration, from_parts};

impl SignedDuration {
    // So many times the duration, or `None` where that is no duration.
    #[inline(always)]
    pub(crate) fn times(self, factor: i64) -> Option<SignedDuration>
        requires { unsigned_abs factor < 2 ^ 32 }
        ensures some { IsSome result ↔ IsDuration (self *ℤ factor) }
        ensures value { IfSome result (λ d. d ≡ self *ℤ factor) }
    {
        let (seconds, nanoseconds) = self.parts();
        from_parts(seconds * i128::from(factor), nanoseconds * factor)
    }

    /// So many times the duration, the other way where the factor is below zero, or `None` where that is no
    /// duration.
    #[inline(always)]
    pub fn checked_mul(self, factor: i32) -> Option<SignedDuration>
        ensures some { IsSome result ↔ IsDuration (self *ℤ factor) }
        ensures value { IfSome result (λ d. d ≡ self *ℤ factor) }
    {
        self.times(factor.into())
    }

    /// So many times the duration, or the nearest duration to it.
    #[inline(always)]
    pub fn saturating_mul(self, factor: i32) -> SignedDuration
        ensures value { result ≡ nearest_duration (self *ℤ factor) }
    {
        let Some(product) = self.checked_mul(factor) else {
            return SignedDuration::end(self.is_negative() != (factor < 0));
        };
        product
    }
}

//! Quotients by numbers of up to 32 bits, cut toward zero.
ghost use Rattle.std.specs.Prelude.{◌≡◌, ◌≢◌, ◌↔◌, ◌<◌, ◌≤◌, ◌^◌, pos, ◌+ℤ◌, ◌*ℤ◌, IsSome, IfSome, int_div, int_rem, unsigned_abs};
ghost use Rattle.calendar_spans.specs.Duration.{IsDuration, second_nanos};

use crate::duration::{LONG_NANOSECONDS_IN_SECOND, SignedDuration, from_parts};

// Seconds cut into so many parts, and what is left of them.
#[inline(always)]
fn cut_seconds(seconds: i128, divisor: i64) -> (i128, i64)
    requires seconds { unsigned_abs seconds ≤ 2 ^ 63 }
    requires nonzero { divisor ≢ pos 0 }
    requires small { unsigned_abs divisor < 2 ^ 32 }
    ensures quotient { result.0 ≡ int_div seconds divisor }
    ensures left { result.1 ≡ int_rem seconds divisor }
    ensures bound { (unsigned_abs result.0 ≤ 2 ^ 63) × (unsigned_abs result.1 < 2 ^ 32) }
{
    let divisor = i128::from(divisor);
    (seconds / divisor, (seconds % divisor) as i64)
}

// Seconds and nanoseconds together cut into so many parts: the nanoseconds of one.
#[inline(always)]
fn cut_nanoseconds(seconds: i64, nanoseconds: i64, divisor: i64) -> i64
    requires seconds { unsigned_abs seconds < 2 ^ 32 }
    requires nanoseconds { unsigned_abs nanoseconds ≤ 999_999_999 }
    requires nonzero { divisor ≢ pos 0 }
    ensures value { result ≡ int_div (seconds *ℤ pos second_nanos +ℤ nanoseconds) divisor }
{
    (seconds * LONG_NANOSECONDS_IN_SECOND + nanoseconds) / divisor
}

impl SignedDuration {
    // The duration cut into so many parts, or `None` where one part is no duration.
    #[inline(always)]
    pub(crate) fn over(self, divisor: i64) -> Option<SignedDuration>
        requires nonzero { divisor ≢ pos 0 }
        requires small { unsigned_abs divisor < 2 ^ 32 }
        ensures some { IsSome result ↔ IsDuration (int_div self divisor) }
        ensures value { IfSome result (λ d. d ≡ int_div self divisor) }
    {
        let (seconds, nanoseconds) = self.parts();
        let (quotient, left) = cut_seconds(seconds, divisor);
        from_parts(quotient, cut_nanoseconds(left, nanoseconds, divisor))
    }

    /// The duration divided by the number and cut toward zero, or `None` where the number is 0 or the
    /// quotient is no duration.
    #[inline(always)]
    pub fn checked_div(self, divisor: i32) -> Option<SignedDuration>
        ensures some { IsSome result ↔ ((divisor ≢ pos 0) × IsDuration (int_div self divisor)) }
        ensures value { IfSome result (λ d. d ≡ int_div self divisor) }
    {
        if divisor == 0 {
            return None;
        }
        self.over(i64::from(divisor))
    }
}

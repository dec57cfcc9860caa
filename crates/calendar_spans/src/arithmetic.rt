//! Sums and differences.
ghost use Rattle.std.specs.Prelude.{◌≡◌, ◌↔◌, ◌+ℤ◌, ◌-ℤ◌, neg_ℤ, IsSome, IfSome, if◌then◌else◌};
ghost use Rattle.calendar_spans.specs.Duration.{IsDuration, least_duration, greatest_duration, nearest_duration};

use crate::duration::{SignedDuration, from_parts};

impl SignedDuration {
    /// The sum, or `None` where it is no duration.
    #[inline(always)]
    pub fn checked_add(self, other: SignedDuration) -> Option<SignedDuration>
        ensures some { IsSome result ↔ IsDuration (self +ℤ other) }
        ensures value { IfSome result (λ d. d ≡ self +ℤ other) }
        ensures range { IsDuration self × IsDuration other }
    {
        let (seconds, nanoseconds) = self.parts();
        let (other_seconds, other_nanoseconds) = other.parts();
        from_parts(seconds + other_seconds, nanoseconds + other_nanoseconds)
    }

    /// The difference, or `None` where it is no duration.
    #[inline(always)]
    pub fn checked_sub(self, other: SignedDuration) -> Option<SignedDuration>
        ensures some { IsSome result ↔ IsDuration (self -ℤ other) }
        ensures value { IfSome result (λ d. d ≡ self -ℤ other) }
        ensures range { IsDuration self × IsDuration other }
    {
        let (seconds, nanoseconds) = self.parts();
        let (other_seconds, other_nanoseconds) = other.parts();
        from_parts(seconds - other_seconds, nanoseconds - other_nanoseconds)
    }

    /// The same length the other way, or `None` where that is no duration: its whole seconds are -2^63.
    #[inline(always)]
    pub fn checked_neg(self) -> Option<SignedDuration>
        ensures some { IsSome result ↔ IsDuration (neg_ℤ self) }
        ensures value { IfSome result (λ d. d ≡ neg_ℤ self) }
    {
        let (seconds, nanoseconds) = self.parts();
        from_parts(-seconds, -nanoseconds)
    }

    /// The sum, or the nearest duration to it.
    #[inline(always)]
    pub fn saturating_add(self, other: SignedDuration) -> SignedDuration
        ensures value { result ≡ nearest_duration (self +ℤ other) }
    {
        let Some(sum) = self.checked_add(other) else {
            return SignedDuration::end(self.is_negative());
        };
        sum
    }

    /// The difference, or the nearest duration to it.
    #[inline(always)]
    pub fn saturating_sub(self, other: SignedDuration) -> SignedDuration
        ensures value { result ≡ nearest_duration (self -ℤ other) }
    {
        let Some(difference) = self.checked_sub(other) else {
            return SignedDuration::end(other.is_positive());
        };
        difference
    }

    // The duration furthest back or furthest forward.
    #[inline(always)]
    #[tactic(auto, unfolding(crate::specs::DurationParts::duration_nanos))]
    pub(crate) fn end(is_back: bool) -> SignedDuration
        ensures value { result ≡ (if is_back then least_duration else greatest_duration) }
    {
        if is_back {
            SignedDuration::MIN
        } else {
            SignedDuration::MAX
        }
    }
}

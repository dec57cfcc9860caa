//! Durations with a sign, and those of std without one.
ghost use Rattle.std.specs.Prelude.{◌≡◌, ◌↔◌, pos, ◌≤ℤ◌, IsOk, IfOk};
ghost use Rattle.std.specs.Duration.{as_nanos};
ghost use Rattle.calendar_spans.specs.Duration.{IsDuration, nearest_duration};

use calendar_count::ConversionRange;
use calendar_spans::SignedDuration;
use std::time::Duration;

/// The same length forward, refused where its whole seconds do not fit 63 bits.
pub fn signed_from_std(duration: Duration) -> Result<SignedDuration, ConversionRange>
    ensures succeeds { IsOk result ↔ IsDuration (pos (as_nanos duration)) }
    ensures value { IfOk result (λ d. d ≡ pos (as_nanos duration)) }
{
    let Ok(seconds) = i64::try_from(duration.as_secs()) else {
        return Err(ConversionRange);
    };
    Ok(SignedDuration::new(seconds, duration.subsec_nanos() as i32))
}

/// The same length forward, or `SignedDuration::MAX` where it is longer.
pub fn nearest_from_std(duration: Duration) -> SignedDuration
    ensures { result ≡ nearest_duration (pos (as_nanos duration)) }
{
    let Ok(signed) = signed_from_std(duration) else {
        return SignedDuration::new(i64::MAX, 999_999_999);
    };
    signed
}

/// The same length, refused where it leads back.
pub fn std_from_signed(duration: SignedDuration) -> Result<Duration, ConversionRange>
    ensures succeeds { IsOk result ↔ (pos 0 ≤ℤ duration) }
    ensures value { IfOk result (λ d. pos (as_nanos d) ≡ duration) }
{
    if duration.is_negative() {
        return Err(ConversionRange);
    }
    Ok(duration.unsigned_abs())
}

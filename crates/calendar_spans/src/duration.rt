//! Lengths of time with a sign.
ghost use Rattle.std.specs.Prelude.{◌≡◌, ◌↔◌, ◌<◌, ◌≤◌, ◌^◌, pos, ◌+ℤ◌, ◌*ℤ◌, IsSome, IfSome, int_div, int_rem, unsigned_abs};
ghost use Rattle.calendar_spans.specs.Duration.{micro_nanos, milli_nanos, second_nanos, minute_nanos, hour_nanos, day_nanos, week_nanos, IsDuration};
ghost use Rattle.calendar_spans.specs.DurationParts.{IsParts};

use std::marker::Model;

const NANOSECONDS_IN_SECOND: i32 = 1_000_000_000;

pub(crate) const LONG_NANOSECONDS_IN_SECOND: i64 = 1_000_000_000;

const WIDE_NANOSECONDS_IN_SECOND: i128 = 1_000_000_000;

pub(crate) const SECONDS_IN_MINUTE: i64 = 60;

pub(crate) const SECONDS_IN_HOUR: i64 = 3600;

pub(crate) const SECONDS_IN_DAY: i64 = 86_400;

pub(crate) const SECONDS_IN_WEEK: i64 = 604_800;

/// A length of time to the nanosecond, below zero where it leads back, of at most 2^63 - 1 whole
/// seconds forward or 2^63 back. Its days have 24 hours and its weeks seven days.
///
/// It is printed by its parts that are not 0, as `1d2h3m4s5ms6µs7ns`, with `-` before them where it leads
/// back, and as `0s` where there is none.
///
/// A contract sees its nanoseconds.
#[derive(Clone, Copy)]
pub struct SignedDuration {
    seconds: i64,
    nanoseconds: i32,
}

impl Model for SignedDuration {
    ghost use Rattle.std.specs.Prelude.{ℤ, pos, int_div, int_rem};
    ghost use Rattle.calendar_spans.specs.Duration.{second_nanos};
    ghost use Rattle.calendar_spans.specs.DurationParts.{duration_nanos, IsParts, seconds_back, nanoseconds_back};

    ghost Value = { ℤ };

    ghost view = { λ d. duration_nanos d.seconds d.nanoseconds };

    ghost invariant = { λ d. IsParts d.seconds d.nanoseconds };

    ghost inverse = { λ z. record {
      seconds = int_div z (pos second_nanos);
      nanoseconds = int_rem z (pos second_nanos);
    } };

    ghost inverse_ok = { λ d h. Prim.rw
        (seconds_back d.seconds d.nanoseconds h, nanoseconds_back d.seconds d.nanoseconds h) };
}

// The same length as parts that do not differ in sign.
#[inline(always)]
fn one_sign(seconds: i128, nanoseconds: i32) -> (i128, i32)
    requires seconds { unsigned_abs seconds < 2 ^ 126 }
    requires nanoseconds { unsigned_abs nanoseconds ≤ 999_999_999 }
    ensures whole { result.0 *ℤ pos second_nanos +ℤ result.1
        ≡ seconds *ℤ pos second_nanos +ℤ nanoseconds }
    ensures parts { IsParts result.0 result.1 }
{
    if seconds > 0 && nanoseconds < 0 {
        (seconds - 1, nanoseconds + NANOSECONDS_IN_SECOND)
    } else if seconds < 0 && nanoseconds > 0 {
        (seconds + 1, nanoseconds - NANOSECONDS_IN_SECOND)
    } else {
        (seconds, nanoseconds)
    }
}

// The duration of these seconds and nanoseconds together, if there is one.
#[inline(always)]
#[tactic(auto, unfolding(crate::specs::DurationParts::duration_nanos))]
pub(crate) fn from_parts(seconds: i128, nanoseconds: i64) -> Option<SignedDuration>
    requires { unsigned_abs seconds < 2 ^ 125 }
    ensures some { IsSome result ↔ IsDuration (seconds *ℤ pos second_nanos +ℤ nanoseconds) }
    ensures value { IfSome result (λ d. d ≡ seconds *ℤ pos second_nanos +ℤ nanoseconds) }
{
    let carry = i128::from(nanoseconds / LONG_NANOSECONDS_IN_SECOND);
    let rest = (nanoseconds % LONG_NANOSECONDS_IN_SECOND) as i32;
    let (whole_seconds, nanoseconds) = one_sign(seconds + carry, rest);
    let Ok(seconds) = i64::try_from(whole_seconds) else {
        return None;
    };
    Some(SignedDuration {
        seconds,
        nanoseconds,
    })
}

// The duration of these parts, which do not differ in sign.
#[inline(always)]
#[tactic(auto, unfolding(crate::specs::DurationParts::duration_nanos))]
fn one_signed(seconds: i64, nanoseconds: i32) -> SignedDuration
    requires { IsParts seconds nanoseconds }
    ensures value { result ≡ seconds *ℤ pos second_nanos +ℤ nanoseconds }
{
    SignedDuration {
        seconds,
        nanoseconds,
    }
}

impl SignedDuration {
    // The whole seconds, and the nanoseconds past them, which have the same sign.
    #[inline(always)]
    pub(crate) fn parts(self) -> (i128, i64)
        ensures whole { self ≡ result.0 *ℤ pos second_nanos +ℤ result.1 }
        ensures parts { IsParts result.0 result.1 }
        ensures bound { (unsigned_abs result.0 ≤ 2 ^ 63) × (unsigned_abs result.1 ≤ 999_999_999) }
    {
        (i128::from(self.seconds), i64::from(self.nanoseconds))
    }

    /// No time at all.
    pub const ZERO: SignedDuration = SignedDuration {
        seconds: 0,
        nanoseconds: 0,
    };

    /// One nanosecond.
    pub const NANOSECOND: SignedDuration = SignedDuration {
        seconds: 0,
        nanoseconds: 1,
    };

    /// One microsecond.
    pub const MICROSECOND: SignedDuration = SignedDuration {
        seconds: 0,
        nanoseconds: 1000,
    };

    /// One millisecond.
    pub const MILLISECOND: SignedDuration = SignedDuration {
        seconds: 0,
        nanoseconds: 1_000_000,
    };

    /// One second.
    pub const SECOND: SignedDuration = SignedDuration {
        seconds: 1,
        nanoseconds: 0,
    };

    /// One minute.
    pub const MINUTE: SignedDuration = SignedDuration {
        seconds: 60,
        nanoseconds: 0,
    };

    /// One hour.
    pub const HOUR: SignedDuration = SignedDuration {
        seconds: 3600,
        nanoseconds: 0,
    };

    /// One day of 24 hours.
    pub const DAY: SignedDuration = SignedDuration {
        seconds: 86_400,
        nanoseconds: 0,
    };

    /// One week of seven days.
    pub const WEEK: SignedDuration = SignedDuration {
        seconds: 604_800,
        nanoseconds: 0,
    };

    /// The duration furthest back: 2^63 seconds and 999,999,999 nanoseconds below zero.
    pub const MIN: SignedDuration = SignedDuration {
        seconds: i64::MIN,
        nanoseconds: -999_999_999,
    };

    /// The duration furthest forward: 2^63 - 1 seconds and 999,999,999 nanoseconds.
    pub const MAX: SignedDuration = SignedDuration {
        seconds: i64::MAX,
        nanoseconds: 999_999_999,
    };

    /// So many seconds and nanoseconds together, which may differ in sign.
    ///
    /// The sum must be a duration: the seconds and the whole seconds in the nanoseconds, cut toward
    /// zero, together fit 64 bits.
    #[inline(always)]
    pub fn new(seconds: i64, nanoseconds: i32) -> SignedDuration
        requires { IsDuration (seconds *ℤ pos second_nanos +ℤ nanoseconds) }
        ensures value { result ≡ seconds *ℤ pos second_nanos +ℤ nanoseconds }
    {
        from_parts(i128::from(seconds), i64::from(nanoseconds)).unwrap()
    }

    /// So many milliseconds, back where they are below zero. Any number is a duration.
    #[inline(always)]
    pub fn milliseconds(milliseconds: i64) -> SignedDuration
        ensures value { result ≡ milliseconds *ℤ pos milli_nanos }
    {
        one_signed(
            milliseconds / 1000,
            (milliseconds % 1000) as i32 * 1_000_000,
        )
    }

    /// So many microseconds, back where they are below zero. Any number is a duration.
    #[inline(always)]
    pub fn microseconds(microseconds: i64) -> SignedDuration
        ensures value { result ≡ microseconds *ℤ pos micro_nanos }
    {
        one_signed(
            microseconds / 1_000_000,
            (microseconds % 1_000_000) as i32 * 1000,
        )
    }

    /// So many nanoseconds, back where they are below zero. Any number is a duration.
    #[inline(always)]
    pub fn nanoseconds(nanoseconds: i64) -> SignedDuration
        ensures value { result ≡ nanoseconds }
    {
        one_signed(
            nanoseconds / LONG_NANOSECONDS_IN_SECOND,
            (nanoseconds % LONG_NANOSECONDS_IN_SECOND) as i32,
        )
    }

    /// So many nanoseconds, which must be a duration: their whole seconds fit 64 bits.
    #[inline(always)]
    pub fn nanoseconds_i128(nanoseconds: i128) -> SignedDuration
        requires { IsDuration nanoseconds }
        ensures value { result ≡ nanoseconds }
    {
        one_signed(
            (nanoseconds / WIDE_NANOSECONDS_IN_SECOND) as i64,
            (nanoseconds % WIDE_NANOSECONDS_IN_SECOND) as i32,
        )
    }

    /// So many weeks of seven days, which must be a duration: within ±15,250,284,452,471.
    #[inline(always)]
    pub fn weeks(weeks: i64) -> SignedDuration
        requires { IsDuration (weeks *ℤ pos week_nanos) }
        ensures value { result ≡ weeks *ℤ pos week_nanos }
    {
        SignedDuration::seconds(weeks * SECONDS_IN_WEEK)
    }

    /// So many hours, which must be a duration: within ±2,562,047,788,015,215.
    #[inline(always)]
    pub fn hours(hours: i64) -> SignedDuration
        requires { IsDuration (hours *ℤ pos hour_nanos) }
        ensures value { result ≡ hours *ℤ pos hour_nanos }
    {
        SignedDuration::seconds(hours * SECONDS_IN_HOUR)
    }

    /// So many minutes, which must be a duration: within ±153,722,867,280,912,930.
    #[inline(always)]
    pub fn minutes(minutes: i64) -> SignedDuration
        requires { IsDuration (minutes *ℤ pos minute_nanos) }
        ensures value { result ≡ minutes *ℤ pos minute_nanos }
    {
        SignedDuration::seconds(minutes * SECONDS_IN_MINUTE)
    }

    /// So many days of 24 hours, which must be a duration: within ±106,751,991,167,300.
    #[inline(always)]
    pub fn days(days: i64) -> SignedDuration
        requires { IsDuration (days *ℤ pos day_nanos) }
        ensures value { result ≡ days *ℤ pos day_nanos }
    {
        SignedDuration::seconds(days * SECONDS_IN_DAY)
    }

    /// So many seconds, back where they are below zero. Any number is a duration.
    #[inline(always)]
    #[tactic(auto, unfolding(crate::specs::DurationParts::duration_nanos))]
    pub fn seconds(seconds: i64) -> SignedDuration
        ensures value { result ≡ seconds *ℤ pos second_nanos }
    {
        SignedDuration {
            seconds,
            nanoseconds: 0,
        }
    }

    /// The whole seconds, cut toward zero.
    #[inline(always)]
    pub fn whole_seconds(self) -> i64
        ensures value { result ≡ int_div self (pos second_nanos) }
        ensures bound { unsigned_abs result ≤ 9_223_372_036_854_775_808 }
    {
        self.seconds
    }

    /// All of it in nanoseconds.
    #[inline(always)]
    pub fn whole_nanoseconds(self) -> i128
        ensures value { result ≡ self }
        ensures bound { IsDuration result }
    {
        let (seconds, nanoseconds) = self.parts();
        seconds * WIDE_NANOSECONDS_IN_SECOND + i128::from(nanoseconds)
    }

    /// The nanoseconds past the whole seconds, cut toward zero, within ±999,999,999.
    #[inline(always)]
    pub fn subsec_nanoseconds(self) -> i32
        ensures value { result ≡ int_rem self (pos second_nanos) }
        ensures bound { unsigned_abs result ≤ 999_999_999 }
    {
        self.nanoseconds
    }
}

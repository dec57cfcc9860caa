//! Offsets from UTC.
ghost use Rattle.std.specs.Prelude.{◌≡◌, ◌↔◌, ◌≤◌, ℤ, pos, neg_ℤ, ◌<ℤ◌, IfOk, IsTrue, int_div, int_rem, unsigned_abs};
ghost use Rattle.std.proofs.Common.{rules};
ghost use Rattle.std.specs.Cmp.{partial_order_from_own_ties};
ghost use Rattle.std.specs.Cmp.Rules.{comparing, hashing};
ghost use Rattle.std.specs.Ordering.{int_eq, int_cmp, as_partial_cmp};
ghost use Rattle.std.specs.Hash as fed;
ghost use Rattle.calendar_clock.specs.UtcOffset.{IsOffset, with_sign_of, offset_seconds, offset_of, offset_of_seconds};

use calendar_count::{ComponentName, ComponentRange};
use std::cmp::Ordering;
use std::hash::{Hash, Hasher};
use std::marker::Model;
use std::ops::Neg;

const GREATEST_OFFSET: u32 = 93_599;

// A part with the sign of a coarser one, unless that one is 0.
#[inline(always)]
fn with_sign_of(coarser: i8, finer: i8) -> i8
    requires { unsigned_abs finer ≤ 59 }
    ensures value { result ≡ with_sign_of coarser finer }
    ensures bound { unsigned_abs result ≤ 59 }
{
    if coarser > 0 {
        finer.abs()
    } else if coarser < 0 {
        -finer.abs()
    } else {
        finer
    }
}

// The seconds of an offset by its parts.
#[inline(always)]
fn seconds_of_parts(hours: i8, minutes: i8, seconds: i8) -> i32
    requires hours { unsigned_abs hours ≤ 25 }
    requires minutes { unsigned_abs minutes ≤ 59 }
    requires seconds { unsigned_abs seconds ≤ 59 }
    ensures value { result ≡ offset_seconds hours minutes seconds }
    ensures bound { IsOffset result }
{
    let seconds = with_sign_of(hours, with_sign_of(minutes, seconds));
    let minutes = with_sign_of(hours, minutes);
    hours as i32 * 3600 + minutes as i32 * 60 + seconds as i32
}

/// An offset from UTC of at most 25:59:59 either way, positive where local time is ahead of UTC (RFC
/// 3339 section 4.2). It is printed as `+05:30:00` or `-00:00:01`.
///
/// A contract sees its seconds.
#[derive(Clone, Copy)]
pub struct UtcOffset {
    seconds: i32,
}

impl Model for UtcOffset {
    ghost use Rattle.std.specs.Prelude.{ℤ};
    ghost use Rattle.calendar_clock.specs.UtcOffset.{IsOffset};

    ghost Value = { ℤ };

    ghost view = { λ o. o.seconds };

    ghost invariant = { λ o. IsOffset o.seconds };

    ghost inverse = { λ z. record { seconds = z } };
}

impl UtcOffset {
    /// The offset of UTC itself.
    pub const UTC: UtcOffset = UtcOffset { seconds: 0 };

    /// The offset of these hours within ±25, and minutes and seconds within ±59; else the coarsest
    /// part that is out of range is refused.
    ///
    /// A part takes the sign of the coarser parts, unless they are 0: 1, -30, 0 is half past one.
    #[inline(always)]
    #[tactic(auto, unfolding(crate::specs::UtcOffset::offset_of))]
    pub fn from_hms(hours: i8, minutes: i8, seconds: i8) -> Result<UtcOffset, ComponentRange>
        ensures value { result ≡ offset_of hours minutes seconds }
        ensures bound { IfOk result IsOffset }
    {
        if hours.unsigned_abs() > 25 {
            return Err(ComponentRange::unconditional(ComponentName::Hours));
        }
        if minutes.unsigned_abs() > 59 {
            return Err(ComponentRange::unconditional(ComponentName::Minutes));
        }
        if seconds.unsigned_abs() > 59 {
            return Err(ComponentRange::unconditional(ComponentName::Seconds));
        }
        Ok(UtcOffset {
            seconds: seconds_of_parts(hours, minutes, seconds),
        })
    }

    /// The offset of so many seconds, refused beyond ±93,599 as `seconds`.
    #[inline(always)]
    #[tactic(auto, unfolding(crate::specs::UtcOffset::offset_of_seconds))]
    pub fn from_whole_seconds(seconds: i32) -> Result<UtcOffset, ComponentRange>
        ensures value { result ≡ offset_of_seconds seconds }
        ensures bound { IfOk result IsOffset }
    {
        if seconds.unsigned_abs() > GREATEST_OFFSET {
            return Err(ComponentRange::unconditional(ComponentName::Seconds));
        }
        Ok(UtcOffset { seconds })
    }

    /// The seconds, within ±93,599.
    #[inline(always)]
    pub fn whole_seconds(self) -> i32
        ensures value { result ≡ self }
        ensures bound { IsOffset result }
    {
        self.seconds
    }

    /// The hours, cut toward zero, within ±25.
    pub fn whole_hours(self) -> i8
        ensures value { result ≡ int_div self (pos 3600) }
        ensures bound { unsigned_abs result ≤ 25 }
    {
        (self.seconds / 3600) as i8
    }

    /// The minutes, cut toward zero, within ±1559.
    pub fn whole_minutes(self) -> i16
        ensures value { result ≡ int_div self (pos 60) }
        ensures bound { unsigned_abs result ≤ 1559 }
    {
        (self.seconds / 60) as i16
    }

    /// The minutes past the whole hours, within ±59.
    pub fn minutes_past_hour(self) -> i8
        ensures value { result ≡ int_rem (int_div self (pos 60)) (pos 60) }
        ensures bound { unsigned_abs result ≤ 59 }
    {
        (self.whole_minutes() % 60) as i8
    }

    /// The seconds past the whole minutes, within ±59.
    pub fn seconds_past_minute(self) -> i8
        ensures value { result ≡ int_rem self (pos 60) }
        ensures bound { unsigned_abs result ≤ 59 }
    {
        (self.seconds % 60) as i8
    }

    /// The hours, the minutes past them and the seconds past those: below zero, or 0, where the offset is
    /// behind UTC.
    pub fn as_hms(self) -> (i8, i8, i8)
        ensures hours { result.0 ≡ int_div self (pos 3600) }
        ensures minutes { result.1 ≡ int_rem (int_div self (pos 60)) (pos 60) }
        ensures seconds { result.2 ≡ int_rem self (pos 60) }
        ensures bound { (unsigned_abs result.0 ≤ 25) × (unsigned_abs result.1 ≤ 59)
            × (unsigned_abs result.2 ≤ 59) }
    {
        let minutes = self.minutes_past_hour();
        (self.whole_hours(), minutes, self.seconds_past_minute())
    }

    /// Whether it is the offset of UTC itself.
    pub fn is_utc(self) -> bool
        ensures { IsTrue result ↔ (self ≡ pos 0) }
    {
        self == UtcOffset::UTC
    }

    /// Whether local time is ahead of UTC.
    pub fn is_positive(self) -> bool
        ensures { IsTrue result ↔ (pos 0 <ℤ self) }
    {
        self.whole_seconds() > 0
    }

    /// Whether local time is behind UTC.
    pub fn is_negative(self) -> bool
        ensures { IsTrue result ↔ (self <ℤ pos 0) }
    {
        self.whole_seconds() < 0
    }
}

impl Neg for UtcOffset {
    type Output = UtcOffset;

    ghost neg_gives = { λ o r. r ≡ neg_ℤ o };

    fn neg(self) -> UtcOffset {
        UtcOffset {
            seconds: -self.seconds,
        }
    }
}

impl PartialEq for UtcOffset {
    ghost eq = { int_eq };

    ghost laws = { Prim.search (comparing, rules) };

    fn eq(&self, other: &UtcOffset) -> bool {
        self.whole_seconds() == other.whole_seconds()
    }
}

impl Eq for UtcOffset {
    ghost laws = { Prim.search (comparing, rules) };
}

impl Ord for UtcOffset {
    ghost cmp = { int_cmp };

    ghost total = { Prim.search (comparing, rules) };

    ghost matches_partial_cmp = { Prim.search (comparing, rules) };

    ghost matches_eq = { Prim.search (comparing, rules) };

    fn cmp(&self, other: &UtcOffset) -> Ordering {
        self.whole_seconds().cmp(&other.whole_seconds())
    }
}

impl PartialOrd for UtcOffset {
    ghost partial_cmp = { as_partial_cmp int_cmp };

    ghost laws = { partial_order_from_own_ties (Prim.search (comparing, rules))
        (Prim.search (comparing, rules)) };

    fn partial_cmp(&self, other: &UtcOffset) -> Option<Ordering> {
        Some(self.cmp(other))
    }
}

impl Hash for UtcOffset {
    ghost hash_input = { λ o. fed.i32 o };

    ghost respects_eq = { Prim.search (hashing, rules) };

    fn hash<H: Hasher>(&self, state: &mut H) {
        self.whole_seconds().hash(state);
    }
}

//! An instant counted from 1970 beside one in UTC and one at an offset: order and durations.
ghost use Rattle.std.specs.Prelude.{◌≡◌, ◌↔◌, IsTrue};
ghost use Rattle.std.specs.Ordering.{int_cmp};
ghost use Rattle.datetime_wall.specs.Wall.{instant};

use crate::difference::difference;
use crate::{OffsetDateTime, Timestamp, UtcDateTime};
use calendar::SignedDuration;
use std::cmp::Ordering;
use std::ops::Sub;

impl Timestamp {
    /// Whether both are one instant.
    pub fn eq_utc(self, other: UtcDateTime) -> bool
        ensures { IsTrue result ↔ (self ≡ other) }
    {
        self.as_nanoseconds() == other.unix_timestamp_nanos()
    }

    /// Which instant comes first.
    pub fn cmp_utc(self, other: UtcDateTime) -> Ordering
        ensures { result ≡ int_cmp self other }
    {
        self.as_nanoseconds().cmp(&other.unix_timestamp_nanos())
    }

    /// Whether both are one instant.
    pub fn eq_offset(self, other: OffsetDateTime) -> bool
        ensures { IsTrue result ↔ (self ≡ instant other) }
    {
        other.unix_timestamp_nanos() == self.as_nanoseconds()
    }

    /// Which instant comes first.
    pub fn cmp_offset(self, other: OffsetDateTime) -> Ordering
        ensures { result ≡ int_cmp self (instant other) }
    {
        let instant = other.unix_timestamp_nanos();
        self.as_nanoseconds().cmp(&instant)
    }
}

impl Sub<UtcDateTime> for Timestamp {
    ghost use Rattle.std.specs.Prelude.{◌≡◌, ◌-ℤ◌};

    type Output = SignedDuration;

    ghost sub_gives = { λ a b r. r ≡ a -ℤ b };

    fn sub(self, other: UtcDateTime) -> SignedDuration {
        difference(self.parts(), other.parts())
    }
}

impl Sub<OffsetDateTime> for Timestamp {
    ghost use Rattle.std.specs.Prelude.{◌≡◌, ◌-ℤ◌};
    ghost use Rattle.datetime_wall.specs.Wall.{instant};

    type Output = SignedDuration;

    ghost sub_gives = { λ a b r. r ≡ a -ℤ instant b };

    fn sub(self, other: OffsetDateTime) -> SignedDuration {
        difference(self.parts(), other.parts())
    }
}

//! An instant in UTC beside one at an offset and beside a count from 1970: order and durations.
ghost use Rattle.std.specs.Prelude.{◌≡◌, ◌↔◌, IsTrue};
ghost use Rattle.std.specs.Ordering.{int_cmp};
ghost use Rattle.datetime_wall.specs.Wall.{instant};

use crate::difference::difference;
use crate::{OffsetDateTime, Timestamp, UtcDateTime};
use calendar::SignedDuration;
use std::cmp::Ordering;
use std::ops::Sub;

impl UtcDateTime {
    /// Whether both are one instant.
    pub fn eq_offset(self, other: OffsetDateTime) -> bool
        ensures { IsTrue result ↔ (self ≡ instant other) }
    {
        self.unix_timestamp_nanos() == other.unix_timestamp_nanos()
    }

    /// Which instant comes first.
    pub fn cmp_offset(self, other: OffsetDateTime) -> Ordering
        ensures { result ≡ int_cmp self (instant other) }
    {
        self.unix_timestamp_nanos()
            .cmp(&other.unix_timestamp_nanos())
    }

    /// Whether both are one instant.
    pub fn eq_timestamp(self, other: Timestamp) -> bool
        ensures { IsTrue result ↔ (self ≡ other) }
    {
        self.unix_timestamp_nanos() == other.as_nanoseconds()
    }

    /// Which instant comes first.
    pub fn cmp_timestamp(self, other: Timestamp) -> Ordering
        ensures { result ≡ int_cmp self other }
    {
        self.unix_timestamp_nanos().cmp(&other.as_nanoseconds())
    }
}

impl Sub<OffsetDateTime> for UtcDateTime {
    ghost use Rattle.std.specs.Prelude.{◌≡◌, ◌-ℤ◌};
    ghost use Rattle.datetime_wall.specs.Wall.{instant};

    type Output = SignedDuration;

    ghost sub_gives = { λ a b r. r ≡ a -ℤ instant b };

    fn sub(self, other: OffsetDateTime) -> SignedDuration {
        difference(self.parts(), other.parts())
    }
}

impl Sub<Timestamp> for UtcDateTime {
    ghost use Rattle.std.specs.Prelude.{◌≡◌, ◌-ℤ◌};

    type Output = SignedDuration;

    ghost sub_gives = { λ a b r. r ≡ a -ℤ b };

    fn sub(self, other: Timestamp) -> SignedDuration {
        difference(self.parts(), other.parts())
    }
}

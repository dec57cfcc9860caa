//! An instant at an offset beside one in UTC and beside a count from 1970: order and durations.
ghost use Rattle.std.specs.Prelude.{◌≡◌, ◌↔◌, IsTrue};
ghost use Rattle.std.specs.Ordering.{int_cmp};
ghost use Rattle.datetime_wall.specs.Wall.{instant};

use crate::difference::difference;
use crate::{OffsetDateTime, Timestamp, UtcDateTime};
use calendar::SignedDuration;
use std::cmp::Ordering;
use std::ops::Sub;

impl OffsetDateTime {
    /// Whether both are one instant.
    pub fn eq_utc(self, other: UtcDateTime) -> bool
        ensures { IsTrue result ↔ (instant self ≡ other) }
    {
        self.unix_timestamp_nanos() == other.unix_timestamp_nanos()
    }

    /// Which instant comes first.
    pub fn cmp_utc(self, other: UtcDateTime) -> Ordering
        ensures { result ≡ int_cmp (instant self) other }
    {
        self.unix_timestamp_nanos()
            .cmp(&other.unix_timestamp_nanos())
    }

    /// Whether both are one instant.
    pub fn eq_timestamp(self, other: Timestamp) -> bool
        ensures { IsTrue result ↔ (instant self ≡ other) }
    {
        self.unix_timestamp_nanos() == other.as_nanoseconds()
    }

    /// Which instant comes first.
    pub fn cmp_timestamp(self, other: Timestamp) -> Ordering
        ensures { result ≡ int_cmp (instant self) other }
    {
        self.unix_timestamp_nanos().cmp(&other.as_nanoseconds())
    }
}

impl Sub<UtcDateTime> for OffsetDateTime {
    ghost use Rattle.std.specs.Prelude.{◌≡◌, ◌-ℤ◌};
    ghost use Rattle.datetime_wall.specs.Wall.{instant};

    type Output = SignedDuration;

    ghost sub_gives = { λ a b r. r ≡ instant a -ℤ b };

    fn sub(self, other: UtcDateTime) -> SignedDuration {
        difference(self.parts(), other.parts())
    }
}

impl Sub<Timestamp> for OffsetDateTime {
    ghost use Rattle.std.specs.Prelude.{◌≡◌, ◌-ℤ◌};
    ghost use Rattle.datetime_wall.specs.Wall.{instant};

    type Output = SignedDuration;

    ghost sub_gives = { λ a b r. r ≡ instant a -ℤ b };

    fn sub(self, other: Timestamp) -> SignedDuration {
        difference(self.parts(), other.parts())
    }
}

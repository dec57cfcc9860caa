//! Instants of different types: conversions that always succeed, comparisons, durations between them.

mod offset_date_time;
mod timestamp;
mod utc_date_time;

use crate::{OffsetDateTime, Timestamp, UtcDateTime};
use calendar::UtcOffset;

impl From<Timestamp> for UtcDateTime {
    ghost use Rattle.std.specs.Prelude.{◌≡◌};

    ghost from_gives = { λ t r. r ≡ t };

    fn from(timestamp: Timestamp) -> UtcDateTime {
        timestamp.to_utc()
    }
}

impl From<UtcDateTime> for Timestamp {
    ghost use Rattle.std.specs.Prelude.{◌≡◌};

    ghost from_gives = { λ t r. r ≡ t };

    fn from(utc: UtcDateTime) -> Timestamp {
        Timestamp::from_utc(utc)
    }
}

impl From<UtcDateTime> for OffsetDateTime {
    ghost use Rattle.std.specs.Prelude.{◌≡◌, pos};

    ghost from_gives = { λ t m. m ≡ record { wall = t; offset = pos 0 } };

    fn from(utc: UtcDateTime) -> OffsetDateTime {
        OffsetDateTime::from_wall(utc.wall(), UtcOffset::UTC)
    }
}

impl From<Timestamp> for OffsetDateTime {
    ghost use Rattle.std.specs.Prelude.{◌≡◌, pos};

    ghost from_gives = { λ t m. m ≡ record { wall = t; offset = pos 0 } };

    fn from(timestamp: Timestamp) -> OffsetDateTime {
        timestamp.to_utc().into()
    }
}

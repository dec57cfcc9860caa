//! Dates and times of day in UTC.
ghost use Rattle.std.specs.Prelude.{◌≡◌, ◌<◌, ◌↔◌, IsOk, IfOk, IfErr, IsSome, IfSome, Some, ℤ, pos, ◌≤◌, ◌+ℤ◌, ◌*ℤ◌, unsigned_abs};
ghost use Rattle.std.specs.Int.{int_div_euclid};
ghost use Rattle.std.proofs.Common.{rules};
ghost use Rattle.std.specs.Cmp.{partial_order_from_own_ties};
ghost use Rattle.std.specs.Cmp.Rules.{comparing, hashing};
ghost use Rattle.std.specs.Ordering.{int_eq, int_cmp, as_partial_cmp};
ghost use Rattle.std.specs.Hash as fed;
ghost use Rattle.calendar.specs.Range.{IsCount};
ghost use Rattle.calendar.specs.UtcOffset.{IsOffset};
ghost use Rattle.calendar.specs.ComponentRange.{out_of_range};
ghost use Rattle.calendar_count.specs.declared.component_range.ComponentName.TheVariants as component;
ghost use Rattle.datetime_wall.specs.Wall.{second_nanos, greatest_distance, day_nanos, wall_clock, day_of, nanosecond_of, IsWallClock, shown_at};
ghost use Rattle.datetime_wall.specs.Seconds.{IsUnixSecond};

mod arithmetic;
mod views;

use crate::{OffsetDateTime, PlainDateTime, Timestamp, WallClock};
use calendar::{ComponentRange, Date, Time, UtcOffset};
use calendar_count::padding;
use datetime_wall::wall;
use std::cmp::Ordering;
use std::fmt;
use std::hash::{Hash, Hasher};
use std::marker::Model;

/// A date and a time of day in UTC. It is printed as `2024-06-19 7:05:00.25 +00`.
///
/// A contract sees the instant: the nanoseconds since 1970 began in UTC, which are also the wall
/// clock there.
#[derive(Clone, Copy)]
pub struct UtcDateTime {
    wall: PlainDateTime,
}

impl Model for UtcDateTime {
    ghost use Rattle.std.specs.Prelude.{ℤ};
    ghost use Rattle.datetime_wall.specs.Wall.{IsWallClock};

    ghost Value = { ℤ };

    ghost view = { λ s. s.wall };

    ghost invariant = { λ s. IsWallClock s.wall };

    ghost inverse = { λ w. record { wall = w } };
}

impl UtcDateTime {
    /// 1970-01-01 0:00.
    pub const UNIX_EPOCH: UtcDateTime = UtcDateTime {
        wall: PlainDateTime::UNIX_EPOCH,
    };

    /// The first moment of the first day, -999999-01-01 0:00.
    pub const MIN: UtcDateTime = UtcDateTime {
        wall: PlainDateTime::MIN,
    };

    /// The last moment of the last day, 999999-12-31 23:59:59.999999999.
    pub const MAX: UtcDateTime = UtcDateTime {
        wall: PlainDateTime::MAX,
    };

    /// The moment of the date and the time of day in UTC.
    #[inline(always)]
    pub fn new(date: Date, time: Time) -> UtcDateTime
        ensures value { result ≡ wall_clock date time }
        ensures range { IsWallClock result }
        ensures date { day_of result ≡ date }
        ensures time { nanosecond_of result ≡ time }
    {
        UtcDateTime {
            wall: PlainDateTime::new(date, time),
        }
    }

    /// The date.
    #[inline(always)]
    pub fn date(self) -> Date
        ensures value { result ≡ day_of self }
        ensures bound { IsCount result }
        ensures range { IsWallClock self }
    {
        self.wall.date()
    }

    /// The time of day.
    #[inline(always)]
    pub fn time(self) -> Time
        ensures value { result ≡ nanosecond_of self }
        ensures bound { result < day_nanos }
        ensures range { IsWallClock self }
    {
        self.wall.time()
    }

    /// The date at the time of a wall clock in UTC.
    #[inline(always)]
    pub(crate) fn from_wall(wall: PlainDateTime) -> UtcDateTime
        ensures value { result ≡ wall }
    {
        // The range comes with this call.
        let _ = wall.date();
        UtcDateTime { wall }
    }

    /// The wall clock in UTC.
    #[inline(always)]
    pub(crate) fn wall(self) -> PlainDateTime
        ensures value { result ≡ self }
        ensures range { IsWallClock self }
    {
        self.wall
    }

    /// So many seconds after 1970 began, or before it where they are below zero; refused as
    /// `timestamp` where the calendar does not have the day.
    #[inline(always)]
    pub fn from_unix_timestamp(timestamp: i64) -> Result<UtcDateTime, ComponentRange>
        ensures succeeds { IsOk result ↔ IsWallClock (timestamp *ℤ pos second_nanos) }
        ensures value { IfOk result (λ t. t ≡ timestamp *ℤ pos second_nanos) }
        ensures err { IfErr result (λ e. e ≡ out_of_range component.Timestamp) }
    {
        Ok(Timestamp::from_seconds(timestamp)?.to_utc())
    }

    /// So many nanoseconds after 1970 began, refused as `timestamp` where the calendar does not
    /// have the day.
    #[inline(always)]
    pub fn from_unix_timestamp_nanos(timestamp: i128) -> Result<UtcDateTime, ComponentRange>
        ensures succeeds { IsOk result ↔ IsWallClock timestamp }
        ensures value { IfOk result (λ t. t ≡ timestamp) }
        ensures err { IfErr result (λ e. e ≡ out_of_range component.Timestamp) }
    {
        Ok(Timestamp::from_nanoseconds(timestamp)?.to_utc())
    }

    /// The whole seconds since 1970 began, rounded down.
    #[inline(always)]
    pub fn unix_timestamp(self) -> i64
        ensures value { result ≡ int_div_euclid self (pos second_nanos) }
        ensures bound { IsUnixSecond result }
    {
        wall::unix_seconds(self.date(), self.time())
    }

    /// The same instant at an offset, or `None` where the calendar does not have the date there.
    #[inline(always)]
    pub fn checked_to_offset(self, offset: UtcOffset) -> Option<OffsetDateTime>
        ensures value { result ≡ shown_at offset self }
        ensures range { IfSome result (λ m. IsWallClock m.wall × IsOffset m.offset) }
    {
        let wall = self.wall.moved_by_seconds(offset.whole_seconds())?;
        Some(OffsetDateTime::from_wall(wall, offset))
    }

    /// The same instant at an offset, where the calendar has the date there: `checked_to_offset` is
    /// the test.
    #[inline(always)]
    pub fn to_offset(self, offset: UtcOffset) -> OffsetDateTime
        requires { IsSome (shown_at offset self) }
        ensures { shown_at offset self ≡ Some result }
    {
        self.checked_to_offset(offset).unwrap()
    }

    /// The nanoseconds since 1970 began.
    #[inline(always)]
    pub fn unix_timestamp_nanos(self) -> i128
        ensures value { result ≡ self }
        ensures range { IsWallClock self }
    {
        self.wall.nanoseconds()
    }

    // The whole seconds since 1970 began in UTC, rounded down, and the nanoseconds after them.
    #[inline(always)]
    pub(crate) fn parts(self) -> (i64, u32)
        ensures whole { result.0 *ℤ pos second_nanos +ℤ pos result.1 ≡ self }
        ensures bound { (unsigned_abs result.0 ≤ greatest_distance) × (result.1 < second_nanos) }
    {
        self.wall.parts()
    }
}

impl WallClock for UtcDateTime {
    ghost wall_of = { λ w. w };

    ghost with_wall = { λ _ w. w };

    #[inline(always)]
    fn wall_clock(self) -> PlainDateTime {
        self.wall()
    }

    #[inline(always)]
    fn with_wall_clock(self, wall: PlainDateTime) -> UtcDateTime {
        UtcDateTime::from_wall(wall)
    }
}

impl PartialEq for UtcDateTime {
    ghost eq = { int_eq };

    ghost laws = { Prim.search (comparing, rules) };

    fn eq(&self, other: &UtcDateTime) -> bool {
        self.unix_timestamp_nanos() == other.unix_timestamp_nanos()
    }
}

impl Eq for UtcDateTime {
    ghost laws = { Prim.search (comparing, rules) };
}

impl Ord for UtcDateTime {
    ghost cmp = { int_cmp };

    ghost total = { Prim.search (comparing, rules) };

    ghost matches_partial_cmp = { Prim.search (comparing, rules) };

    ghost matches_eq = { Prim.search (comparing, rules) };

    fn cmp(&self, other: &UtcDateTime) -> Ordering {
        self.unix_timestamp_nanos()
            .cmp(&other.unix_timestamp_nanos())
    }
}

impl PartialOrd for UtcDateTime {
    ghost partial_cmp = { as_partial_cmp int_cmp };

    ghost laws = { partial_order_from_own_ties (Prim.search (comparing, rules))
        (Prim.search (comparing, rules)) };

    fn partial_cmp(&self, other: &UtcDateTime) -> Option<Ordering> {
        Some(self.cmp(other))
    }
}

impl Hash for UtcDateTime {
    ghost hash_input = { λ w. fed.i128 w };

    ghost respects_eq = { Prim.search (hashing, rules) };

    fn hash<H: Hasher>(&self, state: &mut H) {
        self.unix_timestamp_nanos().hash(state);
    }
}

impl fmt::Display for UtcDateTime {
    ghost use Rattle.std.specs.Prelude.{Some};
    ghost use Rattle.std.specs.Fmt.{styled_text};
    ghost use Rattle.datetime_types.specs.Texts.{utc_text};

    ghost output = { λ w. Some (utc_text w) };

    ghost styled_output = { λ w s. Some (styled_text s (utc_text w)) };

    fn fmt<W: fmt::Write>(&self, f: &mut fmt::Formatter<W>) -> fmt::Result {
        let plain = self.wall;
        padding::pad(f, format_args!("{plain} +00"))
    }
}

impl fmt::Debug for UtcDateTime {
    ghost use Rattle.std.specs.Prelude.{Some};
    ghost use Rattle.datetime_types.specs.Texts.{utc_text};

    ghost debug_output = { λ w. Some (utc_text w) };

    fn fmt<W: fmt::Write>(&self, f: &mut fmt::Formatter<W>) -> fmt::Result {
        fmt::Display::fmt(self, f)
    }
}

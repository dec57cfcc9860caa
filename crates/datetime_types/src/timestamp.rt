//! Instants by the seconds since 1970.
ghost use Rattle.std.specs.Prelude.{◌≡◌, ◌<◌, ◌≤◌, unsigned_abs, ◌↔◌, ◌/◌, IsOk, IfOk, IfErr, IsSome, IfSome, Some, if◌then◌else◌, ℤ, pos, ◌+ℤ◌, ◌*ℤ◌};
ghost use Rattle.std.specs.Int.{int_div_euclid};
ghost use Rattle.std.proofs.Common.{rules};
ghost use Rattle.std.specs.Cmp.{partial_order_from_own_ties};
ghost use Rattle.std.specs.Cmp.Rules.{comparing, hashing};
ghost use Rattle.std.specs.Ordering.{int_eq, int_cmp, as_partial_cmp};
ghost use Rattle.std.specs.Hash as fed;
ghost use Rattle.calendar.specs.Range.{IsCount};
ghost use Rattle.calendar.specs.ComponentRange.{out_of_range};
ghost use Rattle.calendar_count.specs.declared.component_range.ComponentName.TheVariants as component;
ghost use Rattle.datetime_wall.specs.Wall.{second_nanos, greatest_distance, day_nanos, day_of, nanosecond_of, IsWallClock, shown_at};
ghost use Rattle.calendar.specs.UtcOffset.{IsOffset};
ghost use Rattle.calendar_spans.specs.Duration.{milli_nanos, micro_nanos};
ghost use Rattle.datetime_wall.specs.Seconds.{IsUnixSecond};
ghost use Rattle.datetime_types.specs.Unix.{unix_nanos, is_unix_second};

mod arithmetic;
mod text;
mod views;

use crate::{OffsetDateTime, PlainDateTime, UtcDateTime, WallClock};
use calendar::{ComponentRange, Date, Time, UtcOffset};
use calendar_count::ComponentName;
use calendar_count::range::{LAST_COUNT, UNIX_EPOCH};
use datetime_wall::{count_of_seconds, second_of_day};
use std::cmp::Ordering;
use std::hash::{Hash, Hasher};
use std::marker::Model;

const DAY_SECONDS: i64 = 86_400;

const LEAST_SECOND: i64 = -(UNIX_EPOCH as i64 * DAY_SECONDS);

const GREATEST_SECOND: i64 = (LAST_COUNT + 1 - UNIX_EPOCH) as i64 * DAY_SECONDS - 1;

/// An instant to the nanosecond, as Unix time counts it, which has no leap seconds: from
/// -31,619,087,596,800 to 31,494,784,780,799 whole seconds. What it shows, from `year` to `nanosecond`,
/// is in UTC.
///
/// A contract sees the nanoseconds since 1970 began in UTC.
#[derive(Clone, Copy)]
pub struct Timestamp {
    seconds: i64,
    nanoseconds: u32,
}

impl Model for Timestamp {
    ghost use Rattle.std.specs.Prelude.{◌<◌, ℤ, pos, unsigned_abs};
    ghost use Rattle.std.specs.Int.{int_div_euclid, int_rem_euclid};
    ghost use Rattle.datetime_wall.specs.Wall.{second_nanos};
    ghost use Rattle.datetime_wall.specs.Seconds.{IsUnixSecond};
    ghost use Rattle.datetime_types.specs.Unix.{unix_nanos, seconds_back, nanosecond_back};

    ghost Value = { ℤ };

    ghost view = { λ s. unix_nanos s.seconds s.nanoseconds };

    ghost invariant = { λ s. IsUnixSecond s.seconds × (s.nanoseconds < second_nanos) };

    ghost inverse = { λ i. record {
      seconds = int_div_euclid i (pos second_nanos);
      nanoseconds = unsigned_abs (int_rem_euclid i (pos second_nanos));
    } };

    ghost inverse_ok = { λ s h. Prim.rw
        (seconds_back s.seconds s.nanoseconds h.1, nanosecond_back s.seconds s.nanoseconds h.1) };
}

impl Timestamp {
    /// 1970-01-01 0:00 in UTC.
    pub const UNIX_EPOCH: Timestamp = Timestamp {
        seconds: 0,
        nanoseconds: 0,
    };

    /// The first instant of the first day in UTC, -999999-01-01 0:00.
    pub const MIN: Timestamp = Timestamp {
        seconds: LEAST_SECOND,
        nanoseconds: 0,
    };

    /// The last instant of the last day in UTC, 999999-12-31 23:59:59.999999999.
    pub const MAX: Timestamp = Timestamp {
        seconds: GREATEST_SECOND,
        nanoseconds: 999_999_999,
    };

    /// So many seconds after 1970 began in UTC, or before it where they are below zero, and so many
    /// nanoseconds later.
    ///
    /// Seconds of days that the calendar does not have are refused as `timestamp`, and else
    /// nanoseconds over 999,999,999 as `nanosecond`.
    #[inline(always)]
    #[tactic(auto, unfolding(crate::specs::Unix::unix_nanos))]
    pub fn new(seconds: i64, nanoseconds: u32) -> Result<Timestamp, ComponentRange>
        ensures succeeds { IsOk result ↔ (IsUnixSecond seconds × (nanoseconds < second_nanos)) }
        ensures value { IfOk result (λ t. t ≡ seconds *ℤ pos second_nanos +ℤ pos nanoseconds) }
        ensures err { IfErr result (λ e. e
            ≡ (if is_unix_second seconds then out_of_range component.Nanosecond
            else out_of_range component.Timestamp)) }
    {
        if seconds < LEAST_SECOND || seconds > GREATEST_SECOND {
            return Err(ComponentRange::unconditional(ComponentName::Timestamp));
        }
        if nanoseconds > 999_999_999 {
            return Err(ComponentRange::unconditional(ComponentName::Nanosecond));
        }
        Ok(Timestamp {
            seconds,
            nanoseconds,
        })
    }

    /// So many seconds after 1970 began in UTC, refused as `timestamp` where the calendar does not
    /// have the day.
    #[inline(always)]
    pub fn from_seconds(seconds: i64) -> Result<Timestamp, ComponentRange>
        ensures succeeds { IsOk result ↔ IsWallClock (seconds *ℤ pos second_nanos) }
        ensures value { IfOk result (λ t. t ≡ seconds *ℤ pos second_nanos) }
        ensures err { IfErr result (λ e. e ≡ out_of_range component.Timestamp) }
    {
        Timestamp::new(seconds, 0)
    }

    /// So many milliseconds after 1970 began in UTC, refused as `timestamp` where the calendar does
    /// not have the day.
    #[inline(always)]
    pub fn from_milliseconds(milliseconds: i64) -> Result<Timestamp, ComponentRange>
        ensures succeeds { IsOk result ↔ IsWallClock (milliseconds *ℤ pos milli_nanos) }
        ensures value { IfOk result (λ t. t ≡ milliseconds *ℤ pos milli_nanos) }
        ensures err { IfErr result (λ e. e ≡ out_of_range component.Timestamp) }
    {
        let nanoseconds = milliseconds.rem_euclid(1000) as u32 * 1_000_000;
        Timestamp::new(milliseconds.div_euclid(1000), nanoseconds)
    }

    /// So many microseconds after 1970 began in UTC, refused as `timestamp` where the calendar does
    /// not have the day.
    #[inline(always)]
    pub fn from_microseconds(microseconds: i128) -> Result<Timestamp, ComponentRange>
        ensures succeeds { IsOk result ↔ IsWallClock (microseconds *ℤ pos micro_nanos) }
        ensures value { IfOk result (λ t. t ≡ microseconds *ℤ pos micro_nanos) }
        ensures err { IfErr result (λ e. e ≡ out_of_range component.Timestamp) }
    {
        let Ok(seconds) = i64::try_from(microseconds.div_euclid(1_000_000)) else {
            return Err(ComponentRange::unconditional(ComponentName::Timestamp));
        };
        let nanoseconds = microseconds.rem_euclid(1_000_000) as u32 * 1000;
        Timestamp::new(seconds, nanoseconds)
    }

    /// So many nanoseconds after 1970 began in UTC, refused as `timestamp` where the calendar does
    /// not have the day.
    #[inline(always)]
    pub fn from_nanoseconds(nanoseconds: i128) -> Result<Timestamp, ComponentRange>
        ensures succeeds { IsOk result ↔ IsWallClock nanoseconds }
        ensures value { IfOk result (λ t. t ≡ nanoseconds) }
        ensures err { IfErr result (λ e. e ≡ out_of_range component.Timestamp) }
    {
        let Ok(seconds) = i64::try_from(nanoseconds.div_euclid(1_000_000_000)) else {
            return Err(ComponentRange::unconditional(ComponentName::Timestamp));
        };
        Timestamp::new(seconds, nanoseconds.rem_euclid(1_000_000_000) as u32)
    }

    /// The whole seconds since 1970 began in UTC, rounded down.
    #[inline(always)]
    pub fn as_seconds(self) -> i64
        ensures value { result ≡ int_div_euclid self (pos second_nanos) }
        ensures bound { IsUnixSecond result }
    {
        self.seconds
    }

    /// The whole milliseconds since 1970 began in UTC, rounded down.
    #[inline(always)]
    #[tactic(auto, unfolding(crate::specs::Unix::unix_nanos))]
    pub fn as_milliseconds(self) -> i64
        ensures { result ≡ int_div_euclid self (pos milli_nanos) }
    {
        1000 * self.seconds + i64::from(self.nanoseconds / 1_000_000)
    }

    /// The whole microseconds since 1970 began in UTC, rounded down.
    #[inline(always)]
    #[tactic(auto, unfolding(crate::specs::Unix::unix_nanos))]
    pub fn as_microseconds(self) -> i128
        ensures { result ≡ int_div_euclid self (pos micro_nanos) }
    {
        i128::from(self.seconds) * 1_000_000 + i128::from(self.nanoseconds / 1000)
    }

    /// The nanoseconds since 1970 began in UTC.
    #[inline(always)]
    #[tactic(auto, unfolding(crate::specs::Unix::unix_nanos), using(crate::proofs::UnixLemmas::unix_nanos_range))]
    pub fn as_nanoseconds(self) -> i128
        ensures value { result ≡ self }
        ensures range { IsWallClock self }
    {
        i128::from(self.seconds) * 1_000_000_000 + i128::from(self.nanoseconds)
    }

    // The count of the day in UTC.
    #[inline(always)]
    pub(crate) fn count(self) -> u64
        ensures value { result ≡ day_of self }
        ensures bound { IsCount result }
        ensures range { IsWallClock self }
    {
        count_of_seconds(self.seconds)
    }

    // The second of the day in UTC.
    #[inline(always)]
    pub(crate) fn second_of_day(self) -> u32
        ensures value { result ≡ nanosecond_of self / second_nanos }
        ensures bound { result < 86_400 }
    {
        second_of_day(self.seconds)
    }

    /// The date in UTC.
    #[inline(always)]
    pub fn date(self) -> Date
        ensures value { result ≡ day_of self }
        ensures bound { IsCount result }
        ensures range { IsWallClock self }
    {
        Date::from_count(self.count() as u32)
    }

    /// The time of day in UTC.
    #[inline(always)]
    pub fn time(self) -> Time
        ensures value { result ≡ nanosecond_of self }
        ensures bound { result < day_nanos }
    {
        Time::from_seconds_nanoseconds(second_of_day(self.seconds), self.nanoseconds)
    }

    /// The instant of a date and a time of day in UTC.
    #[inline(always)]
    pub(crate) fn from_utc(utc: UtcDateTime) -> Timestamp
        ensures value { result ≡ utc }
        ensures range { IsWallClock utc }
    {
        Timestamp {
            seconds: utc.unix_timestamp(),
            nanoseconds: utc.nanosecond(),
        }
    }

    /// The same instant as a date and a time of day.
    #[inline(always)]
    pub fn to_utc(self) -> UtcDateTime
        ensures value { result ≡ self }
        ensures range { IsWallClock self }
    {
        UtcDateTime::new(self.date(), self.time())
    }

    /// The instant at an offset, or `None` where the calendar does not have the date there.
    #[inline(always)]
    pub fn checked_to_offset(self, offset: UtcOffset) -> Option<OffsetDateTime>
        ensures value { result ≡ shown_at offset self }
        ensures range { IfSome result (λ m. IsWallClock m.wall × IsOffset m.offset) }
    {
        self.to_utc().checked_to_offset(offset)
    }

    /// The instant at an offset, where the calendar has the date there: `checked_to_offset` is the
    /// test.
    #[inline(always)]
    pub fn to_offset(self, offset: UtcOffset) -> OffsetDateTime
        requires { IsSome (shown_at offset self) }
        ensures { shown_at offset self ≡ Some result }
    {
        self.checked_to_offset(offset).unwrap()
    }

    // The whole seconds since 1970 began in UTC, rounded down, and the nanoseconds after them.
    #[inline(always)]
    #[tactic(auto, unfolding(crate::specs::Unix::unix_nanos), using(crate::proofs::UnixLemmas::unix_nanos_range))]
    pub(crate) fn parts(self) -> (i64, u32)
        ensures whole { result.0 *ℤ pos second_nanos +ℤ pos result.1 ≡ self }
        ensures bound { (unsigned_abs result.0 ≤ greatest_distance) × (result.1 < second_nanos) }
        ensures range { IsWallClock self }
    {
        (self.seconds, self.nanoseconds)
    }
}

impl WallClock for Timestamp {
    ghost wall_of = { λ t. t };

    ghost with_wall = { λ _ w. w };

    #[inline(always)]
    fn wall_clock(self) -> PlainDateTime {
        PlainDateTime::new(self.date(), self.time())
    }

    #[inline(always)]
    fn with_wall_clock(self, wall: PlainDateTime) -> Timestamp {
        Timestamp::from_utc(wall.as_utc())
    }
}

impl PartialEq for Timestamp {
    ghost eq = { int_eq };

    ghost laws = { Prim.search (comparing, rules) };

    fn eq(&self, other: &Timestamp) -> bool {
        self.as_nanoseconds() == other.as_nanoseconds()
    }
}

impl Eq for Timestamp {
    ghost laws = { Prim.search (comparing, rules) };
}

impl Ord for Timestamp {
    ghost cmp = { int_cmp };

    ghost total = { Prim.search (comparing, rules) };

    ghost matches_partial_cmp = { Prim.search (comparing, rules) };

    ghost matches_eq = { Prim.search (comparing, rules) };

    fn cmp(&self, other: &Timestamp) -> Ordering {
        self.as_nanoseconds().cmp(&other.as_nanoseconds())
    }
}

impl PartialOrd for Timestamp {
    ghost partial_cmp = { as_partial_cmp int_cmp };

    ghost laws = { partial_order_from_own_ties (Prim.search (comparing, rules))
        (Prim.search (comparing, rules)) };

    fn partial_cmp(&self, other: &Timestamp) -> Option<Ordering> {
        Some(self.cmp(other))
    }
}

impl Hash for Timestamp {
    ghost hash_input = { λ w. fed.i128 w };

    ghost respects_eq = { Prim.search (hashing, rules) };

    fn hash<H: Hasher>(&self, state: &mut H) {
        self.as_nanoseconds().hash(state);
    }
}

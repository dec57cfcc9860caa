//! Dates and times at offsets from UTC.
ghost use Rattle.std.specs.Prelude.{◌≡◌, ◌<◌, ◌≤◌, ◌↔◌, IsOk, IfOk, IfErr, IsSome, IfSome, Some, pos, ◌+ℤ◌, ◌*ℤ◌, unsigned_abs};
ghost use Rattle.std.specs.Int.{int_div_euclid};
ghost use Rattle.std.proofs.Common.{rules};
ghost use Rattle.std.specs.Cmp.{partial_order_from_own_ties};
ghost use Rattle.std.specs.Cmp.Rules.{comparing, hashing};
ghost use Rattle.std.specs.Ordering.{int_eq, int_cmp, on, as_partial_cmp};
ghost use Rattle.std.specs.Hash as fed;
ghost use Rattle.calendar.specs.Range.{IsCount};
ghost use Rattle.calendar.specs.Time.{hour_at, minute_at, second_at, millisecond_at, microsecond_at, nanosecond_at};
ghost use Rattle.calendar.specs.UtcOffset.{IsOffset};
ghost use Rattle.calendar.specs.ComponentRange.{out_of_range};
ghost use Rattle.calendar_count.specs.declared.component_range.ComponentName.TheVariants as component;
ghost use Rattle.datetime_wall.specs.Wall.{second_nanos, greatest_distance, day_nanos, wall_clock, day_of, nanosecond_of, IsWallClock, instant, shown_at};

mod arithmetic;
mod changes;

use crate::{PlainDateTime, Timestamp, UtcDateTime, WallClock};
use calendar::{ComponentRange, Date, Time, UtcOffset};
use calendar_count::padding;
use datetime_wall::wall;
use std::cmp::Ordering;
use std::fmt;
use std::hash::{Hash, Hasher};
use std::marker::Model;

/// A date and a time of day at an offset from UTC, as RFC 3339 section 5.6 writes one.
///
/// What it shows, from `year` to `nanosecond`, and what it is printed by, as
/// `2024-06-19 7:05:00.25 +05:30:00`, is what a clock at its offset shows.
///
/// A contract sees the wall clock and the offset. Comparisons and hashes go by the instant: two
/// values that show one instant at two offsets are equal.
#[derive(Clone, Copy)]
pub struct OffsetDateTime {
    wall: PlainDateTime,
    offset: UtcOffset,
}

impl Model for OffsetDateTime {
    ghost use Rattle.calendar.specs.UtcOffset.{IsOffset};
    ghost use Rattle.datetime_wall.specs.Wall.{Shown, IsWallClock};

    ghost Value = { Shown };

    ghost view = { λ s. record { wall = s.wall; offset = s.offset } };

    ghost invariant = { λ s. IsWallClock s.wall × IsOffset s.offset };

    ghost inverse = { λ m. record { wall = m.wall; offset = m.offset } };
}

impl OffsetDateTime {
    /// 1970-01-01 0:00 at the offset zero.
    pub const UNIX_EPOCH: OffsetDateTime = OffsetDateTime {
        wall: PlainDateTime::UNIX_EPOCH,
        offset: UtcOffset::UTC,
    };

    // What a clock at the offset shows so.
    #[inline(always)]
    pub(crate) fn from_wall(wall: PlainDateTime, offset: UtcOffset) -> OffsetDateTime
        ensures value { result ≡ record { wall = wall; offset = offset } }
        ensures range { IsWallClock wall × IsOffset offset }
    {
        // Their ranges come with these calls.
        let _ = (wall.date(), offset.whole_seconds());
        OffsetDateTime { wall, offset }
    }

    /// The moment of the date and the time of day in UTC, at the offset zero.
    #[inline(always)]
    pub fn new_utc(date: Date, time: Time) -> OffsetDateTime
        ensures value { result ≡ record { wall = wall_clock date time; offset = pos 0 } }
        ensures range { IsWallClock result.wall }
    {
        OffsetDateTime::new_in_offset(date, time, UtcOffset::UTC)
    }

    /// So many seconds after 1970 began in UTC, at the offset zero; refused as `timestamp` where the
    /// calendar does not have the day.
    #[inline(always)]
    pub fn from_unix_timestamp(timestamp: i64) -> Result<OffsetDateTime, ComponentRange>
        ensures succeeds { IsOk result ↔ IsWallClock (timestamp *ℤ pos second_nanos) }
        ensures value { IfOk result (λ m. m
            ≡ record { wall = timestamp *ℤ pos second_nanos; offset = pos 0 }) }
        ensures err { IfErr result (λ e. e ≡ out_of_range component.Timestamp) }
    {
        Ok(UtcDateTime::from_unix_timestamp(timestamp)?.into())
    }

    /// So many nanoseconds after 1970 began in UTC, at the offset zero; refused as `timestamp` where
    /// the calendar does not have the day.
    #[inline(always)]
    pub fn from_unix_timestamp_nanos(timestamp: i128) -> Result<OffsetDateTime, ComponentRange>
        ensures succeeds { IsOk result ↔ IsWallClock timestamp }
        ensures value { IfOk result (λ m. m ≡ record { wall = timestamp; offset = pos 0 }) }
        ensures err { IfErr result (λ e. e ≡ out_of_range component.Timestamp) }
    {
        Ok(UtcDateTime::from_unix_timestamp_nanos(timestamp)?.into())
    }

    /// The whole seconds since 1970 began in UTC, rounded down.
    #[inline(always)]
    pub fn unix_timestamp(self) -> i64
        ensures value { result ≡ int_div_euclid (instant self) (pos second_nanos) }
        ensures bound { unsigned_abs result ≤ greatest_distance }
    {
        let seconds = wall::unix_seconds(self.wall.date(), self.wall.time());
        seconds - i64::from(self.offset.whole_seconds())
    }

    /// The nanoseconds since 1970 began in UTC.
    #[inline(always)]
    pub fn unix_timestamp_nanos(self) -> i128
        ensures { result ≡ instant self }
    {
        wall::instant_nanoseconds(self.wall.date(), self.wall.time(), self.offset)
    }

    /// The same instant in UTC, or `None` where the calendar does not have the date there.
    #[inline(always)]
    pub fn checked_to_utc(self) -> Option<UtcDateTime>
        ensures some { IsSome result ↔ IsWallClock (instant self) }
        ensures value { IfSome result (λ t. t ≡ instant self) }
    {
        let wall = self.wall.moved_by_seconds(-self.offset.whole_seconds())?;
        Some(UtcDateTime::from_wall(wall))
    }

    /// The same instant in UTC, where the calendar has the date there: `checked_to_utc` is the test.
    #[inline(always)]
    pub fn to_utc(self) -> UtcDateTime
        requires { IsWallClock (instant self) }
        ensures { result ≡ instant self }
    {
        self.checked_to_utc().unwrap()
    }

    /// The same instant, or `None` where the calendar does not have its date in UTC.
    #[inline(always)]
    pub fn checked_to_timestamp(self) -> Option<Timestamp>
        ensures some { IsSome result ↔ IsWallClock (instant self) }
        ensures value { IfSome result (λ t. t ≡ instant self) }
    {
        Timestamp::new(self.unix_timestamp(), self.wall.nanosecond()).ok()
    }

    /// The same instant, where the calendar has its date in UTC: `checked_to_timestamp` is the test.
    #[inline(always)]
    pub fn to_timestamp(self) -> Timestamp
        requires { IsWallClock (instant self) }
        ensures { result ≡ instant self }
    {
        self.checked_to_timestamp().unwrap()
    }

    /// The moment at which a clock at the offset shows the date and the time of day.
    #[inline(always)]
    pub fn new_in_offset(date: Date, time: Time, offset: UtcOffset) -> OffsetDateTime
        ensures value { result ≡ record { wall = wall_clock date time; offset = offset } }
        ensures range { IsWallClock result.wall × IsOffset result.offset }
    {
        OffsetDateTime::from_wall(PlainDateTime::new(date, time), offset)
    }

    /// The date at its offset.
    #[inline(always)]
    pub fn date(self) -> Date
        ensures value { result ≡ day_of self.wall }
        ensures bound { IsCount result }
        ensures range { IsWallClock self.wall }
    {
        self.wall.date()
    }

    /// The time of day at its offset.
    #[inline(always)]
    pub fn time(self) -> Time
        ensures value { result ≡ nanosecond_of self.wall }
        ensures bound { result < day_nanos }
        ensures range { IsWallClock self.wall }
    {
        self.wall.time()
    }

    /// The offset from UTC.
    #[inline(always)]
    pub fn offset(self) -> UtcOffset
        ensures value { result ≡ self.offset }
        ensures bound { IsOffset result }
        ensures range { IsWallClock self.wall }
    {
        self.offset
    }

    /// The same instant at another offset, or `None` where the calendar does not have the date
    /// there.
    #[inline(always)]
    pub fn checked_to_offset(self, offset: UtcOffset) -> Option<OffsetDateTime>
        ensures value { result ≡ shown_at offset (instant self) }
        ensures range { IfSome result (λ m. IsWallClock m.wall × IsOffset m.offset) }
    {
        let seconds = offset.whole_seconds() - self.offset.whole_seconds();
        let wall = self.wall.moved_by_seconds(seconds)?;
        Some(OffsetDateTime::from_wall(wall, offset))
    }

    /// The same instant at another offset, where the calendar has the date there: `checked_to_offset` is the
    /// test.
    #[inline(always)]
    pub fn to_offset(self, offset: UtcOffset) -> OffsetDateTime
        requires { IsSome (shown_at offset (instant self)) }
        ensures { shown_at offset (instant self) ≡ Some result }
    {
        self.checked_to_offset(offset).unwrap()
    }

    /// The hour, the minute and the second.
    #[inline(always)]
    pub fn to_hms(self) -> (u8, u8, u8)
        ensures hour { result.0 ≡ hour_at (nanosecond_of self.wall) }
        ensures minute { result.1 ≡ minute_at (nanosecond_of self.wall) }
        ensures second { result.2 ≡ second_at (nanosecond_of self.wall) }
        ensures bound { (result.0 < 24) × (result.1 < 60) × (result.2 < 60) }
    {
        self.wall.as_hms()
    }

    /// The hour, the minute, the second and the millisecond.
    #[inline(always)]
    pub fn to_hms_milli(self) -> (u8, u8, u8, u16)
        ensures hour { result.0 ≡ hour_at (nanosecond_of self.wall) }
        ensures minute { result.1 ≡ minute_at (nanosecond_of self.wall) }
        ensures second { result.2 ≡ second_at (nanosecond_of self.wall) }
        ensures millisecond { result.3 ≡ millisecond_at (nanosecond_of self.wall) }
        ensures bound { (result.0 < 24) × (result.1 < 60) × (result.2 < 60) × (result.3 < 1000) }
    {
        self.wall.as_hms_milli()
    }

    /// The hour, the minute, the second and the microsecond.
    #[inline(always)]
    pub fn to_hms_micro(self) -> (u8, u8, u8, u32)
        ensures hour { result.0 ≡ hour_at (nanosecond_of self.wall) }
        ensures minute { result.1 ≡ minute_at (nanosecond_of self.wall) }
        ensures second { result.2 ≡ second_at (nanosecond_of self.wall) }
        ensures microsecond { result.3 ≡ microsecond_at (nanosecond_of self.wall) }
        ensures bound { (result.0 < 24) × (result.1 < 60) × (result.2 < 60)
            × (result.3 < 1_000_000) }
    {
        self.wall.as_hms_micro()
    }

    /// The hour, the minute, the second and the nanosecond.
    #[inline(always)]
    pub fn to_hms_nano(self) -> (u8, u8, u8, u32)
        ensures hour { result.0 ≡ hour_at (nanosecond_of self.wall) }
        ensures minute { result.1 ≡ minute_at (nanosecond_of self.wall) }
        ensures second { result.2 ≡ second_at (nanosecond_of self.wall) }
        ensures nanosecond { result.3 ≡ nanosecond_at (nanosecond_of self.wall) }
        ensures bound { (result.0 < 24) × (result.1 < 60) × (result.2 < 60)
            × (result.3 < 1_000_000_000) }
    {
        self.wall.as_hms_nano()
    }

    // The whole seconds since 1970 began in UTC, rounded down, and the nanoseconds after them.
    #[inline(always)]
    pub(crate) fn parts(self) -> (i64, u32)
        ensures whole { result.0 *ℤ pos second_nanos +ℤ pos result.1 ≡ instant self }
        ensures bound { (unsigned_abs result.0 ≤ greatest_distance) × (result.1 < second_nanos) }
    {
        let (seconds, nanoseconds) = self.wall.parts();
        (
            seconds - i64::from(self.offset.whole_seconds()),
            nanoseconds,
        )
    }
}

impl WallClock for OffsetDateTime {
    ghost wall_of = { λ m. m.wall };

    ghost with_wall = { λ m wall. record { wall = wall; offset = m.offset } };

    #[inline(always)]
    fn wall_clock(self) -> PlainDateTime {
        self.wall
    }

    #[inline(always)]
    fn with_wall_clock(self, wall: PlainDateTime) -> OffsetDateTime {
        OffsetDateTime::from_wall(wall, self.offset)
    }
}

impl PartialEq for OffsetDateTime {
    ghost eq = { on instant int_eq };

    ghost laws = { Prim.search (comparing, rules) };

    fn eq(&self, other: &OffsetDateTime) -> bool {
        self.unix_timestamp_nanos() == other.unix_timestamp_nanos()
    }
}

impl Eq for OffsetDateTime {
    ghost laws = { Prim.search (comparing, rules) };
}

impl Ord for OffsetDateTime {
    ghost cmp = { on instant int_cmp };

    ghost total = { Prim.search (comparing, rules) };

    ghost matches_partial_cmp = { Prim.search (comparing, rules) };

    ghost matches_eq = { Prim.search (comparing, rules) };

    fn cmp(&self, other: &OffsetDateTime) -> Ordering {
        self.unix_timestamp_nanos()
            .cmp(&other.unix_timestamp_nanos())
    }
}

impl PartialOrd for OffsetDateTime {
    ghost partial_cmp = { as_partial_cmp (on instant int_cmp) };

    ghost laws = { partial_order_from_own_ties (Prim.search (comparing, rules))
        (Prim.search (comparing, rules)) };

    fn partial_cmp(&self, other: &OffsetDateTime) -> Option<Ordering> {
        Some(self.cmp(other))
    }
}

impl Hash for OffsetDateTime {
    ghost hash_input = { λ m. fed.i128 (instant m) };

    ghost respects_eq = { Prim.search (hashing, rules) };

    fn hash<H: Hasher>(&self, state: &mut H) {
        self.unix_timestamp_nanos().hash(state);
    }
}

impl fmt::Display for OffsetDateTime {
    ghost use Rattle.std.specs.Prelude.{Some};
    ghost use Rattle.std.specs.Fmt.{styled_text};
    ghost use Rattle.datetime_types.specs.Texts.{shown_text};

    ghost output = { λ m. Some (shown_text m) };

    ghost styled_output = { λ m s. Some (styled_text s (shown_text m)) };

    fn fmt<W: fmt::Write>(&self, f: &mut fmt::Formatter<W>) -> fmt::Result {
        let (wall, offset) = (self.wall, self.offset());
        padding::pad(f, format_args!("{wall} {offset}"))
    }
}

impl fmt::Debug for OffsetDateTime {
    ghost use Rattle.std.specs.Prelude.{Some};
    ghost use Rattle.datetime_types.specs.Texts.{shown_text};

    ghost debug_output = { λ m. Some (shown_text m) };

    fn fmt<W: fmt::Write>(&self, f: &mut fmt::Formatter<W>) -> fmt::Result {
        fmt::Display::fmt(self, f)
    }
}

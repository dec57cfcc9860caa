//! Dates and times of day at no stated offset.
ghost use Rattle.std.specs.Prelude.{◌≡◌, ◌<◌, ◌≤◌, ◌↔◌, IsSome, IfSome, ℤ, pos, ◌+ℤ◌, ◌*ℤ◌, unsigned_abs};
ghost use Rattle.std.proofs.Common.{rules};
ghost use Rattle.std.specs.Cmp.{partial_order_from_own_ties};
ghost use Rattle.std.specs.Cmp.Rules.{comparing, hashing};
ghost use Rattle.std.specs.Ordering.{int_eq, int_cmp, as_partial_cmp};
ghost use Rattle.std.specs.Hash as fed;
ghost use Rattle.calendar.specs.Range.{IsCount};
ghost use Rattle.calendar.specs.UtcOffset.{IsOffset};
ghost use Rattle.datetime_wall.specs.Wall.{second_nanos, greatest_distance, day_nanos, wall_clock, day_of, nanosecond_of, IsWallClock};

mod arithmetic;

use crate::{OffsetDateTime, UtcDateTime, WallClock};
use calendar::{Date, Time, UtcOffset};
use calendar_count::padding;
use datetime_wall::wall;
use std::cmp::Ordering;
use std::fmt;
use std::hash::{Hash, Hasher};
use std::marker::Model;

/// A date and a time of day, with no offset from UTC. It is printed as `2024-06-19 7:05:00.25`.
///
/// A contract sees the wall clock: the nanoseconds since 1970 began on that clock.
#[derive(Clone, Copy)]
pub struct PlainDateTime {
    date: Date,
    time: Time,
}

impl Model for PlainDateTime {
    ghost use Rattle.std.specs.Prelude.{◌<◌, ℤ};
    ghost use Rattle.calendar.specs.Range.{IsCount};
    ghost use Rattle.datetime_wall.specs.Wall.{day_nanos, wall_clock, day_of, nanosecond_of};
    ghost use Rattle.datetime_wall.proofs.lemmas.WallClocks.{day_of-wall_clock, nanosecond_of-wall_clock};

    ghost Value = { ℤ };

    ghost view = { λ s. wall_clock s.date s.time };

    ghost invariant = { λ s. IsCount s.date × (s.time < day_nanos) };

    ghost inverse = { λ w. record { date = day_of w; time = nanosecond_of w } };

    ghost inverse_ok = { λ s h. Prim.rw
        (day_of-wall_clock s.date s.time h.1, nanosecond_of-wall_clock s.date s.time h.1) };
}

impl PlainDateTime {
    /// The first moment of the first day, -999999-01-01 0:00.
    pub const MIN: PlainDateTime = PlainDateTime {
        date: Date::MIN,
        time: Time::MIDNIGHT,
    };

    /// The last moment of the last day, 999999-12-31 23:59:59.999999999.
    pub const MAX: PlainDateTime = PlainDateTime {
        date: Date::MAX,
        time: Time::MAX,
    };

    pub(crate) const UNIX_EPOCH: PlainDateTime = PlainDateTime {
        date: Date::UNIX_EPOCH,
        time: Time::MIDNIGHT,
    };

    /// The date and the time of day together: what a clock shows then.
    #[inline(always)]
    pub fn new(date: Date, time: Time) -> PlainDateTime
        ensures value { result ≡ wall_clock date time }
        ensures range { IsWallClock result }
        ensures date { day_of result ≡ date }
        ensures time { nanosecond_of result ≡ time }
    {
        // Their ranges come with these calls.
        let _ = (date.count(), time.second_of_day());
        PlainDateTime { date, time }
    }

    /// The date.
    #[inline(always)]
    pub fn date(self) -> Date
        ensures value { result ≡ day_of self }
        ensures bound { IsCount result }
        ensures range { IsWallClock self }
    {
        self.date
    }

    /// The time of day.
    #[inline(always)]
    pub fn time(self) -> Time
        ensures value { result ≡ nanosecond_of self }
        ensures bound { result < day_nanos }
        ensures range { IsWallClock self }
    {
        self.time
    }

    /// The moment at which a clock at the offset shows this date and time.
    #[inline(always)]
    pub fn assume_offset(self, offset: UtcOffset) -> OffsetDateTime
        ensures value { result ≡ record { wall = self; offset = offset } }
        ensures range { IsWallClock self × IsOffset offset }
    {
        OffsetDateTime::from_wall(self, offset)
    }

    /// The moment at which a clock in UTC shows this date and time, at the offset zero.
    #[inline(always)]
    pub fn assume_utc(self) -> OffsetDateTime
        ensures value { result ≡ record { wall = self; offset = pos 0 } }
        ensures range { IsWallClock self }
    {
        self.assume_offset(UtcOffset::UTC)
    }

    /// The moment at which a clock in UTC shows this date and time.
    #[inline(always)]
    pub fn as_utc(self) -> UtcDateTime
        ensures value { result ≡ self }
        ensures range { IsWallClock self }
    {
        UtcDateTime::from_wall(self)
    }

    // The wall clock so many seconds later, where the calendar has the day.
    #[inline(always)]
    pub(crate) fn moved_by_seconds(self, seconds: i32) -> Option<PlainDateTime>
        requires { unsigned_abs seconds ≤ 187_198 }
        ensures some { IsSome result ↔ IsWallClock (self +ℤ seconds *ℤ pos second_nanos) }
        ensures value { IfSome result (λ w. w ≡ self +ℤ seconds *ℤ pos second_nanos) }
    {
        let (date, time) = wall::moved_by_seconds(self.date, self.time, seconds)?;
        Some(PlainDateTime::new(date, time))
    }

    // The nanoseconds since 1970 began on the clock.
    #[inline(always)]
    pub(crate) fn nanoseconds(self) -> i128
        ensures value { result ≡ self }
        ensures range { IsWallClock self }
    {
        wall::wall_nanoseconds(self.date, self.time)
    }

    // The whole seconds since 1970 began, on the clock, rounded down, and the nanoseconds after them.
    #[inline(always)]
    pub(crate) fn parts(self) -> (i64, u32)
        ensures whole { result.0 *ℤ pos second_nanos +ℤ pos result.1 ≡ self }
        ensures bound { (unsigned_abs result.0 ≤ greatest_distance) × (result.1 < second_nanos) }
    {
        (wall::unix_seconds(self.date, self.time), self.nanosecond())
    }
}

impl WallClock for PlainDateTime {
    ghost wall_of = { λ w. w };

    ghost with_wall = { λ _ w. w };

    #[inline(always)]
    fn wall_clock(self) -> PlainDateTime {
        // The range comes with this call.
        let _ = self.date();
        self
    }

    #[inline(always)]
    fn with_wall_clock(self, wall: PlainDateTime) -> PlainDateTime {
        wall
    }
}

impl PartialEq for PlainDateTime {
    ghost eq = { int_eq };

    ghost laws = { Prim.search (comparing, rules) };

    fn eq(&self, other: &PlainDateTime) -> bool {
        self.nanoseconds() == other.nanoseconds()
    }
}

impl Eq for PlainDateTime {
    ghost laws = { Prim.search (comparing, rules) };
}

impl Ord for PlainDateTime {
    ghost cmp = { int_cmp };

    ghost total = { Prim.search (comparing, rules) };

    ghost matches_partial_cmp = { Prim.search (comparing, rules) };

    ghost matches_eq = { Prim.search (comparing, rules) };

    fn cmp(&self, other: &PlainDateTime) -> Ordering {
        self.nanoseconds().cmp(&other.nanoseconds())
    }
}

impl PartialOrd for PlainDateTime {
    ghost partial_cmp = { as_partial_cmp int_cmp };

    ghost laws = { partial_order_from_own_ties (Prim.search (comparing, rules))
        (Prim.search (comparing, rules)) };

    fn partial_cmp(&self, other: &PlainDateTime) -> Option<Ordering> {
        Some(self.cmp(other))
    }
}

impl Hash for PlainDateTime {
    ghost hash_input = { λ w. fed.i128 w };

    ghost respects_eq = { Prim.search (hashing, rules) };

    fn hash<H: Hasher>(&self, state: &mut H) {
        self.nanoseconds().hash(state);
    }
}

impl fmt::Display for PlainDateTime {
    ghost use Rattle.std.specs.Prelude.{Some};
    ghost use Rattle.std.specs.Fmt.{styled_text};
    ghost use Rattle.datetime_types.specs.Texts.{plain_text};

    ghost output = { λ w. Some (plain_text w) };

    ghost styled_output = { λ w s. Some (styled_text s (plain_text w)) };

    fn fmt<W: fmt::Write>(&self, f: &mut fmt::Formatter<W>) -> fmt::Result {
        let (date, time) = (self.date(), self.time());
        padding::pad(f, format_args!("{date} {time}"))
    }
}

impl fmt::Debug for PlainDateTime {
    ghost use Rattle.std.specs.Prelude.{Some};
    ghost use Rattle.datetime_types.specs.Texts.{plain_text};

    ghost debug_output = { λ w. Some (plain_text w) };

    fn fmt<W: fmt::Write>(&self, f: &mut fmt::Formatter<W>) -> fmt::Result {
        fmt::Display::fmt(self, f)
    }
}

//! What every kind of moment answers.
ghost use Rattle.std.specs.Prelude.{◌≡◌, ◌<◌, ◌↔◌, IsSome, IfSome, ℤ, ◌+ℤ◌, ◌-ℤ◌};
ghost use Rattle.std.specs.Int.{IsInRange};
ghost use Rattle.calendar.specs.Range.{IsYear};
ghost use Rattle.calendar.specs.Calendar.{day_at, ordinal_at, weekday_at, ymd, IsDay, IsIsoDay};
ghost use Rattle.calendar.specs.Month.{month_number};
ghost use Rattle.calendar.specs.Weekday.{days_from_monday};
ghost use Rattle.calendar.specs.Time.{hour_at, minute_at, second_at, nanosecond_at};
ghost use Rattle.calendar.specs.UtcOffset.{IsOffset};
ghost use Rattle.datetime_wall.specs.Wall.{wall_clock, day_of, nanosecond_of, IsWallClock, shown_at};

use calendar::{Date, Month, SignedDuration, Time, UtcOffset, Weekday};
use datetime_types::{OffsetDateTime, Timestamp, UtcDateTime};

/// An instant that shows a date and a time of day in UTC.
///
/// A contract sees the instant: the nanoseconds since 1970 began in UTC. Nothing else of a moment
/// decides what it answers.
pub trait Moment: Copy {
    // The nanoseconds since 1970 began in UTC.
    ghost instant: { Self → ℤ };

    /// The nanoseconds since 1970 began in UTC.
    fn instant_nanos(self) -> i128
        ensures value { result ≡ instant self }
        ensures range { IsWallClock (instant self) };

    /// The year, the month and the day of the month.
    fn to_calendar_date(self) -> (i32, Month, u8)
        ensures value { day_at (day_of (instant self))
            ≡ ymd result.0 (month_number result.1) result.2 }
        ensures valid { IsDay result.0 (month_number result.1) result.2 };

    /// The year and the place in it, from 1.
    fn to_ordinal_date(self) -> (i32, u16)
        ensures year { result.0 ≡ (day_at (day_of (instant self))).year }
        ensures ordinal { result.1 ≡ ordinal_at (day_of (instant self)) }
        ensures bound { IsYear result.0 × IsInRange 1 366 result.1 };

    /// The year and the week of ISO 8601, and the day of the week. The year is that of the week's Thursday.
    fn to_iso_week_date(self) -> (i32, u8, Weekday)
        ensures value { IsIsoDay result.0 result.1 (days_from_monday result.2)
            (day_of (instant self)) }
        ensures year { IsYear result.0 }
        ensures week { IsInRange 1 53 result.1 };

    /// The day of the week.
    fn weekday(self) -> Weekday
        ensures { days_from_monday result ≡ weekday_at (day_of (instant self)) };

    /// The hour, the minute, the second and the nanosecond.
    fn as_hms_nano(self) -> (u8, u8, u8, u32)
        ensures hour { result.0 ≡ hour_at (nanosecond_of (instant self)) }
        ensures minute { result.1 ≡ minute_at (nanosecond_of (instant self)) }
        ensures second { result.2 ≡ second_at (nanosecond_of (instant self)) }
        ensures nanosecond { result.3 ≡ nanosecond_at (nanosecond_of (instant self)) }
        ensures bound { (result.0 < 24) × (result.1 < 60) × (result.2 < 60)
            × (result.3 < 1_000_000_000) };

    /// The moment so much later, or `None` where the calendar does not have the day.
    fn checked_add(self, duration: SignedDuration) -> Option<Self>
        ensures some { IsSome result ↔ IsWallClock (instant self +ℤ duration) }
        ensures value { IfSome result (λ moment. instant moment ≡ instant self +ℤ duration) };

    /// The moment so much earlier, or `None` where the calendar does not have the day.
    fn checked_sub(self, duration: SignedDuration) -> Option<Self>
        ensures some { IsSome result ↔ IsWallClock (instant self -ℤ duration) }
        ensures value { IfSome result (λ moment. instant moment ≡ instant self -ℤ duration) };

    /// The same time of day on another date.
    fn replace_date(self, date: Date) -> Self
        ensures { instant result ≡ wall_clock date (nanosecond_of (instant self)) };

    /// Another time of day on the same date.
    fn replace_time(self, time: Time) -> Self
        ensures { instant result ≡ wall_clock (day_of (instant self)) time };

    /// The same instant at an offset, or `None` where the calendar does not have the date there.
    fn checked_to_offset(self, offset: UtcOffset) -> Option<OffsetDateTime>
        ensures value { result ≡ shown_at offset (instant self) }
        ensures range { IfSome result (λ m. IsWallClock m.wall × IsOffset m.offset) };
}

impl Moment for Timestamp {
    ghost instant = { λ timestamp. timestamp };

    #[inline(always)]
    fn instant_nanos(self) -> i128 {
        self.as_nanoseconds()
    }

    #[inline(always)]
    fn to_calendar_date(self) -> (i32, Month, u8) {
        Timestamp::to_calendar_date(self)
    }

    #[inline(always)]
    fn to_ordinal_date(self) -> (i32, u16) {
        Timestamp::to_ordinal_date(self)
    }

    #[inline(always)]
    fn to_iso_week_date(self) -> (i32, u8, Weekday) {
        Timestamp::to_iso_week_date(self)
    }

    #[inline(always)]
    fn weekday(self) -> Weekday {
        Timestamp::weekday(self)
    }

    #[inline(always)]
    fn as_hms_nano(self) -> (u8, u8, u8, u32) {
        Timestamp::as_hms_nano(self)
    }

    #[inline(always)]
    fn checked_add(self, duration: SignedDuration) -> Option<Timestamp> {
        Timestamp::checked_add(self, duration)
    }

    #[inline(always)]
    fn checked_sub(self, duration: SignedDuration) -> Option<Timestamp> {
        Timestamp::checked_sub(self, duration)
    }

    #[inline(always)]
    fn replace_date(self, date: Date) -> Timestamp {
        Timestamp::replace_date(self, date)
    }

    #[inline(always)]
    fn replace_time(self, time: Time) -> Timestamp {
        Timestamp::replace_time(self, time)
    }

    #[inline(always)]
    fn checked_to_offset(self, offset: UtcOffset) -> Option<OffsetDateTime> {
        Timestamp::checked_to_offset(self, offset)
    }
}

impl Moment for UtcDateTime {
    ghost instant = { λ utc. utc };

    #[inline(always)]
    fn instant_nanos(self) -> i128 {
        self.unix_timestamp_nanos()
    }

    #[inline(always)]
    fn to_calendar_date(self) -> (i32, Month, u8) {
        UtcDateTime::to_calendar_date(self)
    }

    #[inline(always)]
    fn to_ordinal_date(self) -> (i32, u16) {
        UtcDateTime::to_ordinal_date(self)
    }

    #[inline(always)]
    fn to_iso_week_date(self) -> (i32, u8, Weekday) {
        UtcDateTime::to_iso_week_date(self)
    }

    #[inline(always)]
    fn weekday(self) -> Weekday {
        UtcDateTime::weekday(self)
    }

    #[inline(always)]
    fn as_hms_nano(self) -> (u8, u8, u8, u32) {
        UtcDateTime::as_hms_nano(self)
    }

    #[inline(always)]
    fn checked_add(self, duration: SignedDuration) -> Option<UtcDateTime> {
        UtcDateTime::checked_add(self, duration)
    }

    #[inline(always)]
    fn checked_sub(self, duration: SignedDuration) -> Option<UtcDateTime> {
        UtcDateTime::checked_sub(self, duration)
    }

    #[inline(always)]
    fn replace_date(self, date: Date) -> UtcDateTime {
        UtcDateTime::replace_date(self, date)
    }

    #[inline(always)]
    fn replace_time(self, time: Time) -> UtcDateTime {
        UtcDateTime::replace_time(self, time)
    }

    #[inline(always)]
    fn checked_to_offset(self, offset: UtcOffset) -> Option<OffsetDateTime> {
        UtcDateTime::checked_to_offset(self, offset)
    }
}

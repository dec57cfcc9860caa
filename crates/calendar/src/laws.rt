//! Laws that follow from the contracts, each the contract of a function here.
ghost use Rattle.std.specs.Prelude.{◌<◌, ◌≡◌, ℕ, ◌++◌, [], ◌∷◌, List, Bool, reverse, Ok, Some, IsSome, IfSome, IfNone, ◌↔◌, pos, ◌+ℤ◌};
ghost use Rattle.std.specs.Ordering.{nat_cmp};
ghost use Rattle.calendar_count.specs.Range.{IsCount, last_count, unix_epoch};
ghost use Rattle.calendar_count.specs.Calendar.{day_at, ymd, ComesBefore, IsIsoDay, IsJulianDay};
ghost use Rattle.calendar_count.specs.Month.{month_number};
ghost use Rattle.calendar_count.specs.Weekday.{days_from_monday};
ghost use Rattle.calendar_dates.specs.Arithmetic.{days_of, IsDayCount};
ghost use Rattle.calendar.specs.Laws.{ViewsUndone, Takes};

use crate::{ComponentRange, Date, Month, SignedDuration, UtcOffset, Weekday};
use std::cmp::Ordering;

/// The laws of durations.
pub use calendar_spans::laws as durations;

/// The laws of times of day and of offsets.
pub use calendar_clock::laws as times;

/// The four constructors undo the four views, for every day.
pub fn views()
    ensures { (day : ℕ) → IsCount day → ViewsUndone day }
{}

/// Days are in the order of their years, months and days of the month.
pub fn order_of_days()
    ensures { (one other : ℕ) → (one < other) ↔ ComesBefore (day_at one) (day_at other) }
{}

/// The days taken from the start of a walk, those that are left, and those taken from the back, the
/// last taken first, are the days of the walk.
pub fn both_ends()
    ensures { (calls : List Bool) (days prefix left back : List ℕ)
        → Takes calls days prefix left back → days ≡ prefix ++ (left ++ reverse back) }
{}

/// A day is that of its year, month and day of the month.
pub fn day_of_calendar_date(date: Date) -> Result<Date, ComponentRange>
    ensures { result ≡ Ok date }
{
    let (year, month, day) = date.to_calendar_date();
    Date::from_calendar_date(year, month, day)
}

/// A day is that of its year and place in the year.
pub fn day_of_ordinal_date(date: Date) -> Result<Date, ComponentRange>
    ensures { result ≡ Ok date }
{
    let (year, ordinal) = date.to_ordinal_date();
    Date::from_ordinal_date(year, ordinal)
}

/// A day is that of its year and week of ISO 8601 and its day of the week.
pub fn day_of_iso_week_date(date: Date) -> Result<Date, ComponentRange>
    ensures { result ≡ Ok date }
{
    let (year, week, weekday) = date.to_iso_week_date();
    Date::from_iso_week_date(year, week, weekday)
}

/// A day is that of its Julian day.
pub fn day_of_julian_day(date: Date) -> Result<Date, ComponentRange>
    ensures { result ≡ Ok date }
{
    Date::from_julian_day(date.to_julian_day())
}

/// A year and a week of ISO 8601 and a day of the week are those of the day that they name.
pub fn iso_week_date_of_day(year: i32, week: u8, weekday: Weekday) -> Option<(i32, u8, Weekday)>
    ensures value { IfSome result (λ named. named ≡ (year, week, weekday)) }
    ensures none { IfNone result ((day : ℕ) → IsCount day
        → ¬ IsIsoDay year week (days_from_monday weekday) day) }
{
    let Ok(date) = Date::from_iso_week_date(year, week, weekday) else {
        return None;
    };
    Some(date.to_iso_week_date())
}

/// A Julian day is that of the day that it names.
pub fn julian_day_of_day(julian_day: i32) -> Option<i32>
    ensures some { IsSome result ↔ IsJulianDay julian_day }
    ensures value { IfSome result (λ named. named ≡ julian_day) }
{
    let Ok(date) = Date::from_julian_day(julian_day) else {
        return None;
    };
    Some(date.to_julian_day())
}

/// The first and the last day of the calendar.
pub fn ends_of_calendar() -> [Date; 2]
    ensures { result ≡ 0 ∷ last_count ∷ [] }
{
    [Date::MIN, Date::MAX]
}

/// The day on which Unix time begins.
pub fn day_of_unix_epoch() -> Date
    ensures count { result ≡ unix_epoch }
    ensures day { day_at result ≡ ymd (pos 1970) 1 1 }
{
    Date::UNIX_EPOCH
}

/// A duration takes back what it added to a day.
pub fn day_and_back(date: Date, duration: SignedDuration) -> Option<Date>
    ensures some { IsSome result ↔ IsDayCount (pos date +ℤ days_of duration) }
    ensures value { IfSome result (λ back. back ≡ date) }
{
    let Some(moved) = date.checked_add(duration) else {
        return None;
    };
    moved.checked_sub(duration)
}

/// An offset is that of its whole seconds.
pub fn offset_of_whole_seconds(offset: UtcOffset) -> Result<UtcOffset, ComponentRange>
    ensures { result ≡ Ok offset }
{
    UtcOffset::from_whole_seconds(offset.whole_seconds())
}

/// The difference of two days leads from one to the other.
pub fn day_at_difference(from: Date, to: Date) -> Option<Date>
    ensures { result ≡ Some to }
{
    from.checked_add(to - from)
}

/// Months are ordered as their numbers.
pub fn order_of_months(month: Month, other: Month) -> Ordering
    ensures { result ≡ nat_cmp (month_number month) (month_number other) }
{
    month.cmp(&other)
}

/// As many steps back from a month lead to where as many steps on began.
pub fn month_and_back(month: Month, n: u8) -> Month
    ensures { result ≡ month }
{
    month.nth_next(n).nth_prev(n)
}

/// As many days back from a day of the week lead to where as many days on began.
pub fn weekday_and_back(weekday: Weekday, n: u8) -> Weekday
    ensures { result ≡ weekday }
{
    weekday.nth_next(n).nth_prev(n)
}

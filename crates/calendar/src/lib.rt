//! The calendar: dates, times of day, offsets from UTC, durations, months, weekdays, and walks over them.
//!
//! ```
//! let day = Date::from_calendar_date(2024, Month::February, 29)?;
//! let later = day.checked_add(SignedDuration::WEEK).ok_or("no such day")?;
//! let (year, week, weekday) = later.to_iso_week_date();
//! let text = format!(in alloc; "{later} is {weekday} of week {week} of {year}")?;
//! assert!(rt; text.as_str() == "2024-03-07 is Thursday of week 10 of 2024");
//! ```
//!
//! Here `rt` is the runtime that `main` or a test is handed, and `alloc` its allocator. Nothing in this crate takes
//! memory, asks for the time, or knows zones by name.
//!
//! - `Date` is a day from -999999-01-01 to 999999-12-31, `Time` a time of day to the nanosecond, `UtcOffset` an offset
//!   of at most 25:59:59 either way, `SignedDuration` a length of time with a sign.
//! - Parts that are out of range are refused with `ComponentRange`, which names the part; other words than the names of
//!   months and weekdays with `InvalidVariant`.
//! - Past the ends of the calendar, or of durations, a `checked_` call answers `None`, a `saturating_` call the nearest
//!   end, and an operator asks for a proof that its result is there. Times of day go round the clock.
//! - `DateIter`, `MonthIter` and `WeekdayIter` are walks. `util` has the lengths of months and years.
//! - `laws` has what follows from the contracts. A call of a law, as of `laws::order_of_days`, hands it to a proof.
#![tactic(auto)]

pub mod laws;

pub use calendar_clock::{DateAdjustment, Time, UtcOffset};
pub use calendar_count::{
    ComponentName, ComponentRange, ConversionRange, InvalidVariant, Month, MonthIter, RevMonthIter,
    RevWeekdayIter, Weekday, WeekdayIter, util,
};
pub use calendar_dates::{Date, DateIter};
pub use calendar_spans::SignedDuration;

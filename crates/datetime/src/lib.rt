//! Dates with times of day, at offsets from UTC.
//!
//! ```
//! use datetime::WallClock;
//! let utc = OffsetDateTime::from_unix_timestamp(1_709_251_198)?;
//! let offset = UtcOffset::from_hms(5, 30, 0)?;
//! let east = utc.checked_to_offset(offset).ok_or("no such day")?;
//! let text = format!(in alloc; "{east} is a {}", east.weekday())?;
//! assert!(rt; text.as_str() == "2024-03-01 5:29:58.0 +05:30:00 is a Friday");
//! ```
//!
//! Here `rt` is the runtime that `main` or a test is handed, and `alloc` its allocator. `UtcOffset`, `Date`, `Time` and
//! `SignedDuration` are those of the crate `calendar`. No type here has leap seconds.
//!
//! - `PlainDateTime` is a date and a time of day with no offset, `UtcDateTime` one in UTC, `OffsetDateTime` one at an
//!   offset, and `Timestamp` an instant as seconds and nanoseconds since 1970. `PlainDateTime::assume_offset` and
//!   `OffsetDateTime::new_in_offset` make a moment of what a clock shows.
//! - `WallClock` is the trait of all four: what they show, from `year` to `as_hms_nano`, and changes of it, from
//!   `replace_year` to `truncate_to_day`. Its calls need `use datetime::WallClock`.
//! - Parts that are out of range are refused with `ComponentRange` of `calendar`; so is a number of Unix time whose day
//!   the calendar does not have, as `timestamp`.
//! - Where the calendar does not have the day, a `checked_` call answers `None`, a `saturating_` call the nearest end,
//!   and an operator, or a call like `OffsetDateTime::to_offset`, asks for a proof that it has.
//! - `==`, `<` and hashes of an `OffsetDateTime` go by its instant: 0:30 at +01:00 equals 23:30 in UTC, a day earlier.
//!   Across types the calls are `eq_utc`, `cmp_timestamp` and their kin.
//! - `run_calls` answers a list of calls on any `Moment`; it alone takes memory. `signed_from_std` and
//!   `std_from_signed` turn a duration of one kind into one of the other.
//! - `laws` has what follows from the contracts, each law the contract of a function.
#![tactic(auto)]

pub mod laws;

pub use datetime_calls::{Moment, MomentCall, MomentReply, run_calls};
pub use datetime_types::{OffsetDateTime, PlainDateTime, Timestamp, UtcDateTime, WallClock};
pub use datetime_wall::durations::{signed_from_std, std_from_signed};

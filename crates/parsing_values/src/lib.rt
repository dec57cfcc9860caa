//! The dates, times of day, offsets and moments that numbers and parts of a text name, and the laws of them; and the fields of a
//! date-time in a year of four digits, before any day is counted.
#![tactic(auto)]

mod before;
mod clock;
pub mod date_laws;
mod date_parts;
mod digits;
mod fields;
mod four_digits;
mod fraction;
pub mod laws;
mod minutes;
mod moment;
mod named;
pub mod named_day;
mod parts;
pub mod resolve;
mod stand_in;

pub use clock::{hour, offset, time};
pub use date_parts::{DateParts, YearParts};
pub use datetime_types::{OffsetDateTime, PlainDateTime, Timestamp, UtcDateTime};
pub use digits::digit_pair;
pub use fields::{Fields, has_day};
pub use four_digits::Year;
pub use fraction::Fraction;
pub use minutes::{minute_of_day, offset_minutes};
pub use moment::{offset_date_time, plain_date_time, timestamp, utc_date_time};
pub use named::{date, year};
pub use parts::{MomentParts, OffsetParts, TimeParts};
pub use stand_in::{is_valid_leap_second_stand_in, leap_checked};

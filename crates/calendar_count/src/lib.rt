//! The calendar as a walk of days, and the same by division; months and days of the week with their
//! endless walks; refusals of what is out of range.
#![tactic(auto)]

pub mod closed;
mod component_range;
mod conversion_range;
pub mod digits;
mod invalid_variant;
pub mod march;
mod month;
mod month_iter;
pub mod padding;
pub mod range;
pub mod util;
mod weekday;
mod weekday_iter;

pub use component_range::{ComponentName, ComponentRange};
pub use conversion_range::ConversionRange;
pub use invalid_variant::InvalidVariant;
pub use month::Month;
pub use month_iter::{MonthIter, RevMonthIter};
pub use weekday::Weekday;
pub use weekday_iter::{RevWeekdayIter, WeekdayIter};

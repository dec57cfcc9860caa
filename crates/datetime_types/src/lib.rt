//! Dates with times of day.
#![tactic(auto)]

mod difference;
mod offset_date_time;
mod pairs;
mod plain_date_time;
mod timestamp;
mod utc_date_time;
mod wall_clock;

pub use offset_date_time::OffsetDateTime;
pub use plain_date_time::PlainDateTime;
pub use timestamp::Timestamp;
pub use utc_date_time::UtcDateTime;
pub use wall_clock::WallClock;

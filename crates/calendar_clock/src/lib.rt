//! Times of day and offsets from UTC.
#![tactic(auto)]

mod comparing;
mod date_adjustment;
pub mod laws;
mod offset_text;
mod time;
mod time_moved;
mod time_of_parts;
mod time_text;
mod utc_offset;

pub use date_adjustment::DateAdjustment;
pub use time::Time;
pub use utc_offset::UtcOffset;

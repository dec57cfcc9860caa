//! The reading of ISO 8601, piece by piece.
#![tactic(auto)]

mod date;
mod fraction;
mod kind;
mod number;
mod offset;
mod reading;
mod time;
mod written;

pub use reading::parse_prefix;
pub use written::{Iso8601Parts, WrittenDate, WrittenOffset, WrittenTime};

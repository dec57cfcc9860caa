//! The prefixes of bytes that sources read as dates, with what is given where a date lacks it.
#![tactic(auto)]

mod completed;
mod contents;
mod date_source;
mod ends;
mod extent;
mod fast_prefix;
mod given;
mod kind;
mod lacks;
mod named;
mod prefix;
mod ruled_out;
mod window;

pub use completed::{lacks_offset, lacks_time, lacks_year};
pub use date_source::DateSource;
pub use given::{Given, NOTHING, Years};
pub use lacks::Lack;
pub use prefix::Prefix;
pub use ruled_out::{lacks_byte, rules_out};

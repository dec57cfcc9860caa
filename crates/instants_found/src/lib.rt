//! Dates inside lines: the one that a line's sources find, and where it stands.
#![tactic(auto)]

mod beside;
mod candidate;
mod doubt;
mod finder;
mod finding;
mod found;
mod kept_day;
mod key;
mod keys;
mod lanes;
pub mod laws;
mod marks;
mod prefix_bytes;
mod range;
mod source_key;
mod spread;
mod starts;
mod zoned;

pub use doubt::{Doubt, Doubted};
pub use finder::Finder;
pub use found::{Finding, Found};
pub use instants_prefixes::{DateSource, Given, Years};
pub use kept_day::KeptDay;

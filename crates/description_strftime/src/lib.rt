//! Descriptions by the letters of strftime: those of POSIX in its C locale, and the usual ones of GNU.
#![tactic(auto)]

mod conversions;
mod items;
pub mod laws;
mod letters;
mod numbers;
mod strftime;

pub use strftime::parse_strftime_borrowed;

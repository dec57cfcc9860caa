//! Formats of lines by name: each name stands for a language and a description.
#![tactic(auto)]

mod format;
pub mod laws;
mod named;
mod table;

pub use format::{Format, Lacking};
pub use named::{format_named, formats};

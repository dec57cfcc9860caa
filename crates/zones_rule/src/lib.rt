//! The rules of zones, by which their clocks change each year: as text, and as a list of changes.
#![tactic(auto)]

mod cut;
mod footer;
mod rule;
mod steps;
mod years;

pub use footer::{Footer, read_rule};
pub use rule::{Change, Day, Names, Rule, Summer};

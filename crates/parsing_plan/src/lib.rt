//! Plans, by which lines of a description are read at once.
#![tactic(auto)]

mod parts;
mod places;
mod plan;
mod read;
mod unix;

pub use places::Places;
pub use plan::{Plan, PlanAt};
pub use read::{SplitPlaces, WholePlaces};
pub use unix::UnixTime;

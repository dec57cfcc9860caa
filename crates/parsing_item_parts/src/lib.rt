//! The parts of descriptions: what a text says by them, the items of the description read.
#![tactic(auto)]

mod list;
mod listed;
mod minutes;
mod nodes;
mod parts;
mod reading;

pub use list::{Items, Parts};
pub use listed::Listed;
pub use minutes::Minutes;
pub use parts::part_of;
pub use reading::ListedAt;

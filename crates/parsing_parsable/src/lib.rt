//! What bytes can be read by: descriptions, and RFC 3339, RFC 2822 and ISO 8601, each read into a record of components.
#![tactic(auto)]

mod by_item;
mod by_items;
mod by_reference;
mod by_tree;
mod iso8601;
pub mod laws;
mod nodes;
mod parsable;
mod rfc2822;
mod rfc3339;
mod two_roads;
mod zone;

pub use by_items::Items;
pub use iso8601::read_iso8601;
pub use nodes::{nodes_in_description, nodes_in_items};
pub use parsable::Parsable;
pub use rfc2822::read_rfc2822;
pub use rfc3339::read_rfc3339;
pub use two_roads::TwoRoads;

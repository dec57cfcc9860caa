//! The record of components that a description or a format reads into, and reading by items and trees.
#![tactic(auto)]

mod clock;
mod conversions;
mod days;
mod items;
mod node;
mod offset;
mod parsed;
mod reading;
mod tally;
mod tree;
mod usual;
mod years;

pub use node::ReadsNode;
pub use parsed::Parsed;
pub use parsing_components::{Node, NodeStep};
pub use reading::parse_nodes;
pub use tally::{ItemTally, NoTally, Tally};
pub use tree::parse_tree;

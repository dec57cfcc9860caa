//! The sources of lines: what a line may be written in, read from what words say of it.
#![tactic(auto)]

mod described;
mod moment;
mod named;
mod nodes;
mod ruled_out;
mod source;

pub use described::Described;
pub use moment::{directly_named, is_no_rfc3339};
pub use named::Named;
pub use source::{Source, starting};

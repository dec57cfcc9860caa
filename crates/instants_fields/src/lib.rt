//! The part of a line that is one field: a member of an object in JSON, or a column.
#![tactic(auto)]

mod columns;
mod json;
pub mod laws;
mod plain;
mod space;
mod string;
mod value;

pub use columns::{Part, Separator, column};
pub use json::{Member, json_member};
pub use plain::first_escape;

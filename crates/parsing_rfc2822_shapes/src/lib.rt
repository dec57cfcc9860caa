//! The fast way to read RFC 2822: the shapes that nearly all its texts have, by layouts.
#![tactic(auto)]

mod fields;
mod letters;
mod shape;

pub use fields::{read_fast, read_fields, read_other_fields, read_usual_fields};

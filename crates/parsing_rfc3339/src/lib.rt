//! The readings of RFC 3339: the numbers of a text, and the moment that it names.
#![tactic(auto)]

mod direct;
pub mod laws;
mod parts;
mod reading;
mod shape;

pub use direct::{
    begins_with_year, is_like_whole, read_exact, read_fast, read_fields, read_rare_fields,
    read_usual_fields,
};
pub use parts::Rfc3339Parts;
pub use reading::parse_prefix;

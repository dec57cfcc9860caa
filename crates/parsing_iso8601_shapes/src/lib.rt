//! The fast way to read ISO 8601: the shapes that nearly all its texts have, by the places of their parts.
#![tactic(auto)]

mod calendar_days;
mod form;
mod forms;
mod moment;

pub use moment::{
    read_fast, read_fields, read_fields_to_minute, read_rare_fields, read_usual_fields,
};

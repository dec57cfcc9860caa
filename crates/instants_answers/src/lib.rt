//! The answer to a line, the line of a moment, and that lines compare as bytes as their instants.
#![tactic(auto)]

mod answer;
mod digits;
mod fields;
mod fields_line;
mod fill;
pub mod laws;
mod line;
mod minutes;
mod moved;
mod target;
mod utc_line;

pub use answer::Answer;
pub use fields_line::write_fields;
pub use fill::{fill_fields, fill_text};
pub use line::{fits_line, has_written_year, is_target, rfc3339_line, write_line};
pub use target::Target;
pub use utc_line::{fits_utc_line, utc_line_by_timestamp, utc_line_by_utc};

//! Dates inside lines onto one timeline: each line is written after the key of its date, or with the date-time in
//! place of it.
//!
//! ```
//! let words = ["key", "+00:00", "-", "100", "rfc3339"];
//! run_words(alloc, &words, &mut reader, &mut writer)?;
//! ```
//!
//! - `Mode` says what is written for a line.
//! - `run_words` is all that the program `instants-lines` does between its words and its end. `LinesFault` has the
//!   sentence and the status.
//! - `OpenLines` has what words ask for, made ready once, and its `LineWriter` the key or the date of one line after another.
//! - `laws` has what follows from the contracts. A call of a law hands it to a proof.
#![tactic(auto)]

mod above;
mod date_sources;
mod decimals;
mod depth;
mod explained;
mod known;
mod lacking;
pub mod laws;
mod line_date;
mod line_part;
mod line_writer;
mod lines_fault;
mod located;
mod open_lines;
mod parts;
mod program;

pub use above::Above;
pub use instants_lines_words::{Mode, WrongWords, zone_named};
pub use instants_timeline::{
    BlockWriter, ByteReader, ByteWriter, NewFault, ProgramFault, RunFault, StdReader, StdWriter,
    WordsFault,
};
pub use lacking::Lacking;
pub use line_date::LineDate;
pub use line_writer::LineWriter;
pub use lines_fault::LinesFault;
pub use open_lines::OpenLines;
pub use program::run_words;

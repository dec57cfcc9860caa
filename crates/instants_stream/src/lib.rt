//! What is written for each line of a stream, as the stream is read, and what a run reads from and writes to.
#![tactic(auto)]

mod answered;
mod answers_lines;
mod block_writer;
mod came;
mod cut_reader;
mod cut_writer;
mod devices;
pub mod laws;
mod over;
mod put;
mod run;
mod search;
mod std_reader;
mod std_writer;
mod writes_lines;

pub use answered::run_lines;
pub use answers_lines::AnswersLines;
pub use block_writer::BlockWriter;
pub use cut_reader::CutReader;
pub use cut_writer::CutWriter;
pub use devices::{ByteReader, ByteWriter, DeviceFailed};
pub use over::lines_over;
pub use put::TooLittleRoom;
pub use run::{RunFault, write_lines};
pub use search::line_len;
pub use std_reader::StdReader;
pub use std_writer::StdWriter;
pub use writes_lines::WritesLines;

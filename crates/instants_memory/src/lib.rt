//! The program `instants` over memory: lines out of one slice, answers into another.
//!
//! ```
//! let mut output = [0; 100];
//! let words = ["+00:00", "-", "100", "rfc3339"];
//! let len = answer_lines(alloc, &words, b"2021-01-02T04:04:05+01:00\n", &mut output)?;
//! assert!(rt; &output[..len] == b"2021-01-02T03:04:05.000000000Z\n".as_slice());
//! ```
//!
//! - `answer_lines` does what the program does between its words and its end. It takes the words as `run_words` does, and
//!   its faults are those of `ProgramFault`; of these `Write` says that the output is too short.
//! - `moments_over` has each line's moment as numbers in place of a text, or the number of its fault, by a timeline.
//! - `laws` has what follows for an input that is answered block by block, and how numbers and texts agree.
#![tactic(auto)]

mod answers;
pub mod laws;
mod moments;
mod numbers;

pub use answers::{LINE_ROOM, answer_lines};
pub use moments::{Moment, first_line, moments_over};

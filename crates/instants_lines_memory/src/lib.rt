//! The program `instants-lines` over memory: lines out of one slice, and their keys or dates into another.
//!
//! ```
//! let words = ["key", "rfc3339"];
//! let lines = OpenLines::of_words(alloc, &words, None)?;
//! let mut output = [0; 100];
//! let len = keys_over(&lines, None, &mut Above::new(), b"at 2021-01-02T04:04:05+01:00\n", &mut output)?;
//! assert!(rt; &output[..len] == b"2021-01-02T03:04:05.000000000Z\tat 2021-01-02T04:04:05+01:00\n".as_slice());
//! ```
//!
//! - `keys_over` writes each line after its key, as the program does in modes `key` and `carry`.
//! - `dates_over` has each line's date as numbers in place of a key, and where it is, or the number of why there is none.
//! - `ZonedLines` has all that words ask for and the clock of a zone, by the bytes of the zone's file.
#![tactic(auto)]

mod dates;
mod keys;
mod open_fault;
mod put;
mod zoned_lines;

pub use dates::dates_over;
pub use instants_lines::{Above, LineDate, LinesFault, OpenLines};
pub use instants_stream::TooLittleRoom;
pub use keys::keys_over;
pub use open_fault::OpenFault;
pub use zoned_lines::ZonedLines;

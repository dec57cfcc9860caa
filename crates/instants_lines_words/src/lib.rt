//! The arguments of `instants-lines`: what they ask for, or the first thing that is wrong with them.
//!
//! ```
//! let words = ["carry", "+00:00", "-", "64", "label", "web", "access-log"];
//! let (asked, words) = read_mode_words(alloc, &words)?;
//! ```
//!
//! - `Asked` is the mode, what is given for dates that lack it, the part of lines in which dates are, and the label.
//! - `read_mode_words` gives it with the words of `instants` after it: those that are left out are filled in, and names of
//!   formats are spelled out.
//! - `zone_named` gives the name of the zone that stands in place of the assumed offset, whatever else is wrong.
//! - `WrongWords` says what is wrong.
#![tactic(auto)]

mod asked;
mod asked_words;
mod file_name;
mod filled;
pub mod laws;
mod line_part;
mod mode;
mod spelled;
mod words;
mod words_fault;
mod wrong_source;
mod wrong_words;
mod zone;

pub use asked::Asked;
pub use filled::zone_named;
pub use line_part::LinePart;
pub use mode::Mode;
pub use words::read_mode_words;
pub use words_fault::ModeWordsFault;
pub use wrong_words::WrongWords;

//! The words of the program: an offset to show moments in, an offset to assume, a limit, and sources.
#![tactic(auto)]

mod fault;
pub mod pieces;
mod sources;
mod text_words;
mod words;

pub use fault::WordsFault;
pub use sources::{SourceText, Sources};
pub use text_words::fault_in_text;
pub use words::{Words, read_words};

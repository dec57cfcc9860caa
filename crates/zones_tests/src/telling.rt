//! What telling an answer comes to.

use std::alloc::AllocError;
use std::str;

/// An answer is told, or memory ran out.
pub type Told = Result<(), AllocError>;

/// Tells that there is no such question, or that a number can't be read.
pub fn tell_no_answer(told: &mut String) -> Told {
    told.push_str("?\n")
}

/// An abbreviation as text.
pub fn text_of(name: &[u8]) -> &str {
    str::from_utf8(name).unwrap_or("?")
}

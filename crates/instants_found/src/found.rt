//! A date that was found.

use instants_sources::Named;

/// A date inside a line.
#[derive(Drop)]
pub struct Found {
    /// The place of the first byte that says something of it.
    pub start: usize,
    /// The place after the last such byte, and after the word of a zone that the text of its description has there.
    pub end: usize,
    /// The number of the source that reads it, from 0.
    pub source: usize,
    /// The moment that it names.
    pub moment: Named,
}

/// What a line has where a source reads a date in it.
#[derive(Drop)]
pub enum Finding {
    /// Dates are read at this place, and none of them stands whole.
    Doubtful(usize),
    /// The date of the line.
    There(Found),
}

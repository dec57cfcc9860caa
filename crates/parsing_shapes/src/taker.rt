//! What takes the parts of a text.

use parsing_places::Windows;

/// Two windows that take parts, and the lanes that are theirs.
#[derive(Clone, Copy)]
pub(crate) struct Taker {
    pub(crate) windows: Windows,
    /// Whether those of a date and of a time of day are.
    pub(crate) has_clock: bool,
    /// Whether those of an offset are.
    pub(crate) has_offset: bool,
    /// How many bytes the parts have.
    pub(crate) length: usize,
    /// Where the year stands, which no lanes take.
    pub(crate) year: Option<usize>,
}

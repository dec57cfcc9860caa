//! Why words are refused.

/// Why words are refused, in the order in which they are looked at.
#[derive(Clone, Copy, Debug, PartialEq, Eq)]
pub enum WordsFault {
    /// There are fewer than four.
    Usage,
    /// The first is no offset `+HH:MM` or `-HH:MM` of at most 23:59.
    Target,
    /// The second is no such offset, and not `-`.
    Assumed,
    /// The third is not a number from 1 to 1048576, in one to seven digits.
    Limit,
    /// The source in this place, counted from 1, is not known, or is a language with no word after it.
    Source(usize),
    /// Memory ran out. The words themselves are fine.
    Memory,
}

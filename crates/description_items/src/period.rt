//! The halves of a day.

/// The half of the day that an hour of the 12-hour clock stands in.
#[derive(Clone, Copy, Debug, PartialEq, Eq)]
pub enum Period {
    /// Before noon.
    Am,
    /// From noon on.
    Pm,
}

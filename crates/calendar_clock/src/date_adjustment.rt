//! The day that a time of day leads to when it is moved.

/// The day that a time of day leads to when it is moved.
#[derive(Clone, Copy, Debug, PartialEq, Eq)]
pub enum DateAdjustment {
    /// The day before.
    Previous,
    /// The day after.
    Next,
    /// The same day.
    None,
}

//! Why a date that a source reads is in doubt.

/// Why a date does not stand whole in its line. Where there are several reasons, it is the first of these.
#[derive(Clone, Copy)]
pub enum Doubt {
    /// A word or a clock goes on after it.
    After,
    /// A clock with seconds stands before it, and no text of its description chose its place.
    ClockBefore,
    /// The clock of the zone that was given for it was put forward over it.
    Skipped,
    /// The clock of the zone was put back over it, and it shows it more than once.
    Repeated,
    /// The line says another offset after it than the one that was given for it, or inside of it.
    AnotherOffset,
    /// The line says a half of the day after it, and it has none; or a clock beside it, and its time of day was given for it.
    AnotherTime,
    /// The line says another year beside it than the one that was given for it.
    AnotherYear,
}

/// A date inside a line that a source reads, and that is in doubt.
#[derive(Clone, Copy)]
pub struct Doubted {
    /// The place of the first byte that says something of it.
    pub start: usize,
    /// The place after the last such byte, and after the word of a zone that the text of its description has there.
    pub end: usize,
    /// Why it is in doubt.
    pub doubt: Doubt,
}

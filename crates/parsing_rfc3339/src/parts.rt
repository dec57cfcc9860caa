//! What a text of RFC 3339 says.

use parsing_combinator::Zone;

/// The numbers that the text has.
#[derive(Clone, Copy, Debug, PartialEq, Eq)]
pub struct Rfc3339Parts {
    pub year: u16,
    pub month: u8,
    pub day: u8,
    pub hour: u8,
    pub minute: u8,
    pub second: u8,
    /// Nanoseconds, where the text has a fraction.
    pub subsecond: Option<u32>,
    pub zone: Zone,
}

//! What a text of RFC 2822 says.

use calendar_count::{Month, Weekday};
use parsing_combinator::Zone;

/// What the text says.
#[derive(Clone, Copy, Debug, PartialEq, Eq)]
pub struct Rfc2822Parts {
    pub weekday: Option<Weekday>,
    pub day: u8,
    pub month: Month,
    pub year: u16,
    pub hour: u8,
    pub minute: u8,
    pub second: Option<u8>,
    pub zone: Zone,
}

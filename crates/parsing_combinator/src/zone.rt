//! The offset that a text has.

/// The offset that a text has.
#[derive(Clone, Copy, Debug, PartialEq, Eq)]
pub struct Zone {
    /// Whether the text has a name in place of hours and minutes.
    pub is_named: bool,
    /// Whether the zone is west of Greenwich. It is so said of every zone of RFC 2822 with a name, also of one with no
    /// hours.
    pub is_negative: bool,
    /// The hours without their sign.
    pub hours: u8,
    /// The minutes past the hour, without their sign.
    pub minutes: u8,
}

//! A zone, and what a reading of its clock names.
ghost use Rattle.zones_clock.specs.Steps.{InOrder, AreOffsets, HasBytes, IsOffset};

/// The most that a clock may be ahead of UTC or behind it, in seconds, is less than this: 26 hours (RFC 9636, section 3.2,
/// wants -25 to 26).
pub const OFFSET_BOUND: i64 = 93_600;

/// From an instant on, in seconds since 1970-01-01T00:00:00Z, a clock is `offset` seconds ahead of UTC. Its abbreviation
/// stands at the place `name` of the zone's letters.
#[derive(Clone, Copy, Debug, PartialEq, Eq)]
pub struct Step {
    pub from: i64,
    pub offset: i32,
    pub name: u16,
}

/// A zone's clock: ahead of UTC by `first` seconds before the first step, and from each step on as it says. An abbreviation is
/// the letters from its place up to the next byte 0.
#[derive(Drop)]
pub struct Zone {
    pub first: i32,
    pub first_name: u16,
    pub steps: Vec<Step>,
    pub letters: Vec<u8>,
    pub(crate) bytes: [bool; 256],
    pub ghost first_offset: { IsOffset first },
    pub ghost offsets: { AreOffsets steps.items },
    pub ghost ordered: { InOrder steps.items },
    ghost has_bytes: { HasBytes bytes letters.items },
}

/// The moments at which a zone's clock shows a reading, in seconds since 1970-01-01T00:00:00Z.
#[derive(Clone, Copy, Debug, PartialEq, Eq)]
pub enum Moments {
    /// There is none: the clock was put forward over the reading.
    Skipped,
    /// There is exactly one.
    One(i64),
    /// There are two, the earlier first: the clock was put back over the reading.
    Repeated(i64, i64),
    /// There are three or more: the clock was put back over the reading more than once. These are the first three.
    Several(i64, i64, i64),
}

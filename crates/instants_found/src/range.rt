//! A range of bytes that all lanes of vectors are compared with.
ghost use Rattle.std.specs.Prelude.{◌≡◌};
ghost use Rattle.instants_found.specs.Ranges.{is_within};

use crate::spread::Spread;

/// Bytes from one on, and how many come after it: after 255 comes 0.
#[derive(Clone, Copy)]
pub(crate) struct Range {
    pub(crate) low: Spread,
    pub(crate) span: Spread,
}

impl Range {
    /// The bytes from one up to another.
    pub(crate) fn of(least: u8, most: u8) -> Range {
        Range {
            low: Spread::of(least),
            span: Spread::of(most.wrapping_sub(least)),
        }
    }

    /// Whether a byte is among them.
    pub(crate) fn has(&self, byte: u8) -> bool
        ensures { result ≡ is_within self.now byte }
    {
        byte.wrapping_sub(self.low.byte) <= self.span.byte
    }
}

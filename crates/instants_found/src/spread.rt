//! A byte that all lanes of vectors are compared with.
ghost use Rattle.std.specs.Prelude.{◌≡◌, replicate};

use crate::lanes::LANES;

/// A byte as often as there are lanes. It is kept so, since it would take three instructions a line to spread it.
#[derive(Clone, Copy)]
pub(crate) struct Spread {
    pub(crate) byte: u8,
    pub(crate) lanes: [u8; LANES],
    ghost spread: { lanes ≡ replicate 16 byte },
}

impl Spread {
    /// This byte.
    pub(crate) fn of(byte: u8) -> Spread
        ensures { result.byte ≡ byte }
    {
        Spread {
            byte,
            lanes: [byte; LANES],
        }
    }
}

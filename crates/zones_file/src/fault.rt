//! Why a file is no zone.
ghost use Rattle.std.specs.Prelude.{◌≡◌};
ghost use Rattle.zones_file.specs.declared.fault.ZoneFault.TheVariants.{Memory};

use std::alloc::AllocError;

/// Why bytes are refused as a zone's file, or that there is no memory for them.
#[derive(Clone, Copy, Debug, PartialEq, Eq)]
pub enum ZoneFault {
    /// There are more bytes than a zone's file may have.
    Long,
    /// A header does not begin with `TZif`, its counts cannot stand together, or the last abbreviation does not end.
    Header,
    /// A version that is not known.
    Version,
    /// A header or a block of data is cut off.
    Length,
    /// The file counts leap seconds, so that its instants are not those of UTC without them.
    LeapSeconds,
    /// A transition is to a type that is not there, or to one whose abbreviation is not there.
    UnknownType,
    /// An offset is not less than 26 hours.
    Offset,
    /// A transition does not come after the one before it.
    Order,
    /// The rule for what comes after the last transition cannot be read.
    Footer,
    /// By that rule the clock is changed in a year before it was changed in the year before.
    Crossing,
    /// By that rule the clock has another offset at the last transition than by the table.
    Disagrees,
    /// There is no memory.
    Memory,
}

impl From<AllocError> for ZoneFault {
    ghost from_gives = { λ _ fault. fault ≡ Memory };

    fn from(_: AllocError) -> ZoneFault {
        ZoneFault::Memory
    }
}

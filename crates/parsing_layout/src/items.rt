//! Parts that may be missing.

use crate::parts::Part;

/// An item of a layout.
#[derive(Clone, Copy)]
pub enum Item {
    /// A part that has to be there.
    Part(Part),
    /// This byte and a part after it, or neither where the byte is not there.
    Optional(u8, Part),
}

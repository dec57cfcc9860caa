//! Descriptions of version 3.

ghost use Rattle.std.specs.Prelude.{◌≡◌};
ghost use Rattle.description_tree.specs.Inner.{inner_tree};
ghost use Rattle.description_tree.specs.Reserved.{reserved};

mod calls;

use crate::inner::FormatDescriptionV3Inner;

/// A description of version 3: a tree, and the bytes that it reserves. `Parsable` of `parsing` reads by it.
#[derive(Drop)]
pub struct FormatDescriptionV3<'a> {
    inner: FormatDescriptionV3Inner<'a>,
    max_bytes_needed: usize,
    ghost exact: { reserved (inner_tree inner) ≡ max_bytes_needed },
}

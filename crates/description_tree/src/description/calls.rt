//! What a description of version 3 has.

ghost use Rattle.std.specs.Prelude.{◌≡◌, ◌^◌, ◌≤◌, ◌↔◌, true, IsErr, IfOk, IfErr};
ghost use Rattle.description_tree.specs.Description.{v3_node, v3_tree};
ghost use Rattle.description_tree.specs.Forms.{is_owned};
ghost use Rattle.description_tree.specs.Inner.{inner_tree};
ghost use Rattle.description_tree.specs.Reserved.{reserved, IsLongest};

use crate::FormatDescriptionV3;
use crate::inner::FormatDescriptionV3Inner;
use crate::owned::owned;
use crate::reserved::reserved;
use std::alloc::{AllocError, Global};

impl<'a> FormatDescriptionV3<'a> {
    /// Its tree.
    pub fn inner(&self) -> &FormatDescriptionV3Inner<'a>
        ensures node { result.now ≡ v3_node self.now }
        ensures tree { inner_tree result.now ≡ v3_tree self.now }
    {
        &self.inner
    }

    /// The bytes that its longest text takes, over all values that the calendar has.
    pub fn max_bytes_needed(&self) -> usize
        ensures value { result ≡ reserved (v3_tree self.now) }
        ensures longest { IsLongest (v3_tree self.now) result }
    {
        self.max_bytes_needed
    }

    /// The same with a tree that lends nothing, so that it outlives the text it was read from.
    ///
    /// Refused where memory runs out.
    pub fn to_owned<'b>(&self, alloc: Global) -> Result<FormatDescriptionV3<'b>, AllocError>
        ensures tree { IfOk result (λ copy. v3_tree copy ≡ v3_tree self.now) }
        ensures owned { IfOk result (λ copy. is_owned (v3_node copy) ≡ true) }
    {
        Ok(FormatDescriptionV3 {
            inner: owned(alloc, &self.inner)?,
            max_bytes_needed: self.max_bytes_needed,
        })
    }
}

impl<'a> FormatDescriptionV3Inner<'a> {
    /// The description whose tree it is, or itself where the bytes reserved do not fit `usize`.
    pub fn into_opaque(self) -> Result<FormatDescriptionV3<'a>, FormatDescriptionV3Inner<'a>>
        ensures refused { IsErr result ↔ (2 ^ 64 ≤ reserved (inner_tree self.entry)) }
        ensures tree { IfOk result (λ description. v3_tree description ≡ inner_tree self.entry) }
        ensures node { IfOk result (λ description. v3_node description ≡ self.entry) }
        ensures kept { IfErr result (λ node. node ≡ self.entry) }
    {
        match reserved(&self) {
            Some(max_bytes_needed) => Ok(FormatDescriptionV3 {
                inner: self,
                max_bytes_needed,
            }),
            None => Err(self),
        }
    }
}

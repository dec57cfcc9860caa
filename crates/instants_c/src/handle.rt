//! What a handle in C's memory is.
ghost use Rattle.std.specs.Prelude.{◌≡◌, Option, Some};
ghost use Rattle.instants_c.specs.declared.kept.Kept.{Kept};
ghost use Rattle.instants_c.specs.Held.{kept_coded};

use crate::kept::Kept;
use crate::parts::Parts;
use std::alloc::Global;
use std::marker::Model;

/// A handle in C's memory: closed, or what is kept and the right to free it.
#[repr(C)]
pub struct Handle {
    at: *mut u8,
    pub ghost kept: { Option Kept } by { kept_coded },
}

impl Model for Handle {
    ghost use Rattle.instants_c.specs.Held.{held};

    ghost also_owns = { λ h. held h.at h.kept };
}

impl Handle {
    /// The handle of what is kept.
    pub(crate) fn of(parts: Parts<Kept, Global>) -> Handle
        ensures { result.kept ≡ Some parts.value }
    {
        let Parts { ptr, alloc: _ } = parts;
        Handle { at: ptr as *mut u8 }
    }

    // What an open handle keeps is never freed then.
    pub(crate) fn forget(self) {
        let Handle { at: _ } = self;
    }
}

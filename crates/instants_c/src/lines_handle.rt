//! What a handle in C's memory is.
ghost use Rattle.std.specs.Prelude.{◌≡◌, Option, Some};
ghost use Rattle.instants_c.specs.declared.lines_kept.KeptLines.{KeptLines};
ghost use Rattle.instants_c.specs.LinesHeld.{kept_coded};

use crate::lines_kept::KeptLines;
use crate::parts::Parts;
use std::alloc::Global;
use std::marker::Model;

/// A handle for lines in C's memory: closed, or what is kept and the right to free it.
#[repr(C)]
pub struct LinesHandle {
    at: *mut u8,
    pub ghost kept: { Option KeptLines } by { kept_coded },
}

impl Model for LinesHandle {
    ghost use Rattle.instants_c.specs.LinesHeld.{held};

    ghost also_owns = { λ h. held h.at h.kept };
}

impl LinesHandle {
    /// The handle of what is kept.
    pub(crate) fn of(parts: Parts<KeptLines, Global>) -> LinesHandle
        ensures { result.kept ≡ Some parts.value }
    {
        let Parts { ptr, alloc: _ } = parts;
        LinesHandle { at: ptr as *mut u8 }
    }

    // What an open handle keeps is never freed then.
    pub(crate) fn forget(self) {
        let LinesHandle { at: _ } = self;
    }
}

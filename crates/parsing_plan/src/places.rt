//! Where the parts of a line stand.
ghost use Rattle.std.specs.Prelude.{◌≡◌, ◌<◌, ◌≤◌, true, false, None};
ghost use Rattle.std.specs.Option.{ForNone, ForSome};
ghost use Rattle.parsing_item_parts.specs.Items.{parts_kept};
ghost use Rattle.parsing_shapes.specs.Front.{fits_beside};
ghost use Rattle.parsing_layout.specs.Said.{fields_of};
ghost use Rattle.parsing_plan.specs.Parts.{IsPlain, IsSplit, SayMoment};

mod calls;

use parsing_item_parts::Parts;
use parsing_places::LastBytes;
use parsing_shapes::Front;

/// What follows a fraction of a second of any number of digits.
#[derive(Clone, Copy)]
pub(crate) struct Back {
    /// How many parts stand before the fraction.
    pub(crate) count: usize,
    /// The bytes after it, and the lanes that take its offset.
    pub(crate) last: LastBytes,
}

/// As many bytes as no line has.
pub(crate) const NEVER: usize = usize::MAX;

/// Where each part of a line stands, for a description whose parts all have fixed widths, but for a fraction of a second.
#[derive(Clone, Copy)]
pub struct Places {
    /// All parts, or those before a fraction of any number of digits.
    pub(crate) front: Front,
    /// What follows such a fraction, where there is one.
    pub(crate) back: Option<Back>,
    /// The bytes of a line, where they are sixteen or more, a month is named, an offset is written and nothing else is read beside
    /// lanes, and else as many as no line has.
    pub(crate) plain_length: usize,
    pub(crate) parts: Parts,
    ghost says: { SayMoment front.beside back (fields_of (parts_kept parts)) },
    ghost whole: { ForNone back (fits_beside front.shape front.beside (parts_kept parts) ≡ true) },
    ghost own: { ForNone back (front.shape.has_tail ≡ false) },
    ghost split: { ForSome back (λ b. IsSplit front b.count b.last (parts_kept parts)) },
    ghost plain: { plain_length < 18_446_744_073_709_551_615
        → IsPlain front plain_length × (back ≡ None) },
}

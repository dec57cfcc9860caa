//! The front of texts, whose parts lanes take, or that are read beside them.
ghost use Rattle.std.specs.Prelude.{◌≡◌, true};
ghost use Rattle.parsing_shapes.specs.Beside.{is_ready};

mod calls;

use crate::shape::Shape;

/// Where the parts stand that are read beside lanes.
#[derive(Clone, Copy)]
pub struct Beside {
    /// The short name of a month.
    pub month: Option<usize>,
    /// A day of two bytes, the first of which may be a space.
    pub day: Option<usize>,
    /// The short name of a weekday.
    pub weekday: Option<usize>,
    /// The digits of a fraction of a second, and how many they are.
    pub fraction: Option<(usize, usize)>,
    /// Whether an offset is written, by lanes or after the parts.
    pub has_offset: bool,
}

/// A shape, and what is read beside its lanes.
#[derive(Clone, Copy)]
pub struct Front {
    pub shape: Shape,
    pub beside: Beside,
    ghost ready: { is_ready shape beside ≡ true },
}

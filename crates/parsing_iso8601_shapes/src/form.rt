//! How the parts of a text stand in it.
ghost use Rattle.std.specs.Prelude.{◌≡◌, true, false};

use parsing_shapes::Shape;

/// What names the day of a date after its year.
#[derive(Clone, Copy)]
pub(crate) enum Dating {
    /// A month and a day of it, as `04-12`.
    Calendar,
    /// A day of the year, as `102`.
    Ordinal,
    /// A week and a day of it, as in `1985W155`.
    Week,
}

/// The layout of a date and a time of day.
#[derive(Clone, Copy)]
pub(crate) struct Form {
    pub(crate) shape: Shape,
    pub(crate) dating: Dating,
    /// Whether hyphens and colons stand between the numbers.
    pub(crate) is_extended: bool,
    ghost tail: { shape.has_tail ≡ true },
}

//! The refusal of a name that names nothing.
use std::fmt;

/// A text was not exactly one of the names of months or of days of the week.
#[derive(Clone, Copy, Debug, PartialEq, Eq)]
pub struct InvalidVariant;

impl fmt::Display for InvalidVariant {
    ghost use Rattle.std.specs.Prelude.{Some, codes};
    ghost use Rattle.std.specs.Fmt.{styled_text};

    ghost output = { λ _. Some (codes "value was not a valid variant") };

    ghost styled_output = { λ _ s. Some (styled_text s (codes "value was not a valid variant")) };

    fn fmt<W: fmt::Write>(&self, f: &mut fmt::Formatter<W>) -> fmt::Result {
        f.pad("value was not a valid variant")
    }
}

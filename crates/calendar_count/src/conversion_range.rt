//! The refusal of a conversion.
use std::fmt;

/// A value was out of the range of the type that it was to be converted to: a duration of std that is too long for one
/// with a sign, or one with a sign that leads back.
#[derive(Clone, Copy, Debug, PartialEq, Eq)]
pub struct ConversionRange;

impl fmt::Display for ConversionRange {
    ghost use Rattle.std.specs.Prelude.{Some, codes};
    ghost use Rattle.std.specs.Fmt.{styled_text};

    ghost output = { λ _. Some (codes "value out of range for the target type") };

    ghost styled_output = { λ _ s. Some
        (styled_text s (codes "value out of range for the target type")) };

    fn fmt<W: fmt::Write>(&self, f: &mut fmt::Formatter<W>) -> fmt::Result {
        f.pad("value out of range for the target type")
    }
}

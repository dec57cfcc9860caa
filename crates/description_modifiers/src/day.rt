//! Days of a month and of a year.
ghost use Rattle.std.specs.Prelude.{◌≡◌};
ghost use Rattle.description_modifiers.specs.declared.choices.Padding.TheVariants as Padding;

use crate::choices::Padding;

/// The day of the month, 1 to 31, two digits wide: `[day]`.
#[derive(Clone, Copy, Debug, PartialEq, Eq)]
pub struct Day {
    /// How the number is filled up to its width.
    pub padding: Padding,
}

impl Default for Day {
    ghost is_default = { λ x. x ≡ record { padding = Padding.Zero } };

    fn default() -> Day {
        Day {
            padding: Padding::Zero,
        }
    }
}

impl Day {
    /// The same with this padding.
    pub fn with_padding(self, padding: Padding) -> Day
        ensures value { result ≡ record self { padding = padding } }
    {
        Day { padding }
    }
}

/// The day of the year, 1 to 366, three digits wide: `[ordinal]`.
#[derive(Clone, Copy, Debug, PartialEq, Eq)]
pub struct Ordinal {
    /// How the number is filled up to its width.
    pub padding: Padding,
}

impl Default for Ordinal {
    ghost is_default = { λ x. x ≡ record { padding = Padding.Zero } };

    fn default() -> Ordinal {
        Ordinal {
            padding: Padding::Zero,
        }
    }
}

impl Ordinal {
    /// The same with this padding.
    pub fn with_padding(self, padding: Padding) -> Ordinal
        ensures value { result ≡ record self { padding = padding } }
    {
        Ordinal { padding }
    }
}

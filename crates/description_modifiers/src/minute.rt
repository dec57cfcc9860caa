//! Minutes, seconds and fractions.
ghost use Rattle.std.specs.Prelude.{◌≡◌};
ghost use Rattle.description_modifiers.specs.declared.choices.Padding.TheVariants as Padding;
ghost use Rattle.description_modifiers.specs.declared.choices.SubsecondDigits.TheVariants as SubsecondDigits;

use crate::choices::{Padding, SubsecondDigits};

/// The minute of the hour, 0 to 59, two digits wide: `[minute]`.
#[derive(Clone, Copy, Debug, PartialEq, Eq)]
pub struct Minute {
    /// How the number is filled up to its width.
    pub padding: Padding,
}

impl Default for Minute {
    ghost is_default = { λ x. x ≡ record { padding = Padding.Zero } };

    fn default() -> Minute {
        Minute {
            padding: Padding::Zero,
        }
    }
}

impl Minute {
    /// The same with this padding.
    pub fn with_padding(self, padding: Padding) -> Minute
        ensures value { result ≡ record self { padding = padding } }
    {
        Minute { padding }
    }
}

/// The second of the minute, 0 to 60, two digits wide: `[second]`. Of 60 a moment is made only where the record
/// permits a leap second, and a time of day never.
#[derive(Clone, Copy, Debug, PartialEq, Eq)]
pub struct Second {
    /// How the number is filled up to its width.
    pub padding: Padding,
}

impl Default for Second {
    ghost is_default = { λ x. x ≡ record { padding = Padding.Zero } };

    fn default() -> Second {
        Second {
            padding: Padding::Zero,
        }
    }
}

impl Second {
    /// The same with this padding.
    pub fn with_padding(self, padding: Padding) -> Second
        ensures value { result ≡ record self { padding = padding } }
    {
        Second { padding }
    }
}

/// The fraction of the second, without its point: `[subsecond]`. Digits after the ninth are cut off.
#[derive(Clone, Copy, Debug, PartialEq, Eq)]
pub struct Subsecond {
    /// How many digits are written.
    pub digits: SubsecondDigits,
}

impl Default for Subsecond {
    ghost is_default = { λ x. x ≡ record { digits = SubsecondDigits.OneOrMore } };

    fn default() -> Subsecond {
        Subsecond {
            digits: SubsecondDigits::OneOrMore,
        }
    }
}

impl Subsecond {
    /// The same with so many digits.
    pub fn with_digits(self, digits: SubsecondDigits) -> Subsecond
        ensures value { result ≡ record self { digits = digits } }
    {
        Subsecond { digits }
    }
}

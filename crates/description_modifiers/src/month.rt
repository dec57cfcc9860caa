//! Months.
ghost use Rattle.std.specs.Prelude.{◌≡◌, true};
ghost use Rattle.description_modifiers.specs.declared.choices.MonthRepr.TheVariants as MonthRepr;
ghost use Rattle.description_modifiers.specs.declared.choices.Padding.TheVariants as Padding;

use crate::choices::{MonthRepr, Padding};

/// A month by the first three letters of its English name: `[month repr:short]`.
#[derive(Clone, Copy, Debug, PartialEq, Eq)]
pub struct MonthShort {
    /// Whether reading tells capitals from small letters.
    pub case_sensitive: bool,
}

impl Default for MonthShort {
    ghost is_default = { λ x. x ≡ record { case_sensitive = true } };

    fn default() -> MonthShort {
        MonthShort {
            case_sensitive: true,
        }
    }
}

impl MonthShort {
    /// The same with reading told to heed the case of letters, or not.
    pub fn with_case_sensitive(self, case_sensitive: bool) -> MonthShort
        ensures value { result ≡ record self { case_sensitive = case_sensitive } }
    {
        MonthShort { case_sensitive }
    }
}

/// A month by its English name: `[month repr:long]`.
#[derive(Clone, Copy, Debug, PartialEq, Eq)]
pub struct MonthLong {
    /// Whether reading tells capitals from small letters.
    pub case_sensitive: bool,
}

impl Default for MonthLong {
    ghost is_default = { λ x. x ≡ record { case_sensitive = true } };

    fn default() -> MonthLong {
        MonthLong {
            case_sensitive: true,
        }
    }
}

impl MonthLong {
    /// The same with reading told to heed the case of letters, or not.
    pub fn with_case_sensitive(self, case_sensitive: bool) -> MonthLong
        ensures value { result ≡ record self { case_sensitive = case_sensitive } }
    {
        MonthLong { case_sensitive }
    }
}

/// A month by its number, 1 to 12, two digits wide: `[month]`.
#[derive(Clone, Copy, Debug, PartialEq, Eq)]
pub struct MonthNumerical {
    /// How the number is filled up to its width.
    pub padding: Padding,
}

impl Default for MonthNumerical {
    ghost is_default = { λ x. x ≡ record { padding = Padding.Zero } };

    fn default() -> MonthNumerical {
        MonthNumerical {
            padding: Padding::Zero,
        }
    }
}

impl MonthNumerical {
    /// The same with this padding.
    pub fn with_padding(self, padding: Padding) -> MonthNumerical
        ensures value { result ≡ record self { padding = padding } }
    {
        MonthNumerical { padding }
    }
}

/// A month in any representation, as versions 1 and 2 had it first: the three above say the same
/// with only the modifiers that matter there.
#[derive(Clone, Copy, Debug, PartialEq, Eq)]
pub struct Month {
    /// How the number is filled up to its width.
    pub padding: Padding,
    /// How the month is written.
    pub repr: MonthRepr,
    /// Whether reading tells capitals from small letters.
    pub case_sensitive: bool,
}

impl Default for Month {
    ghost is_default = { λ x. x
        ≡ record { padding = Padding.Zero; repr = MonthRepr.Numerical; case_sensitive = true } };

    fn default() -> Month {
        Month {
            padding: Padding::Zero,
            repr: MonthRepr::Numerical,
            case_sensitive: true,
        }
    }
}

impl Month {
    /// The same with this padding.
    pub fn with_padding(self, padding: Padding) -> Month
        ensures value { result ≡ record self { padding = padding } }
    {
        Month { padding, ..self }
    }

    /// The same in this representation.
    pub fn with_repr(self, repr: MonthRepr) -> Month
        ensures value { result ≡ record self { repr = repr } }
    {
        Month { repr, ..self }
    }

    /// The same with reading told to heed the case of letters, or not.
    pub fn with_case_sensitive(self, case_sensitive: bool) -> Month
        ensures value { result ≡ record self { case_sensitive = case_sensitive } }
    {
        Month {
            case_sensitive,
            ..self
        }
    }
}

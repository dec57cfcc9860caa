//! Weeks of a year.
ghost use Rattle.std.specs.Prelude.{◌≡◌};
ghost use Rattle.description_modifiers.specs.declared.choices.Padding.TheVariants as Padding;
ghost use Rattle.description_modifiers.specs.declared.choices.WeekNumberRepr.TheVariants as WeekNumberRepr;

use crate::choices::{Padding, WeekNumberRepr};

/// The week of ISO 8601, 1 to 53, two digits wide: `[week_number]`. Week 1 is the one with the year's first Thursday.
#[derive(Clone, Copy, Debug, PartialEq, Eq)]
pub struct WeekNumberIso {
    /// How the number is filled up to its width.
    pub padding: Padding,
}

impl Default for WeekNumberIso {
    ghost is_default = { λ x. x ≡ record { padding = Padding.Zero } };

    fn default() -> WeekNumberIso {
        WeekNumberIso {
            padding: Padding::Zero,
        }
    }
}

impl WeekNumberIso {
    /// The same with this padding.
    pub fn with_padding(self, padding: Padding) -> WeekNumberIso
        ensures value { result ≡ record self { padding = padding } }
    {
        WeekNumberIso { padding }
    }
}

/// How many Sundays the year has had, up to and including the day, 0 to 53, two digits wide:
/// `[week_number repr:sunday]`.
#[derive(Clone, Copy, Debug, PartialEq, Eq)]
pub struct WeekNumberSunday {
    /// How the number is filled up to its width.
    pub padding: Padding,
}

impl Default for WeekNumberSunday {
    ghost is_default = { λ x. x ≡ record { padding = Padding.Zero } };

    fn default() -> WeekNumberSunday {
        WeekNumberSunday {
            padding: Padding::Zero,
        }
    }
}

impl WeekNumberSunday {
    /// The same with this padding.
    pub fn with_padding(self, padding: Padding) -> WeekNumberSunday
        ensures value { result ≡ record self { padding = padding } }
    {
        WeekNumberSunday { padding }
    }
}

/// How many Mondays the year has had, up to and including the day, 0 to 53, two digits wide:
/// `[week_number repr:monday]`.
#[derive(Clone, Copy, Debug, PartialEq, Eq)]
pub struct WeekNumberMonday {
    /// How the number is filled up to its width.
    pub padding: Padding,
}

impl Default for WeekNumberMonday {
    ghost is_default = { λ x. x ≡ record { padding = Padding.Zero } };

    fn default() -> WeekNumberMonday {
        WeekNumberMonday {
            padding: Padding::Zero,
        }
    }
}

impl WeekNumberMonday {
    /// The same with this padding.
    pub fn with_padding(self, padding: Padding) -> WeekNumberMonday
        ensures value { result ≡ record self { padding = padding } }
    {
        WeekNumberMonday { padding }
    }
}

/// A week of any kind, as versions 1 and 2 had it first: the three above say the same.
#[derive(Clone, Copy, Debug, PartialEq, Eq)]
pub struct WeekNumber {
    /// How the number is filled up to its width.
    pub padding: Padding,
    /// Which weeks are counted.
    pub repr: WeekNumberRepr,
}

impl Default for WeekNumber {
    ghost is_default = { λ x. x ≡ record { padding = Padding.Zero; repr = WeekNumberRepr.Iso } };

    fn default() -> WeekNumber {
        WeekNumber {
            padding: Padding::Zero,
            repr: WeekNumberRepr::Iso,
        }
    }
}

impl WeekNumber {
    /// The same with this padding.
    pub fn with_padding(self, padding: Padding) -> WeekNumber
        ensures value { result ≡ record self { padding = padding } }
    {
        WeekNumber { padding, ..self }
    }

    /// The same in this representation.
    pub fn with_repr(self, repr: WeekNumberRepr) -> WeekNumber
        ensures value { result ≡ record self { repr = repr } }
    {
        WeekNumber { repr, ..self }
    }
}

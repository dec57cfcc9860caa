//! Years of weeks.
ghost use Rattle.std.specs.Prelude.{◌≡◌, false};
ghost use Rattle.description_modifiers.specs.declared.choices.Padding.TheVariants as Padding;

use crate::choices::Padding;

/// The year of the ISO 8601 week, within ±999999: four digits, or a sign and four to six.
/// `[year base:iso_week range:extended]`.
#[derive(Clone, Copy, Debug, PartialEq, Eq)]
pub struct IsoYearFullExtendedRange {
    /// How the number is filled up to its width.
    pub padding: Padding,
    /// Whether the sign must be written.
    pub sign_is_mandatory: bool,
}

impl Default for IsoYearFullExtendedRange {
    ghost is_default = { λ x. x ≡ record { padding = Padding.Zero; sign_is_mandatory = false } };

    fn default() -> IsoYearFullExtendedRange {
        IsoYearFullExtendedRange {
            padding: Padding::Zero,
            sign_is_mandatory: false,
        }
    }
}

impl IsoYearFullExtendedRange {
    /// The same with this padding.
    pub fn with_padding(self, padding: Padding) -> IsoYearFullExtendedRange
        ensures value { result ≡ record self { padding = padding } }
    {
        IsoYearFullExtendedRange { padding, ..self }
    }

    /// The same with the sign required, or not.
    pub fn with_sign_is_mandatory(self, sign_is_mandatory: bool) -> IsoYearFullExtendedRange
        ensures value { result ≡ record self { sign_is_mandatory = sign_is_mandatory } }
    {
        IsoYearFullExtendedRange {
            sign_is_mandatory,
            ..self
        }
    }
}

/// The year of the ISO 8601 week, within ±9999: four digits, or a sign and four.
/// `[year base:iso_week range:standard]`.
#[derive(Clone, Copy, Debug, PartialEq, Eq)]
pub struct IsoYearFullStandardRange {
    /// How the number is filled up to its width.
    pub padding: Padding,
    /// Whether the sign must be written.
    pub sign_is_mandatory: bool,
}

impl Default for IsoYearFullStandardRange {
    ghost is_default = { λ x. x ≡ record { padding = Padding.Zero; sign_is_mandatory = false } };

    fn default() -> IsoYearFullStandardRange {
        IsoYearFullStandardRange {
            padding: Padding::Zero,
            sign_is_mandatory: false,
        }
    }
}

impl IsoYearFullStandardRange {
    /// The same with this padding.
    pub fn with_padding(self, padding: Padding) -> IsoYearFullStandardRange
        ensures value { result ≡ record self { padding = padding } }
    {
        IsoYearFullStandardRange { padding, ..self }
    }

    /// The same with the sign required, or not.
    pub fn with_sign_is_mandatory(self, sign_is_mandatory: bool) -> IsoYearFullStandardRange
        ensures value { result ≡ record self { sign_is_mandatory = sign_is_mandatory } }
    {
        IsoYearFullStandardRange {
            sign_is_mandatory,
            ..self
        }
    }
}

/// The year of the ISO 8601 week without its last two digits, within ±9999: at most two digits, or a sign and two to
/// four. `[year base:iso_week repr:century range:extended]`.
#[derive(Clone, Copy, Debug, PartialEq, Eq)]
pub struct IsoYearCenturyExtendedRange {
    /// How the number is filled up to its width.
    pub padding: Padding,
    /// Whether the sign must be written.
    pub sign_is_mandatory: bool,
}

impl Default for IsoYearCenturyExtendedRange {
    ghost is_default = { λ x. x ≡ record { padding = Padding.Zero; sign_is_mandatory = false } };

    fn default() -> IsoYearCenturyExtendedRange {
        IsoYearCenturyExtendedRange {
            padding: Padding::Zero,
            sign_is_mandatory: false,
        }
    }
}

impl IsoYearCenturyExtendedRange {
    /// The same with this padding.
    pub fn with_padding(self, padding: Padding) -> IsoYearCenturyExtendedRange
        ensures value { result ≡ record self { padding = padding } }
    {
        IsoYearCenturyExtendedRange { padding, ..self }
    }

    /// The same with the sign required, or not.
    pub fn with_sign_is_mandatory(self, sign_is_mandatory: bool) -> IsoYearCenturyExtendedRange
        ensures value { result ≡ record self { sign_is_mandatory = sign_is_mandatory } }
    {
        IsoYearCenturyExtendedRange {
            sign_is_mandatory,
            ..self
        }
    }
}

/// The year of the ISO 8601 week without its last two digits, within ±99: at most two digits, or a sign and two.
/// `[year base:iso_week repr:century range:standard]`.
#[derive(Clone, Copy, Debug, PartialEq, Eq)]
pub struct IsoYearCenturyStandardRange {
    /// How the number is filled up to its width.
    pub padding: Padding,
    /// Whether the sign must be written.
    pub sign_is_mandatory: bool,
}

impl Default for IsoYearCenturyStandardRange {
    ghost is_default = { λ x. x ≡ record { padding = Padding.Zero; sign_is_mandatory = false } };

    fn default() -> IsoYearCenturyStandardRange {
        IsoYearCenturyStandardRange {
            padding: Padding::Zero,
            sign_is_mandatory: false,
        }
    }
}

impl IsoYearCenturyStandardRange {
    /// The same with this padding.
    pub fn with_padding(self, padding: Padding) -> IsoYearCenturyStandardRange
        ensures value { result ≡ record self { padding = padding } }
    {
        IsoYearCenturyStandardRange { padding, ..self }
    }

    /// The same with the sign required, or not.
    pub fn with_sign_is_mandatory(self, sign_is_mandatory: bool) -> IsoYearCenturyStandardRange
        ensures value { result ≡ record self { sign_is_mandatory = sign_is_mandatory } }
    {
        IsoYearCenturyStandardRange {
            sign_is_mandatory,
            ..self
        }
    }
}

/// The last two digits of the year of the ISO 8601 week: `[year base:iso_week repr:last_two]`.
#[derive(Clone, Copy, Debug, PartialEq, Eq)]
pub struct IsoYearLastTwo {
    /// How the number is filled up to its width.
    pub padding: Padding,
}

impl Default for IsoYearLastTwo {
    ghost is_default = { λ x. x ≡ record { padding = Padding.Zero } };

    fn default() -> IsoYearLastTwo {
        IsoYearLastTwo {
            padding: Padding::Zero,
        }
    }
}

impl IsoYearLastTwo {
    /// The same with this padding.
    pub fn with_padding(self, padding: Padding) -> IsoYearLastTwo
        ensures value { result ≡ record self { padding = padding } }
    {
        IsoYearLastTwo { padding }
    }
}

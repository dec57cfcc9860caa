//! Years of the calendar.
ghost use Rattle.std.specs.Prelude.{◌≡◌, false};
ghost use Rattle.description_modifiers.specs.declared.choices.Padding.TheVariants as Padding;

use crate::choices::Padding;

/// The year of the calendar, within ±999999: four digits, or a sign and four to six. `[year range:extended]`, as
/// which versions 1 and 2 read `[year]`.
#[derive(Clone, Copy, Debug, PartialEq, Eq)]
pub struct CalendarYearFullExtendedRange {
    /// How the number is filled up to its width.
    pub padding: Padding,
    /// Whether the sign must be written.
    pub sign_is_mandatory: bool,
}

impl Default for CalendarYearFullExtendedRange {
    ghost is_default = { λ x. x ≡ record { padding = Padding.Zero; sign_is_mandatory = false } };

    fn default() -> CalendarYearFullExtendedRange {
        CalendarYearFullExtendedRange {
            padding: Padding::Zero,
            sign_is_mandatory: false,
        }
    }
}

impl CalendarYearFullExtendedRange {
    /// The same with this padding.
    pub fn with_padding(self, padding: Padding) -> CalendarYearFullExtendedRange
        ensures value { result ≡ record self { padding = padding } }
    {
        CalendarYearFullExtendedRange { padding, ..self }
    }

    /// The same with the sign required, or not.
    pub fn with_sign_is_mandatory(self, sign_is_mandatory: bool) -> CalendarYearFullExtendedRange
        ensures value { result ≡ record self { sign_is_mandatory = sign_is_mandatory } }
    {
        CalendarYearFullExtendedRange {
            sign_is_mandatory,
            ..self
        }
    }
}

/// The year of the calendar, within ±9999: four digits, or a sign and four. `[year range:standard]`, as which version
/// 3 reads `[year]`.
#[derive(Clone, Copy, Debug, PartialEq, Eq)]
pub struct CalendarYearFullStandardRange {
    /// How the number is filled up to its width.
    pub padding: Padding,
    /// Whether the sign must be written.
    pub sign_is_mandatory: bool,
}

impl Default for CalendarYearFullStandardRange {
    ghost is_default = { λ x. x ≡ record { padding = Padding.Zero; sign_is_mandatory = false } };

    fn default() -> CalendarYearFullStandardRange {
        CalendarYearFullStandardRange {
            padding: Padding::Zero,
            sign_is_mandatory: false,
        }
    }
}

impl CalendarYearFullStandardRange {
    /// The same with this padding.
    pub fn with_padding(self, padding: Padding) -> CalendarYearFullStandardRange
        ensures value { result ≡ record self { padding = padding } }
    {
        CalendarYearFullStandardRange { padding, ..self }
    }

    /// The same with the sign required, or not.
    pub fn with_sign_is_mandatory(self, sign_is_mandatory: bool) -> CalendarYearFullStandardRange
        ensures value { result ≡ record self { sign_is_mandatory = sign_is_mandatory } }
    {
        CalendarYearFullStandardRange {
            sign_is_mandatory,
            ..self
        }
    }
}

/// The year of the calendar without its last two digits, within ±9999: at most two digits, or a sign and two to four.
/// `[year repr:century range:extended]`.
#[derive(Clone, Copy, Debug, PartialEq, Eq)]
pub struct CalendarYearCenturyExtendedRange {
    /// How the number is filled up to its width.
    pub padding: Padding,
    /// Whether the sign must be written.
    pub sign_is_mandatory: bool,
}

impl Default for CalendarYearCenturyExtendedRange {
    ghost is_default = { λ x. x ≡ record { padding = Padding.Zero; sign_is_mandatory = false } };

    fn default() -> CalendarYearCenturyExtendedRange {
        CalendarYearCenturyExtendedRange {
            padding: Padding::Zero,
            sign_is_mandatory: false,
        }
    }
}

impl CalendarYearCenturyExtendedRange {
    /// The same with this padding.
    pub fn with_padding(self, padding: Padding) -> CalendarYearCenturyExtendedRange
        ensures value { result ≡ record self { padding = padding } }
    {
        CalendarYearCenturyExtendedRange { padding, ..self }
    }

    /// The same with the sign required, or not.
    pub fn with_sign_is_mandatory(self, sign_is_mandatory: bool) -> CalendarYearCenturyExtendedRange
        ensures value { result ≡ record self { sign_is_mandatory = sign_is_mandatory } }
    {
        CalendarYearCenturyExtendedRange {
            sign_is_mandatory,
            ..self
        }
    }
}

/// The year of the calendar without its last two digits, within ±99: at most two digits, or a sign and two.
/// `[year repr:century range:standard]`.
#[derive(Clone, Copy, Debug, PartialEq, Eq)]
pub struct CalendarYearCenturyStandardRange {
    /// How the number is filled up to its width.
    pub padding: Padding,
    /// Whether the sign must be written.
    pub sign_is_mandatory: bool,
}

impl Default for CalendarYearCenturyStandardRange {
    ghost is_default = { λ x. x ≡ record { padding = Padding.Zero; sign_is_mandatory = false } };

    fn default() -> CalendarYearCenturyStandardRange {
        CalendarYearCenturyStandardRange {
            padding: Padding::Zero,
            sign_is_mandatory: false,
        }
    }
}

impl CalendarYearCenturyStandardRange {
    /// The same with this padding.
    pub fn with_padding(self, padding: Padding) -> CalendarYearCenturyStandardRange
        ensures value { result ≡ record self { padding = padding } }
    {
        CalendarYearCenturyStandardRange { padding, ..self }
    }

    /// The same with the sign required, or not.
    pub fn with_sign_is_mandatory(self, sign_is_mandatory: bool) -> CalendarYearCenturyStandardRange
        ensures value { result ≡ record self { sign_is_mandatory = sign_is_mandatory } }
    {
        CalendarYearCenturyStandardRange {
            sign_is_mandatory,
            ..self
        }
    }
}

/// The last two digits of the year of the calendar: `[year repr:last_two]`.
#[derive(Clone, Copy, Debug, PartialEq, Eq)]
pub struct CalendarYearLastTwo {
    /// How the number is filled up to its width.
    pub padding: Padding,
}

impl Default for CalendarYearLastTwo {
    ghost is_default = { λ x. x ≡ record { padding = Padding.Zero } };

    fn default() -> CalendarYearLastTwo {
        CalendarYearLastTwo {
            padding: Padding::Zero,
        }
    }
}

impl CalendarYearLastTwo {
    /// The same with this padding.
    pub fn with_padding(self, padding: Padding) -> CalendarYearLastTwo
        ensures value { result ≡ record self { padding = padding } }
    {
        CalendarYearLastTwo { padding }
    }
}

//! Years of any kind.
ghost use Rattle.std.specs.Prelude.{◌≡◌, false};
ghost use Rattle.description_modifiers.specs.declared.choices.Padding.TheVariants as Padding;
ghost use Rattle.description_modifiers.specs.declared.choices.YearRange.TheVariants as YearRange;
ghost use Rattle.description_modifiers.specs.declared.choices.YearRepr.TheVariants as YearRepr;

use crate::choices::{Padding, YearRange, YearRepr};

/// A year of any kind, as versions 1 and 2 had it first: the years of the calendar and of ISO 8601
/// weeks say the same with only the modifiers that matter there.
#[derive(Clone, Copy, Debug, PartialEq, Eq)]
pub struct Year {
    /// How the number is filled up to its width.
    pub padding: Padding,
    /// Which part of the year is written.
    pub repr: YearRepr,
    /// How far the years go. The last two digits have no range.
    pub range: YearRange,
    /// Whether it is the year of the ISO 8601 week.
    pub iso_week_based: bool,
    /// Whether the sign must be written.
    pub sign_is_mandatory: bool,
}

impl Default for Year {
    ghost is_default = { λ x. x
        ≡ record {
          padding = Padding.Zero;
          repr = YearRepr.Full;
          range = YearRange.Extended;
          iso_week_based = false;
          sign_is_mandatory = false;
        } };

    fn default() -> Year {
        Year {
            padding: Padding::Zero,
            repr: YearRepr::Full,
            range: YearRange::Extended,
            iso_week_based: false,
            sign_is_mandatory: false,
        }
    }
}

impl Year {
    /// The same with this padding.
    pub fn with_padding(self, padding: Padding) -> Year
        ensures value { result ≡ record self { padding = padding } }
    {
        Year { padding, ..self }
    }

    /// The same in this representation.
    pub fn with_repr(self, repr: YearRepr) -> Year
        ensures value { result ≡ record self { repr = repr } }
    {
        Year { repr, ..self }
    }

    /// The same with years as far as this range.
    pub fn with_range(self, range: YearRange) -> Year
        ensures value { result ≡ record self { range = range } }
    {
        Year { range, ..self }
    }

    /// The same with the year of the ISO 8601 week, or of the calendar.
    pub fn with_iso_week_based(self, iso_week_based: bool) -> Year
        ensures value { result ≡ record self { iso_week_based = iso_week_based } }
    {
        Year {
            iso_week_based,
            ..self
        }
    }

    /// The same with the sign required, or not.
    pub fn with_sign_is_mandatory(self, sign_is_mandatory: bool) -> Year
        ensures value { result ≡ record self { sign_is_mandatory = sign_is_mandatory } }
    {
        Year {
            sign_is_mandatory,
            ..self
        }
    }
}

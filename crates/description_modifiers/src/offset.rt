//! Parts of an offset from UTC.
ghost use Rattle.std.specs.Prelude.{◌≡◌, false};
ghost use Rattle.description_modifiers.specs.declared.choices.Padding.TheVariants as Padding;

use crate::choices::Padding;

/// The whole hours of the offset, 0 to 25, two digits wide, after its sign: `[offset_hour]`.
#[derive(Clone, Copy, Debug, PartialEq, Eq)]
pub struct OffsetHour {
    /// Whether the sign must be written.
    pub sign_is_mandatory: bool,
    /// How the number is filled up to its width.
    pub padding: Padding,
}

impl Default for OffsetHour {
    ghost is_default = { λ x. x ≡ record { sign_is_mandatory = false; padding = Padding.Zero } };

    fn default() -> OffsetHour {
        OffsetHour {
            sign_is_mandatory: false,
            padding: Padding::Zero,
        }
    }
}

impl OffsetHour {
    /// The same with the sign required, or not.
    pub fn with_sign_is_mandatory(self, sign_is_mandatory: bool) -> OffsetHour
        ensures value { result ≡ record self { sign_is_mandatory = sign_is_mandatory } }
    {
        OffsetHour {
            sign_is_mandatory,
            ..self
        }
    }

    /// The same with this padding.
    pub fn with_padding(self, padding: Padding) -> OffsetHour
        ensures value { result ≡ record self { padding = padding } }
    {
        OffsetHour { padding, ..self }
    }
}

/// The minutes of the offset past the hour, 0 to 59, two digits wide: `[offset_minute]`. They have the sign of the
/// hours.
#[derive(Clone, Copy, Debug, PartialEq, Eq)]
pub struct OffsetMinute {
    /// How the number is filled up to its width.
    pub padding: Padding,
}

impl Default for OffsetMinute {
    ghost is_default = { λ x. x ≡ record { padding = Padding.Zero } };

    fn default() -> OffsetMinute {
        OffsetMinute {
            padding: Padding::Zero,
        }
    }
}

impl OffsetMinute {
    /// The same with this padding.
    pub fn with_padding(self, padding: Padding) -> OffsetMinute
        ensures value { result ≡ record self { padding = padding } }
    {
        OffsetMinute { padding }
    }
}

/// The seconds of the offset past the minute, 0 to 59, two digits wide: `[offset_second]`. They have the sign of the
/// hours.
#[derive(Clone, Copy, Debug, PartialEq, Eq)]
pub struct OffsetSecond {
    /// How the number is filled up to its width.
    pub padding: Padding,
}

impl Default for OffsetSecond {
    ghost is_default = { λ x. x ≡ record { padding = Padding.Zero } };

    fn default() -> OffsetSecond {
        OffsetSecond {
            padding: Padding::Zero,
        }
    }
}

impl OffsetSecond {
    /// The same with this padding.
    pub fn with_padding(self, padding: Padding) -> OffsetSecond
        ensures value { result ≡ record self { padding = padding } }
    {
        OffsetSecond { padding }
    }
}

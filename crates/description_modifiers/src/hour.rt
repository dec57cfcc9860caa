//! Hours and halves of a day.
ghost use Rattle.std.specs.Prelude.{◌≡◌, true, false};
ghost use Rattle.description_modifiers.specs.declared.choices.Padding.TheVariants as Padding;

use crate::choices::Padding;

/// The hour on a clock of 12 hours, 1 to 12, two digits wide: `[hour repr:12]`.
#[derive(Clone, Copy, Debug, PartialEq, Eq)]
pub struct Hour12 {
    /// How the number is filled up to its width.
    pub padding: Padding,
}

impl Default for Hour12 {
    ghost is_default = { λ x. x ≡ record { padding = Padding.Zero } };

    fn default() -> Hour12 {
        Hour12 {
            padding: Padding::Zero,
        }
    }
}

impl Hour12 {
    /// The same with this padding.
    pub fn with_padding(self, padding: Padding) -> Hour12
        ensures value { result ≡ record self { padding = padding } }
    {
        Hour12 { padding }
    }
}

/// The hour on a clock of 24 hours, 0 to 23, two digits wide: `[hour]`.
#[derive(Clone, Copy, Debug, PartialEq, Eq)]
pub struct Hour24 {
    /// How the number is filled up to its width.
    pub padding: Padding,
}

impl Default for Hour24 {
    ghost is_default = { λ x. x ≡ record { padding = Padding.Zero } };

    fn default() -> Hour24 {
        Hour24 {
            padding: Padding::Zero,
        }
    }
}

impl Hour24 {
    /// The same with this padding.
    pub fn with_padding(self, padding: Padding) -> Hour24
        ensures value { result ≡ record self { padding = padding } }
    {
        Hour24 { padding }
    }
}

/// The hour on either clock, as versions 1 and 2 had it first: the two above say the same.
#[derive(Clone, Copy, Debug, PartialEq, Eq)]
pub struct Hour {
    /// How the number is filled up to its width.
    pub padding: Padding,
    /// Whether the clock has 12 hours.
    pub is_12_hour_clock: bool,
}

impl Default for Hour {
    ghost is_default = { λ x. x ≡ record { padding = Padding.Zero; is_12_hour_clock = false } };

    fn default() -> Hour {
        Hour {
            padding: Padding::Zero,
            is_12_hour_clock: false,
        }
    }
}

impl Hour {
    /// The same with this padding.
    pub fn with_padding(self, padding: Padding) -> Hour
        ensures value { result ≡ record self { padding = padding } }
    {
        Hour { padding, ..self }
    }

    /// The same on a clock of 12 hours, or of 24.
    pub fn with_is_12_hour_clock(self, is_12_hour_clock: bool) -> Hour
        ensures value { result ≡ record self { is_12_hour_clock = is_12_hour_clock } }
    {
        Hour {
            is_12_hour_clock,
            ..self
        }
    }
}

/// The half of the day, `AM` or `PM`: `[period]`, or `[period case:lower]` for `am` or `pm`.
#[derive(Clone, Copy, Debug, PartialEq, Eq)]
pub struct Period {
    /// Whether it is written in capitals.
    pub is_uppercase: bool,
    /// Whether reading tells capitals from small letters. It does so only where capitals are written.
    pub case_sensitive: bool,
}

impl Default for Period {
    ghost is_default = { λ x. x ≡ record { is_uppercase = true; case_sensitive = true } };

    fn default() -> Period {
        Period {
            is_uppercase: true,
            case_sensitive: true,
        }
    }
}

impl Period {
    /// The same in capitals, or in small letters.
    pub fn with_is_uppercase(self, is_uppercase: bool) -> Period
        ensures value { result ≡ record self { is_uppercase = is_uppercase } }
    {
        Period {
            is_uppercase,
            ..self
        }
    }

    /// The same with reading told to heed the case of letters, or not.
    pub fn with_case_sensitive(self, case_sensitive: bool) -> Period
        ensures value { result ≡ record self { case_sensitive = case_sensitive } }
    {
        Period {
            case_sensitive,
            ..self
        }
    }
}

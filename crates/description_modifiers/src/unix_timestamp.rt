//! Times since 1970 began in UTC.
ghost use Rattle.std.specs.Prelude.{◌≡◌, false};
ghost use Rattle.description_modifiers.specs.declared.choices.UnixTimestampPrecision.TheVariants as UnixTimestampPrecision;

use crate::choices::UnixTimestampPrecision;

/// The seconds since 1970 began in UTC, negative before, in at most 14 digits: `[unix_timestamp]`.
#[derive(Clone, Copy, Debug, PartialEq, Eq)]
pub struct UnixTimestampSecond {
    /// Whether the sign must be written.
    pub sign_is_mandatory: bool,
}

impl Default for UnixTimestampSecond {
    ghost is_default = { λ x. x ≡ record { sign_is_mandatory = false } };

    fn default() -> UnixTimestampSecond {
        UnixTimestampSecond {
            sign_is_mandatory: false,
        }
    }
}

impl UnixTimestampSecond {
    /// The same with the sign required, or not.
    pub fn with_sign_is_mandatory(self, sign_is_mandatory: bool) -> UnixTimestampSecond
        ensures value { result ≡ record self { sign_is_mandatory = sign_is_mandatory } }
    {
        UnixTimestampSecond { sign_is_mandatory }
    }
}

/// The milliseconds since 1970 began in UTC, negative before, in at most 17 digits:
/// `[unix_timestamp precision:millisecond]`.
#[derive(Clone, Copy, Debug, PartialEq, Eq)]
pub struct UnixTimestampMillisecond {
    /// Whether the sign must be written.
    pub sign_is_mandatory: bool,
}

impl Default for UnixTimestampMillisecond {
    ghost is_default = { λ x. x ≡ record { sign_is_mandatory = false } };

    fn default() -> UnixTimestampMillisecond {
        UnixTimestampMillisecond {
            sign_is_mandatory: false,
        }
    }
}

impl UnixTimestampMillisecond {
    /// The same with the sign required, or not.
    pub fn with_sign_is_mandatory(self, sign_is_mandatory: bool) -> UnixTimestampMillisecond
        ensures value { result ≡ record self { sign_is_mandatory = sign_is_mandatory } }
    {
        UnixTimestampMillisecond { sign_is_mandatory }
    }
}

/// The microseconds since 1970 began in UTC, negative before, in at most 20 digits:
/// `[unix_timestamp precision:microsecond]`.
#[derive(Clone, Copy, Debug, PartialEq, Eq)]
pub struct UnixTimestampMicrosecond {
    /// Whether the sign must be written.
    pub sign_is_mandatory: bool,
}

impl Default for UnixTimestampMicrosecond {
    ghost is_default = { λ x. x ≡ record { sign_is_mandatory = false } };

    fn default() -> UnixTimestampMicrosecond {
        UnixTimestampMicrosecond {
            sign_is_mandatory: false,
        }
    }
}

impl UnixTimestampMicrosecond {
    /// The same with the sign required, or not.
    pub fn with_sign_is_mandatory(self, sign_is_mandatory: bool) -> UnixTimestampMicrosecond
        ensures value { result ≡ record self { sign_is_mandatory = sign_is_mandatory } }
    {
        UnixTimestampMicrosecond { sign_is_mandatory }
    }
}

/// The nanoseconds since 1970 began in UTC, negative before, in at most 23 digits:
/// `[unix_timestamp precision:nanosecond]`.
#[derive(Clone, Copy, Debug, PartialEq, Eq)]
pub struct UnixTimestampNanosecond {
    /// Whether the sign must be written.
    pub sign_is_mandatory: bool,
}

impl Default for UnixTimestampNanosecond {
    ghost is_default = { λ x. x ≡ record { sign_is_mandatory = false } };

    fn default() -> UnixTimestampNanosecond {
        UnixTimestampNanosecond {
            sign_is_mandatory: false,
        }
    }
}

impl UnixTimestampNanosecond {
    /// The same with the sign required, or not.
    pub fn with_sign_is_mandatory(self, sign_is_mandatory: bool) -> UnixTimestampNanosecond
        ensures value { result ≡ record self { sign_is_mandatory = sign_is_mandatory } }
    {
        UnixTimestampNanosecond { sign_is_mandatory }
    }
}

/// The time since 1970 began in any unit, as versions 1 and 2 had it first: the four above say the
/// same.
#[derive(Clone, Copy, Debug, PartialEq, Eq)]
pub struct UnixTimestamp {
    /// The unit.
    pub precision: UnixTimestampPrecision,
    /// Whether the sign must be written.
    pub sign_is_mandatory: bool,
}

impl Default for UnixTimestamp {
    ghost is_default = { λ x. x
        ≡ record { precision = UnixTimestampPrecision.Second; sign_is_mandatory = false } };

    fn default() -> UnixTimestamp {
        UnixTimestamp {
            precision: UnixTimestampPrecision::Second,
            sign_is_mandatory: false,
        }
    }
}

impl UnixTimestamp {
    /// The same with this precision.
    pub fn with_precision(self, precision: UnixTimestampPrecision) -> UnixTimestamp
        ensures value { result ≡ record self { precision = precision } }
    {
        UnixTimestamp { precision, ..self }
    }

    /// The same with the sign required, or not.
    pub fn with_sign_is_mandatory(self, sign_is_mandatory: bool) -> UnixTimestamp
        ensures value { result ≡ record self { sign_is_mandatory = sign_is_mandatory } }
    {
        UnixTimestamp {
            sign_is_mandatory,
            ..self
        }
    }
}

//! What the modifiers of components choose from.
ghost use Rattle.std.specs.Prelude.{◌≡◌};
ghost use Rattle.description_modifiers.specs.declared.choices.Padding.TheVariants as Padding;
ghost use Rattle.description_modifiers.specs.declared.choices.MonthRepr.TheVariants as MonthRepr;
ghost use Rattle.description_modifiers.specs.declared.choices.WeekdayRepr.TheVariants as WeekdayRepr;
ghost use Rattle.description_modifiers.specs.declared.choices.WeekNumberRepr.TheVariants as WeekNumberRepr;
ghost use Rattle.description_modifiers.specs.declared.choices.YearRepr.TheVariants as YearRepr;
ghost use Rattle.description_modifiers.specs.declared.choices.YearRange.TheVariants as YearRange;
ghost use Rattle.description_modifiers.specs.declared.choices.SubsecondDigits.TheVariants as SubsecondDigits;
ghost use Rattle.description_modifiers.specs.declared.choices.UnixTimestampPrecision.TheVariants as UnixTimestampPrecision;
ghost use Rattle.description_modifiers.specs.declared.choices.TrailingInput.TheVariants as TrailingInput;

/// How a number is filled up to its width: `padding:space`, `padding:zero` (the default) or `padding:none`.
#[derive(Clone, Copy, Debug, PartialEq, Eq)]
pub enum Padding {
    /// With spaces before it; at least one digit is left.
    Space,
    /// With zeros before it.
    Zero,
    /// Not at all: one digit or more, up to its width.
    None,
}

impl Default for Padding {
    ghost is_default = { λ x. x ≡ Padding.Zero };

    fn default() -> Padding {
        Padding::Zero
    }
}

/// How a month is written: `repr:numerical` (the default), `repr:long` or `repr:short`.
#[derive(Clone, Copy, Debug, PartialEq, Eq)]
pub enum MonthRepr {
    /// By its number, January being 1.
    Numerical,
    /// By its English name.
    Long,
    /// By the first three letters of its English name.
    Short,
}

impl Default for MonthRepr {
    ghost is_default = { λ x. x ≡ MonthRepr.Numerical };

    fn default() -> MonthRepr {
        MonthRepr::Numerical
    }
}

/// How a weekday is written: `repr:short`, `repr:long` (the default), `repr:sunday` or `repr:monday`.
#[derive(Clone, Copy, Debug, PartialEq, Eq)]
pub enum WeekdayRepr {
    /// By the first three letters of its English name.
    Short,
    /// By its English name.
    Long,
    /// By its number, counted from Sunday.
    Sunday,
    /// By its number, counted from Monday.
    Monday,
}

impl Default for WeekdayRepr {
    ghost is_default = { λ x. x ≡ WeekdayRepr.Long };

    fn default() -> WeekdayRepr {
        WeekdayRepr::Long
    }
}

/// Which weeks are counted: `repr:iso` (the default), `repr:sunday` or `repr:monday`.
#[derive(Clone, Copy, Debug, PartialEq, Eq)]
pub enum WeekNumberRepr {
    /// Those of ISO 8601: from Monday on, in the year of their Thursday.
    Iso,
    /// Those that a Sunday begins; the days before the first are in week 0.
    Sunday,
    /// Those that a Monday begins; the days before the first are in week 0.
    Monday,
}

impl Default for WeekNumberRepr {
    ghost is_default = { λ x. x ≡ WeekNumberRepr.Iso };

    fn default() -> WeekNumberRepr {
        WeekNumberRepr::Iso
    }
}

/// Which part of a year is written: `repr:full` (the default), `repr:century` or `repr:last_two`.
#[derive(Clone, Copy, Debug, PartialEq, Eq)]
pub enum YearRepr {
    /// All of it.
    Full,
    /// All but its last two digits.
    Century,
    /// Its last two digits.
    LastTwo,
}

impl Default for YearRepr {
    ghost is_default = { λ x. x ≡ YearRepr.Full };

    fn default() -> YearRepr {
        YearRepr::Full
    }
}

/// How far the years of a description go: `range:standard`, the default in version 3, or `range:extended`, the
/// default in versions 1 and 2 and of this type.
#[derive(Clone, Copy, Debug, PartialEq, Eq)]
pub enum YearRange {
    /// Years of four digits, within ±9999, and centuries within ±99.
    Standard,
    /// Years of up to six digits after a sign, within ±999999, and centuries within ±9999.
    Extended,
}

impl Default for YearRange {
    ghost is_default = { λ x. x ≡ YearRange.Extended };

    fn default() -> YearRange {
        YearRange::Extended
    }
}

/// How many digits a fraction of a second has: `digits:1` to `digits:9`, or `digits:1+` (the default).
#[derive(Clone, Copy, Debug, PartialEq, Eq)]
pub enum SubsecondDigits {
    /// One digit.
    One,
    /// Two digits.
    Two,
    /// Three digits.
    Three,
    /// Four digits.
    Four,
    /// Five digits.
    Five,
    /// Six digits.
    Six,
    /// Seven digits.
    Seven,
    /// Eight digits.
    Eight,
    /// Nine digits.
    Nine,
    /// As many as it needs, one at least. Reading takes up to 32.
    OneOrMore,
}

impl Default for SubsecondDigits {
    ghost is_default = { λ x. x ≡ SubsecondDigits.OneOrMore };

    fn default() -> SubsecondDigits {
        SubsecondDigits::OneOrMore
    }
}

/// The unit of a Unix timestamp: `precision:second` (the default), `precision:millisecond`, `precision:microsecond`
/// or `precision:nanosecond`.
#[derive(Clone, Copy, Debug, PartialEq, Eq)]
pub enum UnixTimestampPrecision {
    /// Seconds.
    Second,
    /// Milliseconds.
    Millisecond,
    /// Microseconds.
    Microsecond,
    /// Nanoseconds.
    Nanosecond,
}

impl Default for UnixTimestampPrecision {
    ghost is_default = { λ x. x ≡ UnixTimestampPrecision.Second };

    fn default() -> UnixTimestampPrecision {
        UnixTimestampPrecision::Second
    }
}

/// What becomes of the text that follows the end of a description: `trailing_input:prohibit` (the default) or
/// `trailing_input:discard`.
#[derive(Clone, Copy, Debug, PartialEq, Eq)]
pub enum TrailingInput {
    /// It is refused, as unexpected trailing characters.
    Prohibit,
    /// It is dropped.
    Discard,
}

impl Default for TrailingInput {
    ghost is_default = { λ x. x ≡ TrailingInput.Prohibit };

    fn default() -> TrailingInput {
        TrailingInput::Prohibit
    }
}

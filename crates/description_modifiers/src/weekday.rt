//! Weekdays.
ghost use Rattle.std.specs.Prelude.{◌≡◌, true};
ghost use Rattle.description_modifiers.specs.declared.choices.WeekdayRepr.TheVariants as WeekdayRepr;

use crate::choices::WeekdayRepr;

/// A weekday by the first three letters of its English name: `[weekday repr:short]`.
#[derive(Clone, Copy, Debug, PartialEq, Eq)]
pub struct WeekdayShort {
    /// Whether reading tells capitals from small letters.
    pub case_sensitive: bool,
}

impl Default for WeekdayShort {
    ghost is_default = { λ x. x ≡ record { case_sensitive = true } };

    fn default() -> WeekdayShort {
        WeekdayShort {
            case_sensitive: true,
        }
    }
}

impl WeekdayShort {
    /// The same with reading told to heed the case of letters, or not.
    pub fn with_case_sensitive(self, case_sensitive: bool) -> WeekdayShort
        ensures value { result ≡ record self { case_sensitive = case_sensitive } }
    {
        WeekdayShort { case_sensitive }
    }
}

/// A weekday by its English name: `[weekday]`.
#[derive(Clone, Copy, Debug, PartialEq, Eq)]
pub struct WeekdayLong {
    /// Whether reading tells capitals from small letters.
    pub case_sensitive: bool,
}

impl Default for WeekdayLong {
    ghost is_default = { λ x. x ≡ record { case_sensitive = true } };

    fn default() -> WeekdayLong {
        WeekdayLong {
            case_sensitive: true,
        }
    }
}

impl WeekdayLong {
    /// The same with reading told to heed the case of letters, or not.
    pub fn with_case_sensitive(self, case_sensitive: bool) -> WeekdayLong
        ensures value { result ≡ record self { case_sensitive = case_sensitive } }
    {
        WeekdayLong { case_sensitive }
    }
}

/// A weekday by its number, one digit, counted from Sunday: `[weekday repr:sunday]`. From 1 to 7, or from 0 to 6.
#[derive(Clone, Copy, Debug, PartialEq, Eq)]
pub struct WeekdaySunday {
    /// Whether the first day of the week is 1, not 0.
    pub one_indexed: bool,
}

impl Default for WeekdaySunday {
    ghost is_default = { λ x. x ≡ record { one_indexed = true } };

    fn default() -> WeekdaySunday {
        WeekdaySunday { one_indexed: true }
    }
}

impl WeekdaySunday {
    /// The same with days counted from 1, or from 0.
    pub fn with_one_indexed(self, one_indexed: bool) -> WeekdaySunday
        ensures value { result ≡ record self { one_indexed = one_indexed } }
    {
        WeekdaySunday { one_indexed }
    }
}

/// A weekday by its number, one digit, counted from Monday: `[weekday repr:monday]`. From 1 to 7, or from 0 to 6.
#[derive(Clone, Copy, Debug, PartialEq, Eq)]
pub struct WeekdayMonday {
    /// Whether the first day of the week is 1, not 0.
    pub one_indexed: bool,
}

impl Default for WeekdayMonday {
    ghost is_default = { λ x. x ≡ record { one_indexed = true } };

    fn default() -> WeekdayMonday {
        WeekdayMonday { one_indexed: true }
    }
}

impl WeekdayMonday {
    /// The same with days counted from 1, or from 0.
    pub fn with_one_indexed(self, one_indexed: bool) -> WeekdayMonday
        ensures value { result ≡ record self { one_indexed = one_indexed } }
    {
        WeekdayMonday { one_indexed }
    }
}

/// A weekday in any representation, as versions 1 and 2 had it first: the four above say the same
/// with only the modifiers that matter there.
#[derive(Clone, Copy, Debug, PartialEq, Eq)]
pub struct Weekday {
    /// How the weekday is written.
    pub repr: WeekdayRepr,
    /// Whether the first day of the week is 1, not 0.
    pub one_indexed: bool,
    /// Whether reading tells capitals from small letters.
    pub case_sensitive: bool,
}

impl Default for Weekday {
    ghost is_default = { λ x. x
        ≡ record { repr = WeekdayRepr.Long; one_indexed = true; case_sensitive = true } };

    fn default() -> Weekday {
        Weekday {
            repr: WeekdayRepr::Long,
            one_indexed: true,
            case_sensitive: true,
        }
    }
}

impl Weekday {
    /// The same in this representation.
    pub fn with_repr(self, repr: WeekdayRepr) -> Weekday
        ensures value { result ≡ record self { repr = repr } }
    {
        Weekday { repr, ..self }
    }

    /// The same with days counted from 1, or from 0.
    pub fn with_one_indexed(self, one_indexed: bool) -> Weekday
        ensures value { result ≡ record self { one_indexed = one_indexed } }
    {
        Weekday {
            one_indexed,
            ..self
        }
    }

    /// The same with reading told to heed the case of letters, or not.
    pub fn with_case_sensitive(self, case_sensitive: bool) -> Weekday
        ensures value { result ≡ record self { case_sensitive = case_sensitive } }
    {
        Weekday {
            case_sensitive,
            ..self
        }
    }
}

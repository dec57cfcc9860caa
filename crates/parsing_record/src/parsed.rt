//! What was read so far.
ghost use Rattle.std.specs.Prelude.{◌≡◌, true, false, Some, None};
ghost use Rattle.parsing_components.specs.Record.{empty};

use parsing_components::Record;
use std::marker::Model;

/// The components that were read so far, each at most once: a later one of the same kind takes its place. Each getter
/// answers `None` where its component was not read.
///
/// A `Date`, a `Time`, a `UtcOffset` and the four kinds of date-times are made of it by `try_from`: of the first
/// group of components that is wholly there. `InsufficientInformation` is the refusal where there is none, and
/// `ComponentRange` where they name no value.
///
/// A contract sees the record of these components. Each is in its range, whatever is called.
#[derive(Clone, Copy, Debug)]
pub struct Parsed {
    pub(crate) fields: Record,
}

impl Model for Parsed {
    ghost use Rattle.parsing_components.specs.declared.fields.Record.{Record};
    ghost use Rattle.parsing_components.specs.Record.{IsWithin};

    ghost Value = { Record };

    ghost view = { λ p. p.fields };

    ghost invariant = { λ p. IsWithin p.fields };

    ghost inverse = { λ r. record { fields = r } };
}

impl Parsed {
    /// A record without any component.
    pub fn new() -> Self
        ensures { result ≡ empty }
    {
        Parsed {
            fields: Record::default(),
        }
    }

    /// Lets second 60 stand for the last nanosecond before it, as the formats with leap seconds do. A moment is then
    /// made of it only where it is the last second of a month in UTC.
    pub fn permit_leap_second(&mut self)
        ensures { self.new ≡ record self.old { leap_second_is_permitted = true } }
    {
        self.fields.leap_second_is_permitted = true;
    }

    /// Keeps whether the offset's minutes and seconds count against it, as an hour after a minus says.
    pub fn remember_offset_sign(&mut self, is_negative: bool)
        ensures { self.new ≡ record self.old { offset_is_negative = is_negative } }
    {
        self.fields.offset_is_negative = is_negative;
    }
}

impl Default for Parsed {
    ghost use Rattle.parsing_components.specs.Record.{empty};

    ghost is_default = { λ r. r ≡ empty };

    fn default() -> Self {
        Parsed::new()
    }
}

// Sets a field where its value is allowed, and else leaves it as it was.
#[inline(always)]
pub(crate) fn set<T: Copy>(field: &mut Option<T>, is_allowed: bool, value: T) -> Option<()>
    ensures allowed { is_allowed ≡ true → (result ≡ Some tt) × (field.new ≡ Some value) }
    ensures refused { is_allowed ≡ false → (result ≡ None) × (field.new ≡ field.old) }
{
    if !is_allowed {
        return None;
    }
    *field = Some(value);
    Some(())
}

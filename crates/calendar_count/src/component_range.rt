//! The refusal of a value that is out of range.
ghost use Rattle.std.specs.Prelude.{◌≡◌};

use std::fmt;

/// A component that a value may be out of range in, with the range that is asked for.
#[derive(Clone, Copy, Debug, PartialEq, Eq)]
pub enum ComponentName {
    /// The year, -999999 to 999999.
    Year,
    /// The number of the month, 1 to 12.
    Month,
    /// The day of the month, from 1.
    Day,
    /// The place in the year, from 1.
    Ordinal,
    /// The week of ISO 8601, from 1.
    Week,
    /// The Julian day, of a day that the calendar has.
    JulianDay,
    /// The hour of the day, 0 to 23.
    Hour,
    /// The minute of the hour, 0 to 59.
    Minute,
    /// The second of the minute, 0 to 59; in a text also 60, where a leap second may be.
    Second,
    /// The millisecond of the second, 0 to 999.
    Millisecond,
    /// The microsecond of the second, 0 to 999,999.
    Microsecond,
    /// The nanosecond of the second, 0 to 999,999,999.
    Nanosecond,
    /// The hours of an offset from UTC, within ±25.
    Hours,
    /// The minutes of an offset from UTC, within ±59.
    Minutes,
    /// The seconds of an offset from UTC, within ±59; or all of it in seconds, within ±93,599.
    Seconds,
    /// Unix time, in seconds or finer, of a day that the calendar has.
    Timestamp,
}

/// A component was not in range.
///
/// The refusal is conditional where the range goes by other components: 30 is no day of February, and a
/// day of other months. So is every refusal of a day of the month, a place in the year or a week.
#[derive(Clone, Copy, Debug, PartialEq, Eq)]
pub struct ComponentRange {
    component: ComponentName,
    is_conditional: bool,
}

impl ComponentRange {
    ghost use Rattle.calendar_count.specs.ComponentRange.{out_of_range, out_of_conditional_range, component_name, refused_component, refused_conditionally};

    /// The component is out of range whatever the others are.
    #[inline(always)]
    pub fn unconditional(component: ComponentName) -> ComponentRange
        ensures { result ≡ out_of_range component }
    {
        ComponentRange {
            component,
            is_conditional: false,
        }
    }

    /// The component is out of range given the others, by which its range goes.
    #[inline(always)]
    pub fn conditional(component: ComponentName) -> ComponentRange
        ensures { result ≡ out_of_conditional_range component }
    {
        ComponentRange {
            component,
            is_conditional: true,
        }
    }

    /// The component's name, a word of lower-case letters and `_`: `year`, `julian_day`, `timestamp`.
    pub fn name(self) -> &'static str
        ensures { result.now ≡ component_name (refused_component self) }
    {
        match self.component {
            ComponentName::Year => "year",
            ComponentName::Month => "month",
            ComponentName::Day => "day",
            ComponentName::Ordinal => "ordinal",
            ComponentName::Week => "week",
            ComponentName::JulianDay => "julian_day",
            ComponentName::Hour => "hour",
            ComponentName::Minute => "minute",
            ComponentName::Second => "second",
            ComponentName::Millisecond => "millisecond",
            ComponentName::Microsecond => "microsecond",
            ComponentName::Nanosecond => "nanosecond",
            ComponentName::Hours => "hours",
            ComponentName::Minutes => "minutes",
            ComponentName::Seconds => "seconds",
            ComponentName::Timestamp => "timestamp",
        }
    }

    /// Whether the range goes by other components, as that of the days of a month does.
    pub fn is_conditional(self) -> bool
        ensures { result ≡ refused_conditionally self }
    {
        self.is_conditional
    }
}

impl fmt::Display for ComponentRange {
    ghost use Rattle.std.specs.Prelude.{Some};
    ghost use Rattle.calendar_count.specs.ComponentRange.{range_text};

    ghost output = { λ r. Some (range_text r) };

    fn fmt<W: fmt::Write>(&self, f: &mut fmt::Formatter<W>) -> fmt::Result {
        f.write_str(self.name())?;
        f.write_str(if self.is_conditional() {
            " was not in range given values of other parameters"
        } else {
            " was not in range"
        })
    }
}

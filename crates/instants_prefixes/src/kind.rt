//! Kinds of components.
ghost use Rattle.std.specs.Prelude.{◌≡◌};
ghost use Rattle.instants_prefixes.specs.Kinds.{is_of, is_newer, is_of_day};

use description_items::Component;

/// A kind of components.
#[derive(Clone, Copy)]
pub(crate) enum Kind {
    /// It says something of a date.
    Saying,
    UnixTime,
    OffsetHour,
    /// It is a part of an offset.
    OffsetPart,
    /// It is a year by all of its digits.
    Year,
    /// It is such a year of the weeks of ISO 8601.
    IsoYear,
    /// It is the century of a year of either kind.
    Century,
    /// It is the last two digits of one.
    LastTwo,
    Month,
    Day,
    Ordinal,
    /// It is a week from Sunday or from Monday.
    Week,
    IsoWeek,
    Weekday,
    Hour24,
    Hour12,
    /// It is the half of the day.
    Half,
    Minute,
    Second,
    Subsecond,
}

/// Whether a component is of a kind.
pub(crate) fn is_of(kind: Kind, component: Component) -> bool
    ensures { result ≡ is_of kind component }
{
    match kind {
        Kind::Saying => !matches!(component, Component::Ignore(_) | Component::End(_)),
        _ => is_newer(component.modern(), kind),
    }
}

// Whether a component of a newer form is of a kind.
fn is_newer(component: Component, kind: Kind) -> bool
    ensures { result ≡ is_newer component kind }
{
    match component {
        Component::CalendarYearFullExtendedRange(_) | Component::CalendarYearFullStandardRange(_) =>
            matches!(kind, Kind::Year),
        Component::IsoYearFullExtendedRange(_) | Component::IsoYearFullStandardRange(_) => {
            matches!(kind, Kind::IsoYear)
        }
        Component::CalendarYearCenturyExtendedRange(_)
        | Component::CalendarYearCenturyStandardRange(_)
        | Component::IsoYearCenturyExtendedRange(_)
        | Component::IsoYearCenturyStandardRange(_) => matches!(kind, Kind::Century),
        Component::CalendarYearLastTwo(_) | Component::IsoYearLastTwo(_) => {
            matches!(kind, Kind::LastTwo)
        }
        Component::WeekNumberSunday(_) | Component::WeekNumberMonday(_) => {
            matches!(kind, Kind::Week)
        }
        Component::WeekNumberIso(_) => matches!(kind, Kind::IsoWeek),
        Component::WeekdayShort(_)
        | Component::WeekdayLong(_)
        | Component::WeekdaySunday(_)
        | Component::WeekdayMonday(_) => matches!(kind, Kind::Weekday),
        _ => is_of_day(component, kind),
    }
}

// Whether one that says neither a year nor a week is of a kind.
fn is_of_day(component: Component, kind: Kind) -> bool
    ensures { result ≡ is_of_day component kind }
{
    match component {
        Component::OffsetHour(_) => matches!(kind, Kind::OffsetHour | Kind::OffsetPart),
        Component::OffsetMinute(_) | Component::OffsetSecond(_) => matches!(kind, Kind::OffsetPart),
        Component::UnixTimestampSecond(_)
        | Component::UnixTimestampMillisecond(_)
        | Component::UnixTimestampMicrosecond(_)
        | Component::UnixTimestampNanosecond(_) => matches!(kind, Kind::UnixTime),
        Component::MonthShort(_) | Component::MonthLong(_) | Component::MonthNumerical(_) => {
            matches!(kind, Kind::Month)
        }
        Component::Day(_) => matches!(kind, Kind::Day),
        Component::Ordinal(_) => matches!(kind, Kind::Ordinal),
        Component::Hour24(_) => matches!(kind, Kind::Hour24),
        Component::Hour12(_) => matches!(kind, Kind::Hour12),
        Component::Period(_) => matches!(kind, Kind::Half),
        Component::Minute(_) => matches!(kind, Kind::Minute),
        Component::Second(_) => matches!(kind, Kind::Second),
        Component::Subsecond(_) => matches!(kind, Kind::Subsecond),
        _ => false,
    }
}

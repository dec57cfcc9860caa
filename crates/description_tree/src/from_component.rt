//! Nodes of components.

ghost use Rattle.std.specs.Prelude.{◌≡◌, false, IfSome};
ghost use Rattle.std.specs.Option.{IsNone};
ghost use Rattle.description_items.specs.Modern.{modern};
ghost use Rattle.description_tree.specs.Forms.{IsPart};
ghost use Rattle.description_tree.specs.Kinds.{is_date_part, is_year_part, is_time_part};

use crate::inner::{FormatDescriptionV3Inner, FormatDescriptionV3Inner as Inner};
use description_items::Component;

impl<'a> From<Component> for FormatDescriptionV3Inner<'a> {
    ghost from_gives = { λ component node. IsPart (modern component) node };

    fn from(component: Component) -> Self {
        let component = component.modern();
        if let Some(node) = date_node(component) {
            return node;
        }
        if let Some(node) = year_node(component) {
            return node;
        }
        match time_node(component) {
            Some(node) => node,
            None => unreachable!(),
        }
    }
}

// The node of a day, a month, a weekday or a week.
fn date_node<'a>(component: Component) -> Option<FormatDescriptionV3Inner<'a>>
    ensures value { IfSome result (λ node. IsPart component node) }
    ensures none { IsNone result → is_date_part component ≡ false }
{
    let node = match component {
        Component::Day(m) => Inner::Day(m),
        Component::MonthShort(m) => Inner::MonthShort(m),
        Component::MonthLong(m) => Inner::MonthLong(m),
        Component::MonthNumerical(m) => Inner::MonthNumerical(m),
        Component::Ordinal(m) => Inner::Ordinal(m),
        Component::WeekdayShort(m) => Inner::WeekdayShort(m),
        Component::WeekdayLong(m) => Inner::WeekdayLong(m),
        Component::WeekdaySunday(m) => Inner::WeekdaySunday(m),
        Component::WeekdayMonday(m) => Inner::WeekdayMonday(m),
        Component::WeekNumberIso(m) => Inner::WeekNumberIso(m),
        Component::WeekNumberSunday(m) => Inner::WeekNumberSunday(m),
        Component::WeekNumberMonday(m) => Inner::WeekNumberMonday(m),
        _ => return None,
    };
    Some(node)
}

// The node of a year.
fn year_node<'a>(component: Component) -> Option<FormatDescriptionV3Inner<'a>>
    ensures value { IfSome result (λ node. IsPart component node) }
    ensures none { IsNone result → is_year_part component ≡ false }
{
    let node = match component {
        Component::CalendarYearFullExtendedRange(m) => Inner::CalendarYearFullExtendedRange(m),
        Component::IsoYearFullExtendedRange(m) => Inner::IsoYearFullExtendedRange(m),
        Component::CalendarYearFullStandardRange(m) => Inner::CalendarYearFullStandardRange(m),
        Component::IsoYearFullStandardRange(m) => Inner::IsoYearFullStandardRange(m),
        Component::CalendarYearCenturyExtendedRange(m) => Inner::CalendarYearCenturyExtendedRange(
            m,
        ),
        Component::IsoYearCenturyExtendedRange(m) => Inner::IsoYearCenturyExtendedRange(m),
        Component::CalendarYearCenturyStandardRange(m) => Inner::CalendarYearCenturyStandardRange(
            m,
        ),
        Component::IsoYearCenturyStandardRange(m) => Inner::IsoYearCenturyStandardRange(m),
        Component::CalendarYearLastTwo(m) => Inner::CalendarYearLastTwo(m),
        Component::IsoYearLastTwo(m) => Inner::IsoYearLastTwo(m),
        _ => return None,
    };
    Some(node)
}

// The node of a part of a time, of an offset or of the text itself.
fn time_node<'a>(component: Component) -> Option<FormatDescriptionV3Inner<'a>>
    ensures value { IfSome result (λ node. IsPart component node) }
    ensures none { IsNone result → is_time_part component ≡ false }
{
    let node = match component {
        Component::Hour12(m) => Inner::Hour12(m),
        Component::Hour24(m) => Inner::Hour24(m),
        Component::Minute(m) => Inner::Minute(m),
        Component::Period(m) => Inner::Period(m),
        Component::Second(m) => Inner::Second(m),
        Component::Subsecond(m) => Inner::Subsecond(m),
        Component::OffsetHour(m) => Inner::OffsetHour(m),
        Component::OffsetMinute(m) => Inner::OffsetMinute(m),
        Component::OffsetSecond(m) => Inner::OffsetSecond(m),
        Component::Ignore(m) => Inner::Ignore(m),
        Component::UnixTimestampSecond(m) => Inner::UnixTimestampSecond(m),
        Component::UnixTimestampMillisecond(m) => Inner::UnixTimestampMillisecond(m),
        Component::UnixTimestampMicrosecond(m) => Inner::UnixTimestampMicrosecond(m),
        Component::UnixTimestampNanosecond(m) => Inner::UnixTimestampNanosecond(m),
        Component::End(m) => Inner::End(m),
        _ => return None,
    };
    Some(node)
}

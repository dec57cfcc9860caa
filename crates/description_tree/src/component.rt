//! The component of a node, where it is one.

ghost use Rattle.std.specs.Prelude.{◌≡◌, false, IfSome};
ghost use Rattle.std.specs.Option.{IsNone};
ghost use Rattle.description_items.specs.Tree.{Part};
ghost use Rattle.description_items.specs.Modern.{modern};
ghost use Rattle.description_tree.specs.Inner.{inner_tree};
ghost use Rattle.description_tree.specs.Kinds.{is_part, is_part_of, is_date_part, is_year_part, is_time_part};

use crate::inner::{FormatDescriptionV3Inner, FormatDescriptionV3Inner as Inner};
use description_items::Component;

impl FormatDescriptionV3Inner<'_> {
    /// The component, if the node is one.
    #[inline(always)]
    pub fn component(&self) -> Option<Component>
        ensures some { IfSome result (λ component. inner_tree self.now ≡ Part component) }
        ensures modern { IfSome result (λ component. modern component ≡ component) }
        ensures none { IsNone result → is_part (inner_tree self.now) ≡ false }
    {
        if let Some(component) = date_part(self) {
            return Some(component);
        }
        if let Some(component) = year_part(self) {
            return Some(component);
        }
        time_part(self)
    }
}

// A day, a month, a weekday or a week.
#[inline(always)]
fn date_part(node: &Inner<'_>) -> Option<Component>
    ensures some { IfSome result (λ component. inner_tree node.now ≡ Part component) }
    ensures modern { IfSome result (λ component. modern component ≡ component) }
    ensures none { IsNone result → is_part_of is_date_part (inner_tree node.now) ≡ false }
{
    let component = match node {
        Inner::Day(m) => Component::Day(*m),
        Inner::MonthShort(m) => Component::MonthShort(*m),
        Inner::MonthLong(m) => Component::MonthLong(*m),
        Inner::MonthNumerical(m) => Component::MonthNumerical(*m),
        Inner::Ordinal(m) => Component::Ordinal(*m),
        Inner::WeekdayShort(m) => Component::WeekdayShort(*m),
        Inner::WeekdayLong(m) => Component::WeekdayLong(*m),
        Inner::WeekdaySunday(m) => Component::WeekdaySunday(*m),
        Inner::WeekdayMonday(m) => Component::WeekdayMonday(*m),
        Inner::WeekNumberIso(m) => Component::WeekNumberIso(*m),
        Inner::WeekNumberSunday(m) => Component::WeekNumberSunday(*m),
        Inner::WeekNumberMonday(m) => Component::WeekNumberMonday(*m),
        _ => return None,
    };
    Some(component)
}

// A year.
#[inline(always)]
fn year_part(node: &Inner<'_>) -> Option<Component>
    ensures some { IfSome result (λ component. inner_tree node.now ≡ Part component) }
    ensures modern { IfSome result (λ component. modern component ≡ component) }
    ensures none { IsNone result → is_part_of is_year_part (inner_tree node.now) ≡ false }
{
    let component = match node {
        Inner::CalendarYearFullExtendedRange(m) => Component::CalendarYearFullExtendedRange(*m),
        Inner::IsoYearFullExtendedRange(m) => Component::IsoYearFullExtendedRange(*m),
        Inner::CalendarYearFullStandardRange(m) => Component::CalendarYearFullStandardRange(*m),
        Inner::IsoYearFullStandardRange(m) => Component::IsoYearFullStandardRange(*m),
        Inner::CalendarYearCenturyExtendedRange(m) => {
            Component::CalendarYearCenturyExtendedRange(*m)
        }
        Inner::IsoYearCenturyExtendedRange(m) => Component::IsoYearCenturyExtendedRange(*m),
        Inner::CalendarYearCenturyStandardRange(m) => {
            Component::CalendarYearCenturyStandardRange(*m)
        }
        Inner::IsoYearCenturyStandardRange(m) => Component::IsoYearCenturyStandardRange(*m),
        Inner::CalendarYearLastTwo(m) => Component::CalendarYearLastTwo(*m),
        Inner::IsoYearLastTwo(m) => Component::IsoYearLastTwo(*m),
        _ => return None,
    };
    Some(component)
}

// A part of a time, of an offset or of the text itself.
#[inline(always)]
fn time_part(node: &Inner<'_>) -> Option<Component>
    ensures some { IfSome result (λ component. inner_tree node.now ≡ Part component) }
    ensures modern { IfSome result (λ component. modern component ≡ component) }
    ensures none { IsNone result → is_part_of is_time_part (inner_tree node.now) ≡ false }
{
    let component = match node {
        Inner::Hour12(m) => Component::Hour12(*m),
        Inner::Hour24(m) => Component::Hour24(*m),
        Inner::Minute(m) => Component::Minute(*m),
        Inner::Period(m) => Component::Period(*m),
        Inner::Second(m) => Component::Second(*m),
        Inner::Subsecond(m) => Component::Subsecond(*m),
        Inner::OffsetHour(m) => Component::OffsetHour(*m),
        Inner::OffsetMinute(m) => Component::OffsetMinute(*m),
        Inner::OffsetSecond(m) => Component::OffsetSecond(*m),
        Inner::Ignore(m) => Component::Ignore(*m),
        Inner::UnixTimestampSecond(m) => Component::UnixTimestampSecond(*m),
        Inner::UnixTimestampMillisecond(m) => Component::UnixTimestampMillisecond(*m),
        Inner::UnixTimestampMicrosecond(m) => Component::UnixTimestampMicrosecond(*m),
        Inner::UnixTimestampNanosecond(m) => Component::UnixTimestampNanosecond(*m),
        Inner::End(m) => Component::End(*m),
        _ => return None,
    };
    Some(component)
}

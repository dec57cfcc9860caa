//! The bytes that a component may take.

ghost use Rattle.std.specs.Prelude.{◌≡◌};
ghost use Rattle.description_tree.specs.Reserved.{digits_width, width_of};

use description_items::Component;
use description_items::modifier::SubsecondDigits;

// The digits of a fraction of a second.
fn digits_width(digits: SubsecondDigits) -> usize
    ensures { result ≡ digits_width digits }
{
    match digits {
        SubsecondDigits::One => 1,
        SubsecondDigits::Two => 2,
        SubsecondDigits::Three => 3,
        SubsecondDigits::Four => 4,
        SubsecondDigits::Five => 5,
        SubsecondDigits::Six => 6,
        SubsecondDigits::Seven => 7,
        SubsecondDigits::Eight => 8,
        SubsecondDigits::Nine | SubsecondDigits::OneOrMore => 9,
    }
}

// The bytes of its longest value.
#[tactic(auto, unfolding(crate::specs::Reserved::width_of))]
pub(crate) fn width_of(component: Component) -> usize
    ensures value { result ≡ width_of component }
{
    match component {
        Component::Ignore(_) | Component::End(_) => 0,
        Component::WeekdaySunday(_) | Component::WeekdayMonday(_) => 1,
        Component::MonthShort(_)
        | Component::WeekdayShort(_)
        | Component::Ordinal(_)
        | Component::OffsetHour(_)
        | Component::CalendarYearCenturyStandardRange(_)
        | Component::IsoYearCenturyStandardRange(_) => 3,
        Component::CalendarYearCenturyExtendedRange(_)
        | Component::IsoYearCenturyExtendedRange(_)
        | Component::CalendarYearFullStandardRange(_)
        | Component::IsoYearFullStandardRange(_) => 5,
        Component::CalendarYearFullExtendedRange(_) | Component::IsoYearFullExtendedRange(_) => 7,
        Component::MonthLong(_) | Component::WeekdayLong(_) => 9,
        Component::UnixTimestampSecond(_) => 15,
        Component::UnixTimestampMillisecond(_) => 18,
        Component::UnixTimestampMicrosecond(_) => 21,
        Component::UnixTimestampNanosecond(_) => 24,
        Component::Subsecond(m) => digits_width(m.digits),
        Component::Day(_)
        | Component::MonthNumerical(_)
        | Component::WeekNumberIso(_)
        | Component::WeekNumberSunday(_)
        | Component::WeekNumberMonday(_)
        | Component::CalendarYearLastTwo(_)
        | Component::IsoYearLastTwo(_)
        | Component::Hour12(_)
        | Component::Hour24(_)
        | Component::Minute(_)
        | Component::Period(_)
        | Component::Second(_)
        | Component::OffsetMinute(_)
        | Component::OffsetSecond(_)
        | Component::Month(_)
        | Component::Weekday(_)
        | Component::WeekNumber(_)
        | Component::Year(_)
        | Component::Hour(_)
        | Component::UnixTimestamp(_) => 2,
    }
}

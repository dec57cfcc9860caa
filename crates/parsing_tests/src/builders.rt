//! The modifiers of each component: their defaults, and a value given to each.

use crate::support::tell_all;
use description_items::Component;
use description_items::modifier::*;
use std::alloc::Global;

fn choices_have_defaults() -> bool {
    Padding::default() == Padding::Zero
        && MonthRepr::default() == MonthRepr::Numerical
        && WeekdayRepr::default() == WeekdayRepr::Long
        && WeekNumberRepr::default() == WeekNumberRepr::Iso
        && YearRepr::default() == YearRepr::Full
        && YearRange::default() == YearRange::Extended
        && SubsecondDigits::default() == SubsecondDigits::OneOrMore
        && UnixTimestampPrecision::default() == UnixTimestampPrecision::Second
        && TrailingInput::default() == TrailingInput::Prohibit
}

fn days_and_weeks() -> [Component; 12] {
    [
        Component::Day(Day::default()),
        Component::Day(Day::default().with_padding(Padding::Space)),
        Component::Ordinal(Ordinal::default()),
        Component::Ordinal(Ordinal::default().with_padding(Padding::Space)),
        Component::WeekNumberIso(WeekNumberIso::default()),
        Component::WeekNumberIso(WeekNumberIso::default().with_padding(Padding::Space)),
        Component::WeekNumberSunday(WeekNumberSunday::default()),
        Component::WeekNumberSunday(WeekNumberSunday::default().with_padding(Padding::Space)),
        Component::WeekNumberMonday(WeekNumberMonday::default()),
        Component::WeekNumberMonday(WeekNumberMonday::default().with_padding(Padding::Space)),
        Component::WeekNumber(WeekNumber::default()),
        Component::WeekNumber(
            WeekNumber::default()
                .with_padding(Padding::Space)
                .with_repr(WeekNumberRepr::Sunday),
        ),
    ]
}

fn weekdays() -> [Component; 10] {
    [
        Component::WeekdayShort(WeekdayShort::default()),
        Component::WeekdayShort(WeekdayShort::default().with_case_sensitive(false)),
        Component::WeekdayLong(WeekdayLong::default()),
        Component::WeekdayLong(WeekdayLong::default().with_case_sensitive(false)),
        Component::WeekdaySunday(WeekdaySunday::default()),
        Component::WeekdaySunday(WeekdaySunday::default().with_one_indexed(false)),
        Component::WeekdayMonday(WeekdayMonday::default()),
        Component::WeekdayMonday(WeekdayMonday::default().with_one_indexed(false)),
        Component::Weekday(Weekday::default()),
        Component::Weekday(
            Weekday::default()
                .with_repr(WeekdayRepr::Monday)
                .with_one_indexed(false)
                .with_case_sensitive(false),
        ),
    ]
}

fn months_and_years() -> [Component; 10] {
    [
        Component::MonthShort(MonthShort::default()),
        Component::MonthShort(MonthShort::default().with_case_sensitive(false)),
        Component::MonthLong(MonthLong::default()),
        Component::MonthLong(MonthLong::default().with_case_sensitive(false)),
        Component::MonthNumerical(MonthNumerical::default()),
        Component::MonthNumerical(MonthNumerical::default().with_padding(Padding::Space)),
        Component::Month(Month::default()),
        Component::Month(
            Month::default()
                .with_padding(Padding::Space)
                .with_repr(MonthRepr::Short)
                .with_case_sensitive(false),
        ),
        Component::Year(Year::default()),
        Component::Year(
            Year::default()
                .with_padding(Padding::Space)
                .with_repr(YearRepr::Century)
                .with_range(YearRange::Standard)
                .with_iso_week_based(true)
                .with_sign_is_mandatory(true),
        ),
    ]
}

fn years_of_the_calendar() -> [Component; 10] {
    [
        Component::CalendarYearFullExtendedRange(CalendarYearFullExtendedRange::default()),
        Component::CalendarYearFullExtendedRange(
            CalendarYearFullExtendedRange::default()
                .with_padding(Padding::Space)
                .with_sign_is_mandatory(true),
        ),
        Component::CalendarYearFullStandardRange(CalendarYearFullStandardRange::default()),
        Component::CalendarYearFullStandardRange(
            CalendarYearFullStandardRange::default()
                .with_padding(Padding::Space)
                .with_sign_is_mandatory(true),
        ),
        Component::CalendarYearCenturyExtendedRange(CalendarYearCenturyExtendedRange::default()),
        Component::CalendarYearCenturyExtendedRange(
            CalendarYearCenturyExtendedRange::default()
                .with_padding(Padding::Space)
                .with_sign_is_mandatory(true),
        ),
        Component::CalendarYearCenturyStandardRange(CalendarYearCenturyStandardRange::default()),
        Component::CalendarYearCenturyStandardRange(
            CalendarYearCenturyStandardRange::default()
                .with_padding(Padding::Space)
                .with_sign_is_mandatory(true),
        ),
        Component::CalendarYearLastTwo(CalendarYearLastTwo::default()),
        Component::CalendarYearLastTwo(CalendarYearLastTwo::default().with_padding(Padding::Space)),
    ]
}

fn years_of_weeks() -> [Component; 10] {
    [
        Component::IsoYearFullExtendedRange(IsoYearFullExtendedRange::default()),
        Component::IsoYearFullExtendedRange(
            IsoYearFullExtendedRange::default()
                .with_padding(Padding::Space)
                .with_sign_is_mandatory(true),
        ),
        Component::IsoYearFullStandardRange(IsoYearFullStandardRange::default()),
        Component::IsoYearFullStandardRange(
            IsoYearFullStandardRange::default()
                .with_padding(Padding::Space)
                .with_sign_is_mandatory(true),
        ),
        Component::IsoYearCenturyExtendedRange(IsoYearCenturyExtendedRange::default()),
        Component::IsoYearCenturyExtendedRange(
            IsoYearCenturyExtendedRange::default()
                .with_padding(Padding::Space)
                .with_sign_is_mandatory(true),
        ),
        Component::IsoYearCenturyStandardRange(IsoYearCenturyStandardRange::default()),
        Component::IsoYearCenturyStandardRange(
            IsoYearCenturyStandardRange::default()
                .with_padding(Padding::Space)
                .with_sign_is_mandatory(true),
        ),
        Component::IsoYearLastTwo(IsoYearLastTwo::default()),
        Component::IsoYearLastTwo(IsoYearLastTwo::default().with_padding(Padding::Space)),
    ]
}

fn hours() -> [Component; 8] {
    [
        Component::Hour12(Hour12::default()),
        Component::Hour12(Hour12::default().with_padding(Padding::Space)),
        Component::Hour24(Hour24::default()),
        Component::Hour24(Hour24::default().with_padding(Padding::Space)),
        Component::Hour(Hour::default()),
        Component::Hour(
            Hour::default()
                .with_padding(Padding::Space)
                .with_is_12_hour_clock(true),
        ),
        Component::Period(Period::default()),
        Component::Period(
            Period::default()
                .with_is_uppercase(false)
                .with_case_sensitive(false),
        ),
    ]
}

fn minutes_and_ends() -> [Component; 8] {
    [
        Component::Minute(Minute::default()),
        Component::Minute(Minute::default().with_padding(Padding::Space)),
        Component::Second(Second::default()),
        Component::Second(Second::default().with_padding(Padding::Space)),
        Component::Subsecond(Subsecond::default()),
        Component::Subsecond(Subsecond::default().with_digits(SubsecondDigits::Three)),
        Component::End(End::default()),
        Component::End(End::default().with_trailing_input(TrailingInput::Discard)),
    ]
}

fn offsets() -> [Component; 6] {
    [
        Component::OffsetHour(OffsetHour::default()),
        Component::OffsetHour(
            OffsetHour::default()
                .with_sign_is_mandatory(true)
                .with_padding(Padding::Space),
        ),
        Component::OffsetMinute(OffsetMinute::default()),
        Component::OffsetMinute(OffsetMinute::default().with_padding(Padding::Space)),
        Component::OffsetSecond(OffsetSecond::default()),
        Component::OffsetSecond(OffsetSecond::default().with_padding(Padding::Space)),
    ]
}

fn timestamps() -> [Component; 10] {
    [
        Component::UnixTimestampSecond(UnixTimestampSecond::default()),
        Component::UnixTimestampSecond(UnixTimestampSecond::default().with_sign_is_mandatory(true)),
        Component::UnixTimestampMillisecond(UnixTimestampMillisecond::default()),
        Component::UnixTimestampMillisecond(
            UnixTimestampMillisecond::default().with_sign_is_mandatory(true),
        ),
        Component::UnixTimestampMicrosecond(UnixTimestampMicrosecond::default()),
        Component::UnixTimestampMicrosecond(
            UnixTimestampMicrosecond::default().with_sign_is_mandatory(true),
        ),
        Component::UnixTimestampNanosecond(UnixTimestampNanosecond::default()),
        Component::UnixTimestampNanosecond(
            UnixTimestampNanosecond::default().with_sign_is_mandatory(true),
        ),
        Component::UnixTimestamp(UnixTimestamp::default()),
        Component::UnixTimestamp(
            UnixTimestamp::default()
                .with_precision(UnixTimestampPrecision::Microsecond)
                .with_sign_is_mandatory(true),
        ),
    ]
}

fn told(alloc: Global) -> String {
    let mut told = String::new(alloc);
    tell_all(&mut told, &days_and_weeks());
    tell_all(&mut told, &weekdays());
    tell_all(&mut told, &months_and_years());
    tell_all(&mut told, &years_of_the_calendar());
    tell_all(&mut told, &years_of_weeks());
    tell_all(&mut told, &hours());
    tell_all(&mut told, &minutes_and_ends());
    tell_all(&mut told, &offsets());
    tell_all(&mut told, &timestamps());
    told
}

// A number of bytes to pass over is at least 1.
fn ignore_passes_over_a_byte() -> bool {
    Ignore::count(65_535) == Some(Ignore { count: 65_535 })
        && Ignore { count: 1 }.with_count(0) == None
}

#[test]
fn modifiers_have_defaults_and_change(rt: HostRuntime) {
    let told = told(rt.alloc());
    assert!(rt; choices_have_defaults() && ignore_passes_over_a_byte() && told.as_str() == TOLD);
}

// Each component by default, and then changed.
const TOLD: &str = r#"
Day(Day { padding: Zero })
Day(Day { padding: Space })
Ordinal(Ordinal { padding: Zero })
Ordinal(Ordinal { padding: Space })
WeekNumberIso(WeekNumberIso { padding: Zero })
WeekNumberIso(WeekNumberIso { padding: Space })
WeekNumberSunday(WeekNumberSunday { padding: Zero })
WeekNumberSunday(WeekNumberSunday { padding: Space })
WeekNumberMonday(WeekNumberMonday { padding: Zero })
WeekNumberMonday(WeekNumberMonday { padding: Space })
WeekNumber(WeekNumber { padding: Zero, repr: Iso })
WeekNumber(WeekNumber { padding: Space, repr: Sunday })
WeekdayShort(WeekdayShort { case_sensitive: true })
WeekdayShort(WeekdayShort { case_sensitive: false })
WeekdayLong(WeekdayLong { case_sensitive: true })
WeekdayLong(WeekdayLong { case_sensitive: false })
WeekdaySunday(WeekdaySunday { one_indexed: true })
WeekdaySunday(WeekdaySunday { one_indexed: false })
WeekdayMonday(WeekdayMonday { one_indexed: true })
WeekdayMonday(WeekdayMonday { one_indexed: false })
Weekday(Weekday { repr: Long, one_indexed: true, case_sensitive: true })
Weekday(Weekday { repr: Monday, one_indexed: false, case_sensitive: false })
MonthShort(MonthShort { case_sensitive: true })
MonthShort(MonthShort { case_sensitive: false })
MonthLong(MonthLong { case_sensitive: true })
MonthLong(MonthLong { case_sensitive: false })
MonthNumerical(MonthNumerical { padding: Zero })
MonthNumerical(MonthNumerical { padding: Space })
Month(Month { padding: Zero, repr: Numerical, case_sensitive: true })
Month(Month { padding: Space, repr: Short, case_sensitive: false })
Year(Year { padding: Zero, repr: Full, range: Extended, iso_week_based: false, sign_is_mandatory: false })
Year(Year { padding: Space, repr: Century, range: Standard, iso_week_based: true, sign_is_mandatory: true })
CalendarYearFullExtendedRange(CalendarYearFullExtendedRange { padding: Zero, sign_is_mandatory: false })
CalendarYearFullExtendedRange(CalendarYearFullExtendedRange { padding: Space, sign_is_mandatory: true })
CalendarYearFullStandardRange(CalendarYearFullStandardRange { padding: Zero, sign_is_mandatory: false })
CalendarYearFullStandardRange(CalendarYearFullStandardRange { padding: Space, sign_is_mandatory: true })
CalendarYearCenturyExtendedRange(CalendarYearCenturyExtendedRange { padding: Zero, sign_is_mandatory: false })
CalendarYearCenturyExtendedRange(CalendarYearCenturyExtendedRange { padding: Space, sign_is_mandatory: true })
CalendarYearCenturyStandardRange(CalendarYearCenturyStandardRange { padding: Zero, sign_is_mandatory: false })
CalendarYearCenturyStandardRange(CalendarYearCenturyStandardRange { padding: Space, sign_is_mandatory: true })
CalendarYearLastTwo(CalendarYearLastTwo { padding: Zero })
CalendarYearLastTwo(CalendarYearLastTwo { padding: Space })
IsoYearFullExtendedRange(IsoYearFullExtendedRange { padding: Zero, sign_is_mandatory: false })
IsoYearFullExtendedRange(IsoYearFullExtendedRange { padding: Space, sign_is_mandatory: true })
IsoYearFullStandardRange(IsoYearFullStandardRange { padding: Zero, sign_is_mandatory: false })
IsoYearFullStandardRange(IsoYearFullStandardRange { padding: Space, sign_is_mandatory: true })
IsoYearCenturyExtendedRange(IsoYearCenturyExtendedRange { padding: Zero, sign_is_mandatory: false })
IsoYearCenturyExtendedRange(IsoYearCenturyExtendedRange { padding: Space, sign_is_mandatory: true })
IsoYearCenturyStandardRange(IsoYearCenturyStandardRange { padding: Zero, sign_is_mandatory: false })
IsoYearCenturyStandardRange(IsoYearCenturyStandardRange { padding: Space, sign_is_mandatory: true })
IsoYearLastTwo(IsoYearLastTwo { padding: Zero })
IsoYearLastTwo(IsoYearLastTwo { padding: Space })
Hour12(Hour12 { padding: Zero })
Hour12(Hour12 { padding: Space })
Hour24(Hour24 { padding: Zero })
Hour24(Hour24 { padding: Space })
Hour(Hour { padding: Zero, is_12_hour_clock: false })
Hour(Hour { padding: Space, is_12_hour_clock: true })
Period(Period { is_uppercase: true, case_sensitive: true })
Period(Period { is_uppercase: false, case_sensitive: false })
Minute(Minute { padding: Zero })
Minute(Minute { padding: Space })
Second(Second { padding: Zero })
Second(Second { padding: Space })
Subsecond(Subsecond { digits: OneOrMore })
Subsecond(Subsecond { digits: Three })
End(End { trailing_input: Prohibit })
End(End { trailing_input: Discard })
OffsetHour(OffsetHour { sign_is_mandatory: false, padding: Zero })
OffsetHour(OffsetHour { sign_is_mandatory: true, padding: Space })
OffsetMinute(OffsetMinute { padding: Zero })
OffsetMinute(OffsetMinute { padding: Space })
OffsetSecond(OffsetSecond { padding: Zero })
OffsetSecond(OffsetSecond { padding: Space })
UnixTimestampSecond(UnixTimestampSecond { sign_is_mandatory: false })
UnixTimestampSecond(UnixTimestampSecond { sign_is_mandatory: true })
UnixTimestampMillisecond(UnixTimestampMillisecond { sign_is_mandatory: false })
UnixTimestampMillisecond(UnixTimestampMillisecond { sign_is_mandatory: true })
UnixTimestampMicrosecond(UnixTimestampMicrosecond { sign_is_mandatory: false })
UnixTimestampMicrosecond(UnixTimestampMicrosecond { sign_is_mandatory: true })
UnixTimestampNanosecond(UnixTimestampNanosecond { sign_is_mandatory: false })
UnixTimestampNanosecond(UnixTimestampNanosecond { sign_is_mandatory: true })
UnixTimestamp(UnixTimestamp { precision: Second, sign_is_mandatory: false })
UnixTimestamp(UnixTimestamp { precision: Microsecond, sign_is_mandatory: true })"#;

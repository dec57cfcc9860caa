//! The older forms of components, said by the newer ones.
ghost use Rattle.std.specs.Prelude.{◌≡◌};
ghost use Rattle.description_items.specs.Modern.{modern, modern_month, modern_weekday, modern_week_number, modern_calendar_year, modern_iso_year, modern_timestamp};

use crate::component::Component;
use crate::modifier::{
    self, MonthRepr, UnixTimestampPrecision, WeekNumberRepr, WeekdayRepr, YearRange, YearRepr,
};

impl Component {
    /// The component that says the same with only the modifiers that matter there: an older form
    /// becomes the newer one that its modifiers select, any other component stays.
    pub fn modern(self) -> Component
        ensures value { result ≡ modern self }
    {
        match self {
            Component::Month(month) => modern_month(month),
            Component::Weekday(weekday) => modern_weekday(weekday),
            Component::WeekNumber(week) => modern_week_number(week),
            Component::Year(year) => {
                if year.iso_week_based {
                    iso_year(year)
                } else {
                    calendar_year(year)
                }
            }
            Component::Hour(hour) => {
                if hour.is_12_hour_clock {
                    Component::Hour12(modifier::Hour12 {
                        padding: hour.padding,
                    })
                } else {
                    Component::Hour24(modifier::Hour24 {
                        padding: hour.padding,
                    })
                }
            }
            Component::UnixTimestamp(timestamp) => modern_timestamp(timestamp),
            other => other,
        }
    }
}

fn modern_month(month: modifier::Month) -> Component
    ensures { result ≡ modern_month month.repr month.padding month.case_sensitive }
{
    match month.repr {
        MonthRepr::Numerical => Component::MonthNumerical(modifier::MonthNumerical {
            padding: month.padding,
        }),
        MonthRepr::Long => Component::MonthLong(modifier::MonthLong {
            case_sensitive: month.case_sensitive,
        }),
        MonthRepr::Short => Component::MonthShort(modifier::MonthShort {
            case_sensitive: month.case_sensitive,
        }),
    }
}

fn modern_weekday(weekday: modifier::Weekday) -> Component
    ensures { result ≡ modern_weekday weekday.repr weekday.one_indexed weekday.case_sensitive }
{
    match weekday.repr {
        WeekdayRepr::Short => Component::WeekdayShort(modifier::WeekdayShort {
            case_sensitive: weekday.case_sensitive,
        }),
        WeekdayRepr::Long => Component::WeekdayLong(modifier::WeekdayLong {
            case_sensitive: weekday.case_sensitive,
        }),
        WeekdayRepr::Sunday => Component::WeekdaySunday(modifier::WeekdaySunday {
            one_indexed: weekday.one_indexed,
        }),
        WeekdayRepr::Monday => Component::WeekdayMonday(modifier::WeekdayMonday {
            one_indexed: weekday.one_indexed,
        }),
    }
}

fn modern_week_number(week: modifier::WeekNumber) -> Component
    ensures { result ≡ modern_week_number week.repr week.padding }
{
    let padding = week.padding;
    match week.repr {
        WeekNumberRepr::Iso => Component::WeekNumberIso(modifier::WeekNumberIso { padding }),
        WeekNumberRepr::Sunday => {
            Component::WeekNumberSunday(modifier::WeekNumberSunday { padding })
        }
        WeekNumberRepr::Monday => {
            Component::WeekNumberMonday(modifier::WeekNumberMonday { padding })
        }
    }
}

// A year of the calendar.
fn calendar_year(year: modifier::Year) -> Component
    ensures { result
        ≡ modern_calendar_year year.repr year.range year.padding year.sign_is_mandatory }
{
    let modifier::Year {
        padding,
        sign_is_mandatory,
        ..
    } = year;
    match (year.repr, year.range) {
        (YearRepr::Full, YearRange::Extended) => {
            Component::CalendarYearFullExtendedRange(modifier::CalendarYearFullExtendedRange {
                padding,
                sign_is_mandatory,
            })
        }
        (YearRepr::Full, YearRange::Standard) => {
            Component::CalendarYearFullStandardRange(modifier::CalendarYearFullStandardRange {
                padding,
                sign_is_mandatory,
            })
        }
        (YearRepr::Century, YearRange::Extended) => {
            Component::CalendarYearCenturyExtendedRange(
                modifier::CalendarYearCenturyExtendedRange {
                    padding,
                    sign_is_mandatory,
                },
            )
        }
        (YearRepr::Century, YearRange::Standard) => {
            Component::CalendarYearCenturyStandardRange(
                modifier::CalendarYearCenturyStandardRange {
                    padding,
                    sign_is_mandatory,
                },
            )
        }
        (YearRepr::LastTwo, _) => {
            Component::CalendarYearLastTwo(modifier::CalendarYearLastTwo { padding })
        }
    }
}

// A year of ISO 8601 weeks.
fn iso_year(year: modifier::Year) -> Component
    ensures { result ≡ modern_iso_year year.repr year.range year.padding year.sign_is_mandatory }
{
    let modifier::Year {
        padding,
        sign_is_mandatory,
        ..
    } = year;
    match (year.repr, year.range) {
        (YearRepr::Full, YearRange::Extended) => {
            Component::IsoYearFullExtendedRange(modifier::IsoYearFullExtendedRange {
                padding,
                sign_is_mandatory,
            })
        }
        (YearRepr::Full, YearRange::Standard) => {
            Component::IsoYearFullStandardRange(modifier::IsoYearFullStandardRange {
                padding,
                sign_is_mandatory,
            })
        }
        (YearRepr::Century, YearRange::Extended) => {
            Component::IsoYearCenturyExtendedRange(modifier::IsoYearCenturyExtendedRange {
                padding,
                sign_is_mandatory,
            })
        }
        (YearRepr::Century, YearRange::Standard) => {
            Component::IsoYearCenturyStandardRange(modifier::IsoYearCenturyStandardRange {
                padding,
                sign_is_mandatory,
            })
        }
        (YearRepr::LastTwo, _) => {
            Component::IsoYearLastTwo(modifier::IsoYearLastTwo { padding })
        }
    }
}

fn modern_timestamp(timestamp: modifier::UnixTimestamp) -> Component
    ensures { result ≡ modern_timestamp timestamp.precision timestamp.sign_is_mandatory }
{
    let sign_is_mandatory = timestamp.sign_is_mandatory;
    match timestamp.precision {
        UnixTimestampPrecision::Second => {
            Component::UnixTimestampSecond(modifier::UnixTimestampSecond { sign_is_mandatory })
        }
        UnixTimestampPrecision::Millisecond => {
            Component::UnixTimestampMillisecond(modifier::UnixTimestampMillisecond {
                sign_is_mandatory,
            })
        }
        UnixTimestampPrecision::Microsecond => {
            Component::UnixTimestampMicrosecond(modifier::UnixTimestampMicrosecond {
                sign_is_mandatory,
            })
        }
        UnixTimestampPrecision::Nanosecond => {
            Component::UnixTimestampNanosecond(modifier::UnixTimestampNanosecond {
                sign_is_mandatory,
            })
        }
    }
}

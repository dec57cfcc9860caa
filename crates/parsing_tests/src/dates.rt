//! Dates that parts name.

use calendar::{Date, Month, Weekday};
use parsing_values::{DateParts, YearParts, date, named_day, year};

const NO_YEAR: YearParts = YearParts {
    year: None,
    century: None,
    century_is_negative: false,
    last_two: None,
};

// The year -105: the last two digits lead backwards.
const BACKWARDS: YearParts = YearParts {
    century: Some(-1),
    century_is_negative: true,
    last_two: Some(5),
    ..NO_YEAR
};

// 12 April 1985 was a Friday.
const FRIDAY: DateParts = DateParts {
    year: YearParts {
        year: Some(1985),
        ..NO_YEAR
    },
    iso_year: NO_YEAR,
    ordinal: None,
    month: Some(Month::April),
    day: Some(12),
    weekday: Some(Weekday::Monday),
    iso_week: Some(1),
    sunday_week: None,
    monday_week: None,
};

// The 102nd day of its year.
fn named_days() -> [Option<Date>; 5] {
    [
        named_day::ordinal_date(1985, 102).ok(),
        named_day::calendar_date(1985, Month::April, 12).ok(),
        named_day::iso_week_date(1985, 15, Weekday::Friday).ok(),
        named_day::sunday_week_date(1985, 14, Weekday::Friday).ok(),
        named_day::monday_week_date(1985, 14, Weekday::Friday).ok(),
    ]
}

#[test]
fn dates(rt: HostRuntime) {
    let wanted = Date::from_calendar_date(1985, Month::April, 12).unwrap_or(Date::MIN);
    // the day of a month goes before that of a week
    assert!(rt;
        named_days() == [Some(wanted); 5]
            && date(&FRIDAY) == Ok(wanted)
            && year(&BACKWARDS) == Some(-105)
    );
}

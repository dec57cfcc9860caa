//! All views of the days of eight centuries, against a walk by the table of month lengths.
use crate::rows::date_of;
use calendar::{Date, Month};

// The lengths of the months of a year that is no leap year.
static LENGTHS: [u8; 12] = [31, 28, 31, 30, 31, 30, 31, 31, 30, 31, 30, 31];

// A year, a month, a day of the month, and the day's place in the year.
type Day = (i32, u8, u8, u16);

// What the views say of a day: the day, the days from Monday, the Sundays and the Mondays of the
// year so far, the year and the week of ISO 8601, the Julian day.
type Views = (Day, (u8, u8, u8), (i32, u8), i32);

fn views_of(date: Date) -> Views {
    let (year, month, day) = date.to_calendar_date();
    let (iso_year, iso_week, weekday) = date.to_iso_week_date();
    (
        (year, month.number(), day, date.ordinal()),
        (
            weekday.number_days_from_monday(),
            date.sunday_based_week(),
            date.monday_based_week(),
        ),
        (iso_year, iso_week),
        date.to_julian_day(),
    )
}

fn is_leap(year: i32) -> bool {
    year % 4 == 0 && (year % 100 != 0 || year % 400 == 0)
}

fn length(year: i32, month: u8) -> u8 {
    if month == 2 && is_leap(year) {
        return 29;
    }
    LENGTHS[(month as usize + 11) % 12]
}

// The day after: the next one of the month, of the next month, or of the next year.
fn next_day((year, month, day, ordinal): Day) -> Day {
    let ordinal = ordinal.wrapping_add(1);
    if day < length(year, month) {
        (year, month, day.wrapping_add(1), ordinal)
    } else if month < 12 {
        (year, month.wrapping_add(1), 1, ordinal)
    } else {
        (year.wrapping_add(1), 1, 1, 1)
    }
}

// The ISO week that begins on this Monday: the year of its Thursday, and which Thursday of it that is.
fn week_of_monday((year, _, _, ordinal): Day) -> (i32, u8) {
    let days = if is_leap(year) { 366 } else { 365 };
    let thursday = ordinal.wrapping_add(3);
    if thursday > days {
        (year.wrapping_add(1), 1)
    } else {
        (year, (thursday.wrapping_add(6) / 7 % 64) as u8)
    }
}

fn advance((day, (weekday, sundays, mondays), week, julian_day): Views) -> Views {
    let day = next_day(day);
    let (sundays, mondays) = if day.3 == 1 {
        (0, 0)
    } else {
        (sundays, mondays)
    };
    let julian_day = julian_day.wrapping_add(1);
    match weekday.wrapping_add(1) % 7 {
        0 => (
            day,
            (0, sundays, mondays.wrapping_add(1)),
            week_of_monday(day),
            julian_day,
        ),
        6 => (day, (6, sundays.wrapping_add(1), mondays), week, julian_day),
        weekday => (day, (weekday, sundays, mondays), week, julian_day),
    }
}

#[test]
fn walks_eight_centuries(rt: HostRuntime) {
    let first = date_of(-401, Month::January, 1);
    let last = date_of(401, Month::December, 31);
    let mut views = ((-401, 1, 1, 1), (4, 0, 0), (-402, 53), 1_574_598);
    for date in first.iter_to(last) {
        assert!(rt; views_of(date) == views);
        views = advance(views);
    }
    assert!(rt; views.0 == (402, 1, 1, 1));
}

//! Days by their views, moved, and as keys.
use crate::rows::{date_of, hash_of, leap_day};
use calendar::{ComponentRange, Date, Month, SignedDuration, Weekday};

// The day that was answered, and 1970-01-01 where none was.
pub fn answered(answer: Result<Date, ComponentRange>) -> Date {
    answer.unwrap_or(Date::UNIX_EPOCH)
}

// A year, a month and a day of the month, the Julian day, the place in the year; the year and the week of ISO 8601, the weekday.
type Views = (i32, Month, u8, i32, u16, (i32, u8, Weekday));

fn views(date: Date) -> Views {
    let (iso_year, _, weekday) = date.to_iso_week_date();
    let (_, ordinal) = date.to_ordinal_date();
    (
        date.year(),
        date.month(),
        date.day(),
        date.to_julian_day(),
        ordinal,
        (iso_year, date.iso_week(), weekday),
    )
}

static DAYS: [Views; 8] = [
    (
        -999_999,
        Month::January,
        1,
        -363_521_074,
        1,
        (-999_999, 1, Weekday::Monday),
    ),
    (
        1970,
        Month::January,
        1,
        2_440_588,
        1,
        (1970, 1, Weekday::Thursday),
    ),
    (
        2018,
        Month::January,
        1,
        2_458_120,
        1,
        (2018, 1, Weekday::Monday),
    ),
    (
        2021,
        Month::January,
        1,
        2_459_216,
        1,
        (2020, 53, Weekday::Friday),
    ),
    (
        2024,
        Month::February,
        29,
        2_460_370,
        60,
        (2024, 9, Weekday::Thursday),
    ),
    (
        2024,
        Month::March,
        7,
        2_460_377,
        67,
        (2024, 10, Weekday::Thursday),
    ),
    (
        9999,
        Month::December,
        31,
        5_373_484,
        365,
        (9999, 52, Weekday::Friday),
    ),
    (
        999_999,
        Month::December,
        31,
        366_963_559,
        365,
        (999_999, 52, Weekday::Friday),
    ),
];

// What is seen of the day that each view of a day names.
fn named(day: &Views) -> [Views; 5] {
    let date = date_of(day.0, day.1, day.2);
    let (iso_year, week, weekday) = day.5;
    [
        views(date),
        views(Date::from_count(date.count())),
        views(answered(Date::from_julian_day(day.3))),
        views(answered(Date::from_ordinal_date(day.0, day.4))),
        views(answered(Date::from_iso_week_date(iso_year, week, weekday))),
    ]
}

fn names_days() -> bool {
    for day in &DAYS {
        if named(day) != [*day; 5] {
            return false;
        }
    }
    true
}

// The leap day with a part replaced, and the days beside it.
fn led_to() -> [(i32, Month, u8); 6] {
    let leap = leap_day();
    [
        answered(leap.replace_year(2020)).to_calendar_date(),
        answered(leap.replace_month(Month::May)).to_calendar_date(),
        answered(leap.replace_day(1)).to_calendar_date(),
        answered(leap.replace_ordinal(366)).to_calendar_date(),
        leap.next_day().unwrap_or(leap).to_calendar_date(),
        leap.previous_day().unwrap_or(leap).to_calendar_date(),
    ]
}

static LED_TO: [(i32, Month, u8); 6] = [
    (2020, Month::February, 29),
    (2024, Month::May, 29),
    (2024, Month::February, 1),
    (2024, Month::December, 31),
    (2024, Month::March, 1),
    (2024, Month::February, 28),
];

// The day so much later, by each call.
fn later(day: Date, duration: SignedDuration) -> Option<[Date; 4]> {
    let sum = day.checked_add(duration)?;
    let mut later = day;
    later += duration;
    Some([sum, day.saturating_add(duration), later, day + duration])
}

// The day so much earlier, by each call.
fn earlier(day: Date, duration: SignedDuration) -> Option<[Date; 4]> {
    let difference = day.checked_sub(duration)?;
    let mut earlier = day;
    earlier -= duration;
    Some([
        difference,
        day.saturating_sub(duration),
        earlier,
        day - duration,
    ])
}

// Seconds, and the day of March so much later and earlier than the second one: parts of a day are cut.
static MOVED: [(i64, u8, u8); 2] = [(86_399, 2, 2), (-86_400, 1, 3)];

fn moves_by_durations(second: Date) -> bool {
    for row in &MOVED {
        let duration = SignedDuration::seconds(row.0);
        let sum = date_of(2024, Month::March, row.1);
        let difference = date_of(2024, Month::March, row.2);
        if later(second, duration) != Some([sum; 4])
            || earlier(second, duration) != Some([difference; 4])
        {
            return false;
        }
    }
    true
}

// A day is the same key however it was found, and another one is another key.
fn is_apart_and_a_key(leap: Date, epoch: Date) -> bool {
    let same = answered(Date::from_julian_day(2_460_370));
    let key = hash_of(leap);
    leap - epoch == SignedDuration::days(19_782)
        && epoch < leap
        && key == hash_of(same)
        && key != hash_of(epoch)
}

#[test]
fn names_moves_and_keys(rt: HostRuntime) {
    assert!(rt; names_days() && led_to() == LED_TO);
    assert!(rt; moves_by_durations(date_of(2024, Month::March, 2)));
    assert!(rt; is_apart_and_a_key(leap_day(), Date::UNIX_EPOCH));
}

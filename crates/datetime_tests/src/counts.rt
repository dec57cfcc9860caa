//! Known days and clocks.

use datetime_wall::{
    clock_of_second, count_of_seconds, day_of_count, iso_week_of_count, monday_week_of_count,
    place_of_count, second_of_day, sunday_week_of_count, weekday_of_count,
};

static KNOWN_DAYS: [(i32, u8, u8); 4] = [
    (-999_999, 1, 1),
    (1970, 1, 1),
    (2000, 2, 29),
    (999_999, 12, 31),
];

fn are_known() -> bool {
    let days = [
        day_of_count(0),
        day_of_count(365_961_662),
        day_of_count(365_972_678),
        day_of_count(730_484_633),
    ];
    let places = (
        sunday_week_of_count(365_981_444),
        monday_week_of_count(365_981_444),
        weekday_of_count(365_961_662),
        place_of_count(365_972_984),
        iso_week_of_count(365_980_291),
    );
    days == KNOWN_DAYS && places == (8, 9, 3, (2000, 366), (2020, 53))
}

// A year, a month and a day; an hour, a minute and a second.
type Shown = ((i32, u8, u8), (u8, u8, u8));

// What a clock in UTC shows, from the calendar's first second to its last.
fn shown(seconds: i64) -> Option<Shown> {
    if seconds < -31_619_087_596_800 || seconds > 31_494_784_780_799 {
        return None;
    }
    let (count, second) = (count_of_seconds(seconds), second_of_day(seconds));
    Some((day_of_count(count), clock_of_second(second)))
}

static SECONDS: [(i64, Shown); 7] = [
    (-62_167_219_200, ((0, 1, 1), (0, 0, 0))),
    (-1, ((1969, 12, 31), (23, 59, 59))),
    (0, ((1970, 1, 1), (0, 0, 0))),
    (951_782_400, ((2000, 2, 29), (0, 0, 0))),
    (253_402_300_799, ((9999, 12, 31), (23, 59, 59))),
    (-31_619_087_596_800, ((-999_999, 1, 1), (0, 0, 0))),
    (31_494_784_780_799, ((999_999, 12, 31), (23, 59, 59))),
];

fn show_seconds() -> bool {
    for row in &SECONDS {
        if shown(row.0) != Some(row.1) {
            return false;
        }
    }
    true
}

#[test]
fn known_days_and_seconds(rt: HostRuntime) {
    assert!(rt; are_known() && show_seconds());
}

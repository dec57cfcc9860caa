//! Lengths of years and months, and days and their counts.
ghost use Rattle.calendar_count.specs.Range.{IsCount};

use calendar::{Month, util};
use calendar_count::{closed, march};

// A year, whether it is a leap year, its days and its weeks, and the days of its February and April.
type Year = (i32, bool, u16, u8, u8, u8);

fn lengths(year: i32) -> Year {
    (
        year,
        util::is_leap_year(year),
        util::days_in_year(year),
        util::weeks_in_year(year),
        util::days_in_month(Month::February, year),
        util::days_in_year_month(year, Month::April),
    )
}

static YEARS: [Year; 4] = [
    (2000, true, 366, 52, 29, 30),
    (1900, false, 365, 52, 28, 30),
    (2020, true, 366, 53, 29, 30),
    (i32::MAX, false, 365, 52, 28, 30),
];

fn years_have_lengths() -> bool {
    for year in &YEARS {
        if lengths(year.0) != *year {
            return false;
        }
    }
    true
}

// The day of a count, the count of that day, the days of its year before it, and whether four digits write the year.
type Shown = ((i32, u8, u8), u32, (i32, u16), bool);

fn shown(count: u32) -> Shown
    requires { IsCount count }
{
    let (year, month, day) = march::day_of_count(count);
    let (years, days) = closed::split_years(count);
    let mut back = 0;
    if closed::has_year(year) && 1 <= month && month <= 12 && closed::has_day(year, month, day) {
        back = march::count_of_day(year, month, day);
    }
    (
        (year, month, day),
        back,
        (closed::year_after(years), days),
        closed::has_four_digit_year(count),
    )
}

fn all_shown() -> [Shown; 9] {
    [
        shown(0),
        shown(363_521_073),
        shown(365_242_133),
        shown(365_242_134),
        shown(365_961_662),
        shown(365_972_678),
        shown(368_894_558),
        shown(368_894_559),
        shown(730_484_633),
    ]
}

// The first and the last day, the day before the Julian days begin, the ends of the years of four digits, and days between.
static SHOWN: [Shown; 9] = [
    ((-999_999, 1, 1), 0, (-999_999, 0), false),
    ((-4713, 11, 23), 363_521_073, (-4713, 326), false),
    ((-1, 12, 31), 365_242_133, (-1, 364), false),
    ((0, 1, 1), 365_242_134, (0, 0), true),
    ((1970, 1, 1), 365_961_662, (1970, 0), true),
    ((2000, 2, 29), 365_972_678, (2000, 59), true),
    ((9999, 12, 31), 368_894_558, (9999, 364), true),
    ((10_000, 1, 1), 368_894_559, (10_000, 0), false),
    ((999_999, 12, 31), 730_484_633, (999_999, 364), false),
];

#[test]
fn lengths_days_and_counts(rt: HostRuntime) {
    assert!(rt; years_have_lengths() && all_shown() == SHOWN);
}

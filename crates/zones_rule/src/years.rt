//! When a rule changes the clock in a year, POSIX.1-2024, section 8.3, `TZ`.
ghost use Rattle.std.specs.Prelude.{◌≡◌, ◌<◌, ◌≤◌};
ghost use Rattle.zones_rule.specs.Years as Years;

use crate::rule::{Change, Day, Summer};

/// From an instant on, in seconds since 1970-01-01T00:00:00Z, it is summer time, or no longer.
#[derive(Clone, Copy)]
pub(crate) struct Transition {
    pub(crate) at: i64,
    pub(crate) is_summer: bool,
}

// 1970-01-01 in days after 0001-01-01.
const EPOCH: i64 = 719_162;

const DAY: i64 = 86_400;

/// A clock with summer time.
#[derive(Clone, Copy)]
pub(crate) struct Clock {
    pub(crate) standard: i32,
    pub(crate) summer: Summer,
}

static DAYS_BEFORE: [u16; 12] = [0, 31, 59, 90, 120, 151, 181, 212, 243, 273, 304, 334];

fn is_leap(year: u64) -> bool
    ensures { result ≡ Years.is_leap year }
{
    year % 4 == 0 && (year % 100 != 0 || year % 400 == 0)
}

// The first day of a year, in days after 0001-01-01.
fn first_day(year: u64) -> u64
    requires { (1 ≤ year) × (year ≤ 10001) }
    ensures value { result ≡ Years.first_day year }
    ensures bound { result < 4000000 }
{
    let before = year - 1;
    before * 365 + before / 4 + before / 400 - before / 100
}

// The first day of a month.
fn first_day_of_month(year: u64, month: u8) -> u64
    requires { (1 ≤ year) × (year ≤ 10000) }
    ensures value { result ≡ Years.first_day_of_month year month }
    ensures bound { result < 4070000 }
{
    let index = usize::from(month.saturating_sub(1));
    let days = if index < 12 { DAYS_BEFORE[index] } else { 0 };
    let leap_day = u64::from(month > 2 && is_leap(year));
    first_day(year) + u64::from(days) + leap_day
}

// The first day of the month after one.
fn first_day_after(year: u64, month: u8) -> u64
    requires { (1 ≤ year) × (year ≤ 10000) }
    ensures value { result ≡ Years.first_day_after year month }
    ensures bound { result < 4070000 }
{
    if month < 12 {
        first_day_of_month(year, month + 1)
    } else {
        first_day(year + 1)
    }
}

// The weekday of a week of a month, or of the week before where the month has no such day.
fn weekday_in(year: u64, month: u8, week: u8, weekday: u8) -> u64
    requires { (1 ≤ year) × (year ≤ 10000) }
    ensures value { result ≡ Years.weekday_in year month week weekday }
    ensures words { 1 ≤ month → month ≤ 12 → 1 ≤ week → week ≤ 5 → weekday ≤ 6
        → Years.IsWeekday (Years.first_day_of_month year month) (Years.first_day_after year month) week weekday result }
    ensures bound { result < 4075000 }
{
    let first = first_day_of_month(year, month);
    // (0001-01-01 is a Monday)
    let shift = (u64::from(weekday) + 7 - (first + 1) % 7) % 7;
    let found = first + shift + u64::from(week.saturating_sub(1)) * 7;
    if found < first_day_after(year, month) {
        found
    } else {
        found.saturating_sub(7)
    }
}

// The day that is meant in a year.
#[tactic(auto, unfolding(crate::specs::Years::day_in))]
fn day_in(day: Day, year: u64) -> u64
    requires { (1 ≤ year) × (year ≤ 10000) }
    ensures value { result ≡ Years.day_in day year }
    ensures bound { result < 4075000 }
{
    match day {
        Day::Julian(number) => {
            let leap_day = u64::from(number > 59 && is_leap(year));
            (first_day(year) + u64::from(number) + leap_day).saturating_sub(1)
        }
        Day::Numbered(number) => first_day(year) + u64::from(number),
        Day::Weekday(month, week, weekday) => weekday_in(year, month, week, weekday),
    }
}

// The instant of a change in a year, where the clock is ahead by an offset before it.
fn instant_in(change: Change, year: u64, offset: i32) -> i64
    requires { (1 ≤ year) × (year ≤ 10000) }
    ensures { result ≡ Years.instant_in change year offset }
{
    (day_in(change.day, year) as i64 - EPOCH) * DAY + (i64::from(change.time) - i64::from(offset))
}

impl Clock {
    /// The two transitions of a year, in the order of their instants.
    #[tactic(auto, unfolding(crate::specs::Years::start_in, crate::specs::Years::end_in, crate::specs::Years::transitions_in))]
    pub(crate) fn transitions_in(self, year: u64) -> (Transition, Transition)
        requires { (1 ≤ year) × (year ≤ 10000) }
        ensures { result ≡ Years.transitions_in self.standard self.summer year }
    {
        let start = Transition {
            at: instant_in(self.summer.start, year, self.standard),
            is_summer: true,
        };
        let end = Transition {
            at: instant_in(self.summer.end, year, self.summer.offset),
            is_summer: false,
        };
        if start.at <= end.at {
            (start, end)
        } else {
            (end, start)
        }
    }
}

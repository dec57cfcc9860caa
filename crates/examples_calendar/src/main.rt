//! `examples_calendar YEAR`: the next day of each weekday after a year's first day, its weeks of ISO 8601, and the last
//! Friday of each of its months.
//!
//! What a function needs is its `requires`, and what it promises its `ensures`: both are proved.
#![tactic(auto)]

ghost use Rattle.std.specs.Prelude.{◌≡◌, ◌↔◌, IsTrue, IfSome};
ghost use Rattle.calendar_count.specs.Calendar.{ComesBefore, day_at, days_in_month, weekday_at, ymd};
ghost use Rattle.calendar_count.specs.Month.{month_number};
ghost use Rattle.calendar_count.specs.Range.{IsYear};
ghost use Rattle.calendar_count.specs.Weekday.{days_from_monday};

use calendar::{Date, Month, Weekday, laws, util};
use std::process::ExitCode;
use std::{env, io};

// Writing failed.
const FAILED: u8 = 1;

// The word is no year of the calendar.
const REFUSED: u8 = 2;

// A function that prints or allocates is handed what it does so by: here all that the system gives.
fn main(rt: HostRuntime) -> ExitCode {
    let Some(first) = said_year(&rt) else {
        let _ = eprintln!(rt; "usage: examples_calendar YEAR, from -999999 to 999999");
        return ExitCode::from(REFUSED);
    };
    if show_year(&rt, first).is_err() {
        let _ = eprintln!(rt; "examples_calendar: writing failed");
        return ExitCode::from(FAILED);
    }
    ExitCode::SUCCESS
}

// The first day of the year that the one word on the command line names. `from_ordinal_date` is the test of a year.
fn said_year(rt: &HostRuntime) -> Option<Date> {
    let args = env::args(rt).ok()?;
    let args: Vec<String> = args.skip(1).collect(rt.alloc()).ok()?;
    if args.len() != 1 {
        return None;
    }
    let year = args[0].as_str().parse().ok()?;
    Date::from_ordinal_date(year, 1).ok()
}

fn show_year(rt: &impl Print, first: Date) -> io::Result<()> {
    show_weekdays(rt, first)?;
    show_weeks(rt, first)?;
    // `from_number` requires a number from 1 to 12. That all of these are is proved, so no test runs.
    for number in 1..=12 {
        let month = Month::from_number(number);
        if let Some(friday) = last_friday(first.year(), month) {
            println!(rt; "last Friday of {month}: {friday}")?;
        }
    }
    Ok(())
}

// The next day of each weekday after a day. The calendar ends, so the answer is an `Option`.
fn show_weekdays(rt: &impl Print, day: Date) -> io::Result<()> {
    println!(rt; "{day} is a {}", day.weekday())?;
    let mut weekday = day.weekday();
    for _ in 0..7 {
        weekday = weekday.next();
        if let Some(next) = day.checked_next_occurrence(weekday) {
            println!(rt; "next {weekday}: {next}")?;
        }
    }
    Ok(())
}

// The weeks of ISO 8601 of a day's year: how many, and the first and the last day, which may lie in other years.
fn show_weeks(rt: &impl Print, day: Date) -> io::Result<()> {
    let year = day.year();
    let weeks = util::weeks_in_year(year);
    let first = Date::from_iso_week_date(year, 1, Weekday::Monday);
    let last = Date::from_iso_week_date(year, weeks, Weekday::Sunday);
    let (Ok(first), Ok(last)) = (first, last) else {
        return println!(rt; "{weeks} weeks, which the calendar does not have whole");
    };
    println!(rt; "{weeks} weeks: from {first} to {last}")?;
    if is_earlier(first, day) {
        println!(rt; "the first week begins in the year before")?;
    }
    Ok(())
}

// Whether one day comes before another: by the year, then by the month, then by the day of the month.
// Days compare by their place in the calendar. The law says that this is the same, and its call hands that to the
// proof, of which the one line that the check does not find by itself stands in proofs/is_earlier.
fn is_earlier(one: Date, other: Date) -> bool
    ensures { IsTrue result ↔ ComesBefore (day_at one) (day_at other) }
{
    laws::order_of_days();
    one < other
}

// The last day of a month, which `from_calendar_date` can't refuse: it is proved that `unwrap` never stops.
fn last_day(year: i32, month: Month) -> Date
    requires { IsYear year }
    ensures { day_at result
        ≡ ymd year (month_number month) (days_in_month year (month_number month)) }
{
    Date::from_calendar_date(year, month, month.length(year)).unwrap()
}

// The last Friday of a month.
fn last_friday(year: i32, month: Month) -> Option<Date>
    requires { IsYear year }
    ensures { IfSome result (λ friday. weekday_at friday ≡ days_from_monday Weekday.Friday) }
{
    let last = last_day(year, month);
    // Stands in place of `debug_assert!`, and is proved.
    prove!(last.month() == month);
    if last.weekday() == Weekday::Friday {
        return Some(last);
    }
    last.checked_prev_occurrence(Weekday::Friday)
}

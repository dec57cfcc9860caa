//! Walks over days, and occurrences of a weekday.
use crate::rows::date_of;
use calendar::{Date, DateIter, Month, Weekday};

// From 28 February 2024 to the day after the leap day.
fn three_days() -> DateIter {
    date_of(2024, Month::February, 28).iter_to(date_of(2024, Month::March, 1))
}

// From both ends to the middle, and to an end.
fn walked() -> [Option<Date>; 7] {
    let mut days = three_days();
    [
        days.nth(1),
        days.next_back(),
        days.next(),
        three_days().last(),
        three_days().min(),
        three_days().max(),
        three_days().nth_back(2),
    ]
}

fn counted_by_a_copy() -> Option<usize> {
    Some(three_days().clone().ok()?.count())
}

fn counts_days(days: DateIter) -> bool {
    days.len() == 3
        && days.size_hint() == (3, Some(3))
        && counted_by_a_copy() == Some(3)
        && days.is_sorted()
}

// The Julian days of the next such weekday and of the `n`th later one, as both calls say.
fn found_later(day: Date, weekday: Weekday, n: u8) -> Option<[i32; 4]> {
    let next = day.checked_next_occurrence(weekday)?;
    let later = day.checked_nth_next_occurrence(weekday, n)?;
    Some([
        next.to_julian_day(),
        day.next_occurrence(weekday).to_julian_day(),
        later.to_julian_day(),
        day.nth_next_occurrence(weekday, n).to_julian_day(),
    ])
}

// Those of the last one and of the `n`th earlier one.
fn found_earlier(day: Date, weekday: Weekday, n: u8) -> Option<[i32; 4]> {
    let last = day.checked_prev_occurrence(weekday)?;
    let earlier = day.checked_nth_prev_occurrence(weekday, n)?;
    Some([
        last.to_julian_day(),
        day.prev_occurrence(weekday).to_julian_day(),
        earlier.to_julian_day(),
        day.nth_prev_occurrence(weekday, n).to_julian_day(),
    ])
}

type Found = Option<[i32; 4]>;

// From 1 January 1970, a Thursday, whose Julian day is 2440588.
static FOUND: [(Weekday, u8, Found, Found); 3] = [
    (
        Weekday::Sunday,
        3,
        Some([2_440_591, 2_440_591, 2_440_605, 2_440_605]),
        Some([2_440_584, 2_440_584, 2_440_570, 2_440_570]),
    ),
    (
        Weekday::Thursday,
        1,
        Some([2_440_595, 2_440_595, 2_440_595, 2_440_595]),
        Some([2_440_581, 2_440_581, 2_440_581, 2_440_581]),
    ),
    (Weekday::Friday, 0, None, None),
];

fn finds_weekdays(epoch: Date) -> bool {
    for row in &FOUND {
        if found_later(epoch, row.0, row.1) != row.2
            || found_earlier(epoch, row.0, row.1) != row.3
        {
            return false;
        }
    }
    true
}

#[test]
fn walks_and_finds(rt: HostRuntime) {
    let before = Some(date_of(2024, Month::February, 28));
    let leap = Some(date_of(2024, Month::February, 29));
    let after = Some(date_of(2024, Month::March, 1));
    assert!(rt; walked() == [leap, after, None, after, before, after, before]);
    assert!(rt; counts_days(three_days()) && finds_weekdays(Date::UNIX_EPOCH));
}

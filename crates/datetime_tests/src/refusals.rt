//! What is refused, by which name, and whether other parts decided it.
use crate::rows::{Refused, refused};
use calendar::{Date, Month, SignedDuration, Time, UtcOffset, Weekday};

fn all_refused() -> [Refused; 7] {
    [
        refused(Month::try_from(13)),
        refused(Date::from_calendar_date(2021, Month::February, 29)),
        refused(Date::from_julian_day(i32::MAX)),
        refused(Date::from_iso_week_date(2021, 53, Weekday::Monday)),
        refused(Date::MAX.replace_ordinal(366)),
        refused(Time::from_hms(24, 60, 60)),
        refused(UtcOffset::from_hms(0, 0, 60)),
    ]
}

static REFUSED: [Refused; 7] = [
    ("month", false),
    ("day", true),
    ("julian_day", false),
    ("week", true),
    ("ordinal", true),
    ("hour", false),
    ("seconds", false),
];

// There is no day past both ends of the calendar.
fn ends() -> [Option<Date>; 4] {
    let (first, last) = (Date::MIN, Date::MAX);
    [
        last.next_day(),
        first.previous_day(),
        last.checked_add(SignedDuration::DAY),
        Some(last.saturating_add(SignedDuration::MAX)),
    ]
}

#[test]
fn refuses_and_ends(rt: HostRuntime) {
    assert!(rt; all_refused() == REFUSED && ends() == [None, None, None, Some(Date::MAX)]);
}

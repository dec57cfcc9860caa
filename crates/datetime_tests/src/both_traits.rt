//! What `Moment` and `WallClock` both name, where both are in scope.
use crate::rows::{EVENING, LEAP_DAY, date_of, evening, leap_day};
use calendar::{Month, Time, Weekday};
use datetime::{Moment, Timestamp, UtcDateTime, WallClock};

// The weekday, the day by three views, and the time of day.
type Shown = (
    Weekday,
    (i32, Month, u8),
    (i32, u16),
    (i32, u8, Weekday),
    (u8, u8, u8, u32),
);

// The nanoseconds since 1970 of a moment, of its time on the first day of 1970, and of its midnight.
type Counted = [i128; 3];

fn of_utc(utc: UtcDateTime) -> (Shown, Counted) {
    let shown = (
        utc.weekday(),
        utc.to_calendar_date(),
        utc.to_ordinal_date(),
        utc.to_iso_week_date(),
        utc.as_hms_nano(),
    );
    let counts = [
        utc.instant_nanos(),
        utc.replace_date(date_of(1970, Month::January, 1))
            .instant_nanos(),
        utc.replace_time(Time::MIDNIGHT).instant_nanos(),
    ];
    (shown, counts)
}

fn of_timestamp(timestamp: Timestamp) -> (Shown, Counted) {
    let shown = (
        timestamp.weekday(),
        timestamp.to_calendar_date(),
        timestamp.to_ordinal_date(),
        timestamp.to_iso_week_date(),
        timestamp.as_hms_nano(),
    );
    let counts = [
        timestamp.instant_nanos(),
        timestamp
            .replace_date(date_of(1970, Month::January, 1))
            .instant_nanos(),
        timestamp.replace_time(Time::MIDNIGHT).instant_nanos(),
    ];
    (shown, counts)
}

const WANTED: (Shown, Counted) = (
    (
        Weekday::Thursday,
        LEAP_DAY,
        (2024, 60),
        (2024, 9, Weekday::Thursday),
        EVENING,
    ),
    [
        1_709_251_198_123_456_789,
        86_398_123_456_789,
        1_709_164_800_000_000_000,
    ],
);

#[test]
fn both_name_the_same(rt: HostRuntime) {
    let utc = UtcDateTime::new(leap_day(), evening());
    let given = [of_utc(utc), of_timestamp(Timestamp::from(utc))];
    assert!(rt; given == [WANTED; 2] && WallClock::year(utc) == 2024);
}

//! What single components say, and what that sets in a record.

ghost use Rattle.parsing_components.specs.Record.{IsWithin};

use calendar::Month;
use description::Component;
use description::modifier::{
    Day, Hour24, MonthShort, OffsetHour, Padding, UnixTimestampMillisecond,
};
use parsing_components::{Read, Record, read};

const DAY: Component = Component::Day(Day {
    padding: Padding::Space,
});

const MONTH: Component = Component::MonthShort(MonthShort {
    case_sensitive: false,
});

const HOUR: Component = Component::Hour24(Hour24 {
    padding: Padding::None,
});

const OFFSET: Component = Component::OffsetHour(OffsetHour {
    sign_is_mandatory: true,
    padding: Padding::Zero,
});

const UNIX: Component = Component::UnixTimestampMillisecond(UnixTimestampMillisecond {
    sign_is_mandatory: false,
});

// What components say of texts, and leave.
fn said() -> [Option<(Read, &'static [u8])>; 7] {
    [
        read(DAY, b" 7T"),
        read(DAY, b"32"),
        read(MONTH, b"sEpt"),
        read(HOUR, b"9:30"),
        read(HOUR, b"24:00"),
        read(OFFSET, b"-0030"),
        read(UNIX, b"-1500 "),
    ]
}

static SAID: [Option<(Read, &[u8])>; 7] = [
    Some((Read::Day(7), b"T")),
    None,
    Some((Read::Month(Month::September), b"t")),
    Some((Read::Hour24(9), b":30")),
    None,
    Some((Read::OffsetHour(0, true), b"30")),
    Some((Read::Unix(-1_500_000_000), b" ")),
];

// No component was read.
fn empty() -> Record
    ensures { IsWithin result }
{
    Record {
        year: None,
        year_century: None,
        year_century_is_negative: false,
        year_last_two: None,
        iso_year: None,
        iso_year_century: None,
        iso_year_century_is_negative: false,
        iso_year_last_two: None,
        month: None,
        sunday_week_number: None,
        monday_week_number: None,
        iso_week_number: None,
        weekday: None,
        ordinal: None,
        day: None,
        hour_24: None,
        hour_12: None,
        hour_12_is_pm: None,
        minute: None,
        second: None,
        subsecond: None,
        offset_hour: None,
        offset_minute: None,
        offset_second: None,
        unix_timestamp_nanos: None,
        offset_is_negative: false,
        leap_second_is_permitted: false,
    }
}

fn sets(mut fields: Record) -> bool
    requires { IsWithin fields }
{
    fields.put(Read::OffsetHour(-5, true));
    fields.put(Read::OffsetMinute(30));
    fields.put(Read::Day(31));
    fields.offset_hour == Some(-5)
        && fields.offset_minute == Some(30)
        && fields.day == Some(31)
        && fields.offset_is_negative
        && fields.minute.is_none()
}

#[test]
fn says_and_sets(rt: HostRuntime) {
    assert!(rt; said() == SAID && sets(empty()));
}

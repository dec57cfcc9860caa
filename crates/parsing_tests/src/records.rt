//! The calls of a record: each setter and each call that gives a record with one field more, and the moments of records.
//! The calls that read its fields are made by the program `rows`.

use calendar::{Month, Weekday};
use datetime_types::OffsetDateTime;
use parsing::Parsed;
use std::alloc::Global;

// A record with every field of a date.
fn dated() -> Parsed {
    Parsed::new()
        .with_year(-999_999)
        .unwrap_or_default()
        .with_year_century(-9_999, false)
        .unwrap_or_default()
        .with_year_last_two(99)
        .unwrap_or_default()
        .with_iso_year(999_999)
        .unwrap_or_default()
        .with_iso_year_century(0, true)
        .unwrap_or_default()
        .with_iso_year_last_two(0)
        .unwrap_or_default()
        .with_month(Month::December)
        .unwrap_or_default()
        .with_sunday_week_number(0)
        .unwrap_or_default()
        .with_monday_week_number(53)
        .unwrap_or_default()
        .with_iso_week_number(1)
        .unwrap_or_default()
        .with_weekday(Weekday::Sunday)
        .unwrap_or_default()
        .with_ordinal(366)
        .unwrap_or_default()
        .with_day(31)
        .unwrap_or_default()
}

// Sets the same fields, and says whether each is set.
fn set_date(parsed: &mut Parsed) -> [Option<()>; 13] {
    [
        parsed.set_year(-999_999),
        parsed.set_year_century(-9_999, false),
        parsed.set_year_last_two(99),
        parsed.set_iso_year(999_999),
        parsed.set_iso_year_century(0, true),
        parsed.set_iso_year_last_two(0),
        parsed.set_month(Month::December),
        parsed.set_sunday_week_number(0),
        parsed.set_monday_week_number(53),
        parsed.set_iso_week_number(1),
        parsed.set_weekday(Weekday::Sunday),
        parsed.set_ordinal(366),
        parsed.set_day(31),
    ]
}

// With every field of a time and an offset, whose minutes and seconds have sizes first, and then signs.
fn timed(dated: Parsed) -> Parsed {
    dated
        .with_hour_24(23)
        .unwrap_or_default()
        .with_hour_12(12)
        .unwrap_or_default()
        .with_hour_12_is_pm(false)
        .unwrap_or_default()
        .with_minute(59)
        .unwrap_or_default()
        .with_second(60)
        .unwrap_or_default()
        .with_subsecond(999_999_999)
        .unwrap_or_default()
        .with_offset_hour(-25)
        .unwrap_or_default()
        .with_offset_minute(30)
        .unwrap_or_default()
        .with_offset_minute_signed(-59)
        .unwrap_or_default()
        .with_offset_second(30)
        .unwrap_or_default()
        .with_offset_second_signed(-1)
        .unwrap_or_default()
        .with_unix_timestamp_nanos(-31_619_087_596_800_000_000_000)
        .unwrap_or_default()
}

// Sets the same fields, and says whether each is set. Signs of minutes and seconds come first, and then sizes, which take
// the sign that is remembered.
fn set_time(parsed: &mut Parsed) -> [Option<()>; 12] {
    [
        parsed.set_hour_24(23),
        parsed.set_hour_12(12),
        parsed.set_hour_12_is_pm(false),
        parsed.set_minute(59),
        parsed.set_second(60),
        parsed.set_subsecond(999_999_999),
        parsed.set_offset_hour(-25),
        parsed.set_offset_minute_signed(-30),
        parsed.set_offset_minute(59),
        parsed.set_offset_second_signed(-30),
        parsed.set_offset_second(1),
        parsed.set_unix_timestamp_nanos(-31_619_087_596_800_000_000_000),
    ]
}

// Whether a record is printed so from its offset's minutes on. That memory runs out fails the test.
fn is_printed(alloc: Global, parsed: &Parsed, minutes: &str) -> bool {
    match format!(in alloc; "{parsed:?}") {
        Ok(told) => told.as_str().strip_prefix(RECORD) == Some(minutes),
        Err(_) => false,
    }
}

fn fields_are_set(alloc: Global) -> bool {
    let mut parsed = Parsed::new();
    parsed.remember_offset_sign(true);
    let are_set = set_date(&mut parsed) == [Some(()); 13]
        && set_time(&mut parsed) == [Some(()); 12];
    are_set && is_printed(alloc, &parsed, SIZES)
}

// A century's sign is its number's, and that of 0 as it is said.
const RECORD: &str =
    "Parsed { fields: Record { year: Some(-999999), year_century: Some(-9999), year_century_is_negative: true, \
    year_last_two: Some(99), iso_year: Some(999999), iso_year_century: Some(0), iso_year_century_is_negative: true, \
    iso_year_last_two: Some(0), month: Some(December), sunday_week_number: Some(0), monday_week_number: Some(53), \
    iso_week_number: Some(1), weekday: Some(Sunday), ordinal: Some(366), day: Some(31), hour_24: Some(23), hour_12: \
    Some(12), hour_12_is_pm: Some(false), minute: Some(59), second: Some(60), subsecond: Some(999999999), \
    offset_hour: Some(-25), ";

const SIZES: &str =
    "offset_minute: Some(59), offset_second: Some(1), unix_timestamp_nanos: Some(-31619087596800000000000), \
    offset_is_negative: true, leap_second_is_permitted: false } }";

const SIGNED: &str =
    "offset_minute: Some(-59), offset_second: Some(-1), unix_timestamp_nanos: Some(-31619087596800000000000), \
    offset_is_negative: false, leap_second_is_permitted: false } }";

// The parts of 1990-12-31T23:59:60Z.
fn leap_second() -> Parsed {
    let mut parsed = Parsed::new();
    let _ = parsed.set_year(1990);
    let _ = parsed.set_ordinal(365);
    let _ = parsed.set_hour_24(23);
    let _ = parsed.set_minute(59);
    let _ = parsed.set_second(60);
    let _ = parsed.set_offset_hour(0);
    parsed
}

// The second of its moment, once it is permitted, and before there is none.
fn permitted(mut leap: Parsed) -> Option<i64> {
    if OffsetDateTime::try_from(leap).is_ok() {
        return None;
    }
    leap.permit_leap_second();
    Some(leap.offset_date_time().ok()?.unix_timestamp())
}

#[test]
fn fields_and_moments(rt: HostRuntime) {
    let alloc = rt.alloc();
    assert!(rt; fields_are_set(alloc) && is_printed(alloc, &timed(dated()), SIGNED));
    assert!(rt; permitted(leap_second()) == Some(662_687_999));
}

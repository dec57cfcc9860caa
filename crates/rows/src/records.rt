//! Records in words, as they are told and as a reading begins with one.

use crate::telling::Told;
use parsing::Parsed;
use std::fmt::Display;

// The parts of a date, each a number: a month from 1, a weekday from Monday, 0.
fn date_fields(parsed: &Parsed) -> [(&'static str, Option<i32>); 15] {
    let month = parsed.month().map(|month| i32::from(month.number()));
    let weekday = parsed
        .weekday()
        .map(|day| i32::from(day.number_days_from_monday()));
    [
        ("year", parsed.year()),
        ("century", parsed.year_century().map(i32::from)),
        ("negative", parsed.year_century_is_negative().map(i32::from)),
        ("last two", parsed.year_last_two().map(i32::from)),
        ("iso year", parsed.iso_year()),
        ("iso century", parsed.iso_year_century().map(i32::from)),
        (
            "iso negative",
            parsed.iso_year_century_is_negative().map(i32::from),
        ),
        ("iso last two", parsed.iso_year_last_two().map(i32::from)),
        ("month", month),
        ("sunday week", parsed.sunday_week_number().map(i32::from)),
        ("monday week", parsed.monday_week_number().map(i32::from)),
        ("iso week", parsed.iso_week_number().map(i32::from)),
        ("weekday", weekday),
        ("ordinal", parsed.ordinal().map(i32::from)),
        ("day", parsed.day().map(i32::from)),
    ]
}

// The parts of a time and of an offset, each a number.
fn time_fields(parsed: &Parsed) -> [(&'static str, Option<i128>); 12] {
    [
        ("hour", parsed.hour_24().map(i128::from)),
        ("half hour", parsed.hour_12().map(i128::from)),
        ("pm", parsed.hour_12_is_pm().map(i128::from)),
        ("minute", parsed.minute().map(i128::from)),
        ("second", parsed.second().map(i128::from)),
        ("subsecond", parsed.subsecond().map(i128::from)),
        ("offset hour", parsed.offset_hour().map(i128::from)),
        ("offset minute", parsed.offset_minute().map(i128::from)),
        (
            "signed minute",
            parsed.offset_minute_signed().map(i128::from),
        ),
        ("offset second", parsed.offset_second().map(i128::from)),
        (
            "signed second",
            parsed.offset_second_signed().map(i128::from),
        ),
        ("unix", parsed.unix_timestamp_nanos()),
    ]
}

/// Tells one thing more, after a comma where others stand.
pub fn tell(told: &mut String, more: impl Display + Drop) -> Told {
    let comma = if told.is_empty() { "" } else { ", " };
    write!(told, "{comma}{more}")
}

/// Tells the fields that are there.
pub fn tell_fields(told: &mut String, parsed: &Parsed) -> Told {
    tell_numbers(told, &date_fields(parsed))?;
    tell_numbers(told, &time_fields(parsed))
}

fn tell_numbers<T: Display>(told: &mut String, fields: &[(&'static str, Option<T>)]) -> Told {
    for (name, value) in fields {
        if let Some(value) = value {
            tell(told, format_args!("{name} {value}"))?;
        }
    }
    Ok(())
}

/// The record that a reading begins with, of words as `day=3+offset_hour=-1`.
pub fn record_of(words: &str) -> Option<Parsed> {
    let mut parsed = Parsed::new();
    for word in words.split('+') {
        let (name, number) = word.split_once('=')?;
        set(&mut parsed, name, number)?;
    }
    Some(parsed)
}

// Sets a part by its name.
fn set(parsed: &mut Parsed, name: &str, number: &str) -> Option<()> {
    match name {
        "year" => parsed.set_year(number.parse().ok()?),
        "ordinal" => parsed.set_ordinal(number.parse().ok()?),
        "day" => parsed.set_day(number.parse().ok()?),
        "hour" => parsed.set_hour_24(number.parse().ok()?),
        "minute" => parsed.set_minute(number.parse().ok()?),
        "second" => parsed.set_second(number.parse().ok()?),
        "subsecond" => parsed.set_subsecond(number.parse().ok()?),
        "offset_hour" => parsed.set_offset_hour(number.parse().ok()?),
        "offset_minute" => parsed.set_offset_minute_signed(number.parse().ok()?),
        "offset_second" => parsed.set_offset_second_signed(number.parse().ok()?),
        _ => None,
    }
}

//! What a zone's file answers.

ghost use Rattle.std.specs.Prelude.{IsTrue};
ghost use Rattle.zones_clock.specs.Steps.{IsReading};

use crate::telling::{Told, tell_no_answer, text_of};
use std::alloc::Global;
use zones::{Moments, Zone, read_zone};

// Readings are less than this, on either side of 0.
const READING_BOUND: i64 = 1_000_000_000_000_000;

/// Tells what a file answers to a question and its numbers.
pub fn tell_file(
    alloc: Global,
    told: &mut String,
    mut file: Vec<u8>,
    question: &str,
    numbers: &str,
) -> Told {
    match question {
        "byte" => change_byte(&mut file, numbers),
        "length" => file.resize(numbers.parse().unwrap_or(0), 0)?,
        _ => {}
    }
    match read_zone(alloc, file.as_slice()) {
        Ok(zone) => tell_zone(told, &zone, question, numbers),
        Err(fault) => writeln!(told, "{fault:?}"),
    }
}

// Puts a byte at a place, where both are said.
fn change_byte(file: &mut Vec<u8>, numbers: &str) {
    let (place, byte) = numbers.split_once(' ').unwrap_or((numbers, ""));
    if let Some(old) = file.get_mut(place.parse().unwrap_or(usize::MAX)) {
        *old = byte.parse().unwrap_or(*old);
    }
}

fn tell_zone(told: &mut String, zone: &Zone, question: &str, numbers: &str) -> Told {
    match question {
        "byte" | "length" => told.push_str("read\n"),
        _ => match numbers.parse() {
            Ok(number) => tell_at(told, zone, question, number),
            Err(_) => tell_no_answer(told),
        },
    }
}

// What the clock shows at a moment, or when it shows a reading.
fn tell_at(told: &mut String, zone: &Zone, question: &str, number: i64) -> Told {
    match question {
        "moment" => {
            let name = text_of(zone.name_at(number));
            writeln!(told, "{} {name}", zone.offset_at(number))
        }
        "reading" if is_reading(number) => tell_moments(told, zone.moments(number)),
        "sure" if is_reading(number) => tell_sure(told, zone, number),
        _ => tell_no_answer(told),
    }
}

fn is_reading(reading: i64) -> bool
    ensures { IsTrue result → IsReading reading }
{
    reading > -READING_BOUND && reading < READING_BOUND
}

fn tell_moments(told: &mut String, moments: Moments) -> Told {
    match moments {
        Moments::Skipped => told.push_str("skipped\n"),
        Moments::One(moment) => writeln!(told, "one {moment}"),
        Moments::Repeated(first, second) => writeln!(told, "repeated {first} {second}"),
        Moments::Several(first, second, _) => writeln!(told, "repeated {first} {second}"),
    }
}

fn tell_sure(told: &mut String, zone: &Zone, reading: i64) -> Told
    requires { IsReading reading }
{
    match zone.sure_offset(reading, reading) {
        Some(offset) => writeln!(told, "one {}", reading - i64::from(offset)),
        None => told.push_str("near\n"),
    }
}

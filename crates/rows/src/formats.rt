//! Rows of the formats: `rfc2822 moment | 32 Jan 2021 00:00 GMT x => ! trailing`. Beside the calls of `Parsable`, `read`
//! is the reading without a record, whose fault is told as it is printed, and `fast` its fast way.

use crate::calls::tell_call;
use crate::telling::Told;
use parsing::{Iso8601, Parsable, Rfc2822, Rfc3339, TwoRoads, is_valid_leap_second_stand_in};
use std::fmt::{Debug, Display};

// A value or a fault, as it is printed.
fn tell_printed<T: Display, E: Display>(told: &mut String, answer: &Result<T, E>) -> Told {
    match answer {
        Ok(value) => write!(told, "{value}"),
        Err(fault) => write!(told, "{fault}"),
    }
}

// What a prefix says and how many bytes are left, or why there is none.
fn tell_parts<T: Debug, E: Display>(told: &mut String, answer: &Result<(T, &[u8]), E>) -> Told {
    match answer {
        Ok((parts, rest)) => write!(told, "{parts:?}, {} left", rest.len()),
        Err(fault) => write!(told, "{fault}"),
    }
}

/// `stand_in` is whether the moment that is read can stand for a leap second.
pub fn tell_rfc3339(told: &mut String, call: &str, input: &[u8]) -> Told {
    match call {
        "read" => tell_printed(told, &Rfc3339.read_direct(input)),
        "stand_in" => match Rfc3339.read_direct(input) {
            Ok(moment) => write!(told, "{}", is_valid_leap_second_stand_in(moment)),
            Err(fault) => write!(told, "{fault}"),
        },
        _ => tell_call(told, &Rfc3339, call, input),
    }
}

/// `strict` and `lax` are what a prefix says.
pub fn tell_rfc2822(told: &mut String, call: &str, input: &[u8]) -> Told {
    match call {
        "read" => tell_printed(told, &Rfc2822.read_direct(input)),
        "fast" => tell_printed(
            told,
            &parsing_rfc2822_shapes::read_fast(input).ok_or("none"),
        ),
        "strict" => tell_parts(told, &parsing_rfc2822::parse_prefix(true, input)),
        "lax" => tell_parts(told, &parsing_rfc2822::parse_prefix(false, input)),
        _ => tell_call(told, &Rfc2822, call, input),
    }
}

/// `parts` are what a prefix says.
pub fn tell_iso8601(told: &mut String, call: &str, input: &[u8]) -> Told {
    match call {
        "read" => tell_printed(told, &Iso8601.parse_offset_date_time(input, None)),
        "fast" => tell_printed(
            told,
            &parsing_iso8601_shapes::read_fast(input).ok_or("none"),
        ),
        "parts" => tell_parts(told, &parsing_iso8601::parse_prefix(input)),
        _ => tell_call(told, &&Iso8601, call, input),
    }
}

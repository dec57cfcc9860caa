//! Rows of texts that are cut or changed: `changes rfc2822 | 1 Jul 03 (x) 10:52 (y) EST (zz) => 601`.
ghost use Rattle.std.specs.Prelude.{◌<◌, length};

use crate::telling::{Told, tell_no_call};
use datetime_types::OffsetDateTime;
use parsing::{Iso8601, Parsable, Parse, Parsed, Rfc2822, Rfc3339, TwoRoads};

// Whether both answers are one moment, or neither is a moment.
fn is_same(one: &Result<OffsetDateTime, Parse>, other: &Result<OffsetDateTime, Parse>) -> bool {
    match (one, other) {
        (Ok(moment), Ok(same)) => moment == same,
        (Err(_), Err(_)) => true,
        _ => false,
    }
}

// Whether the fast way finds that moment, or nothing.
fn is_found(fast: Option<OffsetDateTime>, answer: &Result<OffsetDateTime, Parse>) -> bool {
    match (fast, answer) {
        (None, _) => true,
        (Some(moment), Ok(same)) => moment == *same,
        _ => false,
    }
}

// Whether the format is read alike with a record and without one.
fn is_read_alike<F: TwoRoads>(format: &F, input: &[u8]) -> bool {
    let direct = format.read_direct(input);
    is_same(&direct, &format.read_staged(input, Parsed::new()))
        && direct == format.parse_offset_date_time(input, None)
}

// Whether a text is read by RFC 2822 or ISO 8601, or the ways to read it differ.
fn holds(call: &str, input: &[u8]) -> Option<bool> {
    match call {
        "rfc2822" => Some(Rfc2822.read_direct(input).is_ok()),
        "iso8601" => Some(Iso8601.parse_offset_date_time(input, None).is_ok()),
        "differ" => Some(!is_all_alike(input)),
        _ => None,
    }
}

fn is_all_alike(input: &[u8]) -> bool {
    let rfc3339 = parsing_rfc3339::read_exact(input);
    let rfc2822 = parsing_rfc2822::read_exact(input);
    let iso8601 = Iso8601.parse_offset_date_time(input, None);
    is_read_alike(&Rfc3339, input)
        && is_read_alike(&Rfc2822, input)
        && is_found(parsing_rfc3339::read_fast(input), &rfc3339)
        && is_found(parsing_rfc2822_shapes::read_fast(input), &rfc2822)
        && is_found(parsing_iso8601_shapes::read_fast(input), &iso8601)
}

/// Tells how many they are.
pub fn tell_count(told: &mut String, count: Option<u64>) -> Told {
    match count {
        Some(count) => write!(told, "{count}"),
        None => tell_no_call(told),
    }
}

/// Of how many prefixes of the text, without itself, this holds.
pub fn count_prefixes(call: &str, input: &[u8]) -> Option<u64> {
    let mut count = 0u64;
    for end in 0..input.len() {
        count = count.wrapping_add(u64::from(holds(call, &input[..end])?));
    }
    Some(count)
}

/// Of how many texts this holds that have one of these bytes in one place.
pub fn count_changes(call: &str, input: &mut [u8], bytes: (u8, u8)) -> Option<u64> {
    let mut count = 0u64;
    for place in 0..input.len() {
        count = count.wrapping_add(count_at(call, input, place, bytes)?);
    }
    Some(count)
}

// Of how many texts this holds that have one of these bytes in this place.
fn count_at(call: &str, input: &mut [u8], place: usize, bytes: (u8, u8)) -> Option<u64>
    requires { place < length input.old }
{
    let mut count = 0u64;
    let before = input[place];
    for byte in bytes.0..=bytes.1 {
        input[place] = byte;
        count = count.wrapping_add(u64::from(holds(call, input)?));
    }
    input[place] = before;
    Some(count)
}

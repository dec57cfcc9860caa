//! The calls of `Parsable`, told in words.

use crate::records::{record_of, tell, tell_fields};
use crate::telling::{Told, tell_no_call};
use parsing::{Parsable, Parse, ParseFromDescription, Parsed, TryFromParsed};
use std::fmt::Display;

fn tell_fault(told: &mut String, fault: Parse) -> Told {
    match fault {
        Parse::ParseFromDescription(ParseFromDescription::InvalidComponent(name)) => {
            tell(told, format_args!("! component {name}"))
        }
        Parse::ParseFromDescription(ParseFromDescription::InvalidLiteral) => {
            tell(told, "! literal")
        }
        Parse::ParseFromDescription(ParseFromDescription::UnexpectedTrailingCharacters) => {
            tell(told, "! trailing")
        }
        Parse::TryFromParsed(TryFromParsed::InsufficientInformation) => {
            tell(told, "! insufficient")
        }
        Parse::TryFromParsed(TryFromParsed::ComponentRange(range)) => {
            tell(told, format_args!("! {range}"))
        }
    }
}

fn tell_value<T: Display>(told: &mut String, answer: &Result<T, Parse>) -> Told {
    match answer {
        Ok(value) => tell(told, format_args!("{value}")),
        Err(fault) => tell_fault(told, *fault),
    }
}

fn tell_record(told: &mut String, answer: &Result<Parsed, Parse>) -> Told {
    match answer {
        Ok(parsed) => tell_fields(told, parsed),
        Err(fault) => tell_fault(told, *fault),
    }
}

// The fields after the reading, and how many bytes are left, or the fault.
fn tell_prefix(told: &mut String, parsed: &Parsed, answer: Result<&[u8], Parse>) -> Told {
    tell_fields(told, parsed)?;
    match answer {
        Ok(rest) => tell(told, format_args!("{} left", rest.len())),
        Err(fault) => tell_fault(told, fault),
    }
}

// What the reading of a prefix answers, from a record.
fn tell_into<P: Parsable>(told: &mut String, reader: &P, input: &[u8], mut parsed: Parsed) -> Told {
    let answer = reader.parse_into(input, &mut parsed);
    tell_prefix(told, &parsed, answer)
}

// What the reading of a prefix answers, from a record, after how many items were tried.
fn tell_counted<P: Parsable>(
    told: &mut String,
    reader: &P,
    input: &[u8],
    mut parsed: Parsed,
) -> Told {
    let (answer, count) = reader.parse_into_counted(input, &mut parsed);
    tell(told, format_args!("{count} tried"))?;
    tell_prefix(told, &parsed, answer)
}

/// What a call answers: a value, a record's fields, or a fault. After a `+` stands what the reading begins with.
pub fn tell_call<P: Parsable>(told: &mut String, reader: &P, call: &str, input: &[u8]) -> Told {
    let Some((call, words)) = call.split_once('+') else {
        return tell_answer(told, reader, call, input, None);
    };
    match record_of(words) {
        None => tell_no_call(told),
        defaults => tell_answer(told, reader, call, input, defaults),
    }
}

// What a call of a reader answers, with what the reading begins with.
fn tell_answer<P: Parsable>(
    told: &mut String,
    reader: &P,
    call: &str,
    input: &[u8],
    defaults: Option<Parsed>,
) -> Told {
    match call {
        "into" => tell_into(told, reader, input, defaults.unwrap_or(Parsed::new())),
        "counted" => tell_counted(told, reader, input, defaults.unwrap_or(Parsed::new())),
        "parse" => tell_record(told, &reader.parse(input)),
        "internal" => tell_record(told, &reader.parse_internal(input, defaults)),
        _ => tell_value_of(told, reader, call, input, defaults),
    }
}

// What a call of a reader answers that gives a value.
fn tell_value_of<P: Parsable>(
    told: &mut String,
    reader: &P,
    call: &str,
    input: &[u8],
    defaults: Option<Parsed>,
) -> Told {
    match call {
        "date" => tell_value(told, &reader.parse_date(input, defaults)),
        "time" => tell_value(told, &reader.parse_time(input, defaults)),
        "offset" => tell_value(told, &reader.parse_offset(input, defaults)),
        "plain" => tell_value(told, &reader.parse_plain_date_time(input, defaults)),
        "utc" => tell_value(told, &reader.parse_utc_date_time(input, defaults)),
        "moment" => tell_value(told, &reader.parse_offset_date_time(input, defaults)),
        "timestamp" => tell_value(told, &reader.parse_timestamp(input, defaults)),
        _ => tell_no_call(told),
    }
}

//! What is said of a description.

use crate::parts::{Parts, YearParts};
use description::InvalidFormatDescription;
use std::io;

/// Says that a description is well formed, and for each value that it can't name, whatever the line, what it lacks.
/// A description of which nothing more is said may still name none, as where it has seconds without minutes.
pub fn show_parts(rt: &impl Print, parts: &Parts) -> io::Result<()> {
    println!(rt; "well formed")?;
    let (date, hour, offset) = (
        lacking_date(parts),
        lacking_hour(parts),
        lacking_offset(parts),
    );
    show_lacking(rt, "date", date)?;
    show_lacking(rt, "time of day", hour)?;
    show_lacking(rt, "offset", offset)?;
    if parts.unix_time {
        return Ok(());
    }
    // What counts is the first that is lacking: an offset can be assumed.
    match date.or(hour) {
        Some(lacking) => show_lacking(rt, "moment", Some(lacking)),
        None => show_lacking(rt, "moment unless an offset is assumed", offset),
    }
}

// Says what is lacking to name a value, if anything is.
fn show_lacking(rt: &impl Print, value: &str, lacking: Option<&str>) -> io::Result<()> {
    match lacking {
        Some(lacking) => println!(rt; "names no {value}: {lacking}"),
        None => Ok(()),
    }
}

fn lacking_date(parts: &Parts) -> Option<&'static str> {
    let by_year = parts.ordinal || parts.month && parts.day || parts.week && parts.weekday;
    let by_iso_year = parts.iso_week && parts.weekday;
    if parts.year.can_name() && by_year || parts.iso_year.can_name() && by_iso_year {
        None
    } else if lacks_century(&parts.year) || lacks_century(&parts.iso_year) {
        Some("no century")
    } else if !parts.year.can_name() && !parts.iso_year.can_name() {
        Some("no year")
    } else {
        Some("no day of its year")
    }
}

fn lacks_century(year: &YearParts) -> bool {
    year.last_two && !year.can_name()
}

fn lacking_hour(parts: &Parts) -> Option<&'static str> {
    if parts.hour || parts.half_day_hour && parts.period {
        None
    } else if parts.half_day_hour {
        Some("no period, AM or PM")
    } else {
        Some("no hour")
    }
}

fn lacking_offset(parts: &Parts) -> Option<&'static str> {
    if parts.offset_hour {
        None
    } else {
        Some("no hour of an offset")
    }
}

/// Writes the line in which the fault stands, a caret below its place, and the fault's sentence.
pub fn show_fault(
    rt: &impl Print,
    text: &str,
    fault: InvalidFormatDescription<'_>,
) -> io::Result<()> {
    // An index from outside may be past the end, or within a character: `split_at_checked` tests it.
    let Some((prefix, back)) = text.split_at_checked(index(fault)) else {
        return println!(rt; "{fault}");
    };
    let before = prefix.rsplit('\n').next().unwrap_or(prefix);
    let after = back.split('\n').next().unwrap_or(back);
    println!(rt; "{before}{after}")?;
    show_caret(rt, before)?;
    println!(rt; "{fault}")
}

// Writes a caret after as much space as a text takes.
fn show_caret(rt: &impl Print, before: &str) -> io::Result<()> {
    for letter in before.chars() {
        print!(rt; "{}", if letter == '\t' { '\t' } else { ' ' })?;
    }
    println!(rt; "^")
}

// How many bytes of the text stand before the fault.
fn index(fault: InvalidFormatDescription<'_>) -> usize {
    match fault {
        InvalidFormatDescription::UnclosedOpeningBracket { index }
        | InvalidFormatDescription::InvalidComponentName { index, .. }
        | InvalidFormatDescription::InvalidModifier { index, .. }
        | InvalidFormatDescription::MissingComponentName { index }
        | InvalidFormatDescription::MissingRequiredModifier { index, .. }
        | InvalidFormatDescription::Expected { index, .. }
        | InvalidFormatDescription::NotSupported { index, .. }
        | InvalidFormatDescription::DuplicateModifier { index, .. }
        | InvalidFormatDescription::InvalidModifierCombination { index, .. } => index,
    }
}

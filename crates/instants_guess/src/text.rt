//! What is written: a line for each format, the best first.

use crate::candidate::Candidate;
use crate::rank::has_equal;
use instants_answers::Answer;
use instants_formats::Lacking;
use instants_found::Doubt;
use std::fmt;

/// Formats in order, and the text in whose lines they found dates.
#[derive(Clone, Copy)]
pub(crate) struct Guess<'a> {
    pub(crate) formats: &'a [Candidate],
    pub(crate) text: &'a [u8],
}

// The words before the name of a format: the target, the offset that is assumed, and what else is given.
fn words(lacks: Lacking) -> &'static str {
    match lacks {
        Lacking::Nothing => "+00:00 -",
        Lacking::Utc => "+00:00 +00:00",
        Lacking::Offset => "+00:00 OFFSET",
        Lacking::YearAndOffset => "+00:00 OFFSET year YEAR",
        Lacking::TimeAndOffset => "+00:00 OFFSET time 00:00",
    }
}

// Why a date is in doubt.
fn reason(doubt: Doubt) -> &'static str {
    match doubt {
        Doubt::After => "a word or a clock goes on after the date",
        Doubt::ClockBefore => "a clock stands before the date",
        Doubt::Skipped => "the clock was put forward over the date",
        Doubt::Repeated => "the clock was put back over the date",
        Doubt::AnotherOffset => "the line says another offset after the date",
        Doubt::AnotherTime => "the line says another time beside the date",
        Doubt::AnotherYear => "the line says another year beside the date",
    }
}

// Writes a date in UTC, with a word for what its line does not say.
fn write_date<W: fmt::Write>(
    f: &mut fmt::Formatter<W>,
    lacks: Lacking,
    date: &Answer,
) -> fmt::Result {
    let text = str::from_utf8(date.as_bytes()).unwrap_or("");
    let (year, rest) = text.split_once('-').unwrap_or(("", ""));
    let (rest, _) = rest.split_once('Z').unwrap_or(("", ""));
    match lacks {
        Lacking::Nothing | Lacking::Utc => write!(f, "{text}"),
        Lacking::Offset | Lacking::TimeAndOffset => write!(f, "{year}-{rest}OFFSET"),
        Lacking::YearAndOffset => write!(f, "YEAR-{rest}OFFSET"),
    }
}

// Writes how many of so many lines a format dates, and how many not.
fn write_counts<W: fmt::Write>(
    f: &mut fmt::Formatter<W>,
    format: &Candidate,
    guess: &Guess<'_>,
    lines: usize,
) -> fmt::Result {
    let (dated, doubtful) = (format.found.dated, format.found.doubtful);
    write!(f, "{dated} of {lines} lines")?;
    if doubtful > 0 {
        write!(f, ", {doubtful} in doubt")?;
    }
    if dated == 0 {
        let reason = format.first_doubt(guess.text).map_or("", reason);
        write!(f, " ({reason})")?;
    }
    let unwritten = format.found.unwritten;
    if unwritten > 0 {
        write!(f, ", {unwritten} with a year that is not written")?;
    }
    if has_equal(format, guess.formats) {
        f.write_str(", day and month are not sure")?;
    }
    Ok(())
}

// Writes the line of a format: what it found in so many lines, and the words by which it did.
fn write_line<W: fmt::Write>(
    f: &mut fmt::Formatter<W>,
    format: &Candidate,
    guess: &Guess<'_>,
    lines: usize,
) -> fmt::Result {
    write_counts(f, format, guess, lines)?;
    if let Some(dates) = &format.found.dates {
        f.write_str(", first ")?;
        write_date(f, format.lacks, &dates.first)?;
    }
    let (words, name) = (words(format.lacks), format.name);
    write!(f, ": {words} {name}\n")
}

impl fmt::Display for Guess<'_> {
    // The formats that date some line, and where none does those with lines in doubt.
    fn fmt<W: fmt::Write>(&self, f: &mut fmt::Formatter<W>) -> fmt::Result {
        let lines = self.text.split_inclusive(|byte| *byte == b'\n').count();
        let some_dates = self.formats.iter().any(|format| format.found.dated > 0);
        let mut is_empty = true;
        for format in self.formats {
            let found = &format.found;
            if found.dated > 0 || (!some_dates && found.doubtful > 0) {
                write_line(f, format, self, lines)?;
                is_empty = false;
            }
        }
        if is_empty {
            write!(f, "no known format dates any of {lines} lines\n")?;
        }
        Ok(())
    }
}

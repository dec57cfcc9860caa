//! The text of a date.
ghost use Rattle.std.specs.Prelude.{◌≤◌, Some};
ghost use Rattle.std.specs.Fmt.{DisplaysOnOk, styled_text};
ghost use Rattle.calendar_count.specs.Range.{greatest_year, IsYear};
ghost use Rattle.calendar_dates.specs.DateText.{date_text, year_digits, year_text};

use crate::Date;
use calendar_count::{digits, padding};
use std::fmt;

// The least year of five digits.
const FIVE_DIGITS: u32 = 10_000;

// The digits of a year, four at least.
fn write_digits<W: fmt::Write>(f: &mut fmt::Formatter<W>, years: u32) -> fmt::Result
    requires { years ≤ greatest_year }
    ensures { DisplaysOnOk W.write_str_gives f.old result (Some (year_digits years)) f.new }
{
    if years < FIVE_DIGITS {
        digits::write_two(f, (years / 100) as u8)?;
        digits::write_two(f, (years % 100) as u8)
    } else {
        write!(f, "{years}")
    }
}

// A year, its sign where it is negative or has more than four digits.
fn write_year<W: fmt::Write>(f: &mut fmt::Formatter<W>, year: i32) -> fmt::Result
    requires { IsYear year }
    ensures { DisplaysOnOk W.write_str_gives f.old result (Some (year_text year)) f.new }
{
    let years = year.unsigned_abs();
    if year < 0 {
        f.write_str("-")?;
    } else if years >= FIVE_DIGITS {
        f.write_str("+")?;
    }
    write_digits(f, years)
}

// A date's text, whatever the width.
#[derive(Clone, Copy)]
struct Unfilled(Date);

impl fmt::Display for Unfilled {
    ghost output = { λ text. Some (date_text text.0) };

    fn fmt<W: fmt::Write>(&self, f: &mut fmt::Formatter<W>) -> fmt::Result {
        let (year, month, day) = self.0.to_calendar_date();
        write_year(f, year)?;
        f.write_str("-")?;
        digits::write_two(f, month.number())?;
        f.write_str("-")?;
        digits::write_two(f, day)
    }
}

impl fmt::Display for Date {
    ghost output = { λ d. Some (date_text d) };

    ghost styled_output = { λ d s. Some (styled_text s (date_text d)) };

    fn fmt<W: fmt::Write>(&self, f: &mut fmt::Formatter<W>) -> fmt::Result {
        padding::pad(f, Unfilled(*self))
    }
}

impl fmt::Debug for Date {
    ghost debug_output = { λ d. Some (date_text d) };

    fn fmt<W: fmt::Write>(&self, f: &mut fmt::Formatter<W>) -> fmt::Result {
        fmt::Display::fmt(self, f)
    }
}

//! Numbers written with a fixed number of digits.
ghost use Rattle.std.specs.Prelude.{◌<◌, Some};
ghost use Rattle.std.specs.Fmt.{DisplaysOnOk};
ghost use Rattle.calendar_count.specs.Digits.{two_digits, three_digits, nine_digits, without_zeros};

use std::fmt;

/// Writes a number below a hundred with two digits.
pub fn write_two<W: fmt::Write>(f: &mut fmt::Formatter<W>, n: u8) -> fmt::Result
    requires { n < 100 }
    ensures { DisplaysOnOk W.write_str_gives f.old result (Some (two_digits n)) f.new }
{
    let (tens, ones) = (n / 10, n % 10);
    write!(f, "{tens}{ones}")
}

// A number below a thousand with three digits.
fn write_three<W: fmt::Write>(f: &mut fmt::Formatter<W>, n: u16) -> fmt::Result
    requires { n < 1000 }
    ensures { DisplaysOnOk W.write_str_gives f.old result (Some (three_digits n)) f.new }
{
    let (hundreds, tens, ones) = (n / 100, n / 10 % 10, n % 10);
    write!(f, "{hundreds}{tens}{ones}")
}

// Writes three digits, without the zeros at their end but for the first digit.
fn write_last<W: fmt::Write>(f: &mut fmt::Formatter<W>, n: u16) -> fmt::Result
    requires { n < 1000 }
    ensures { DisplaysOnOk W.write_str_gives f.old result
        (Some (without_zeros (three_digits n))) f.new }
{
    let (hundreds, tens, ones) = (n / 100, n / 10 % 10, n % 10);
    if ones > 0 {
        write!(f, "{hundreds}{tens}{ones}")
    } else if tens > 0 {
        write!(f, "{hundreds}{tens}")
    } else {
        write!(f, "{hundreds}")
    }
}

/// Writes nanoseconds as a fraction of a second: nine digits without the zeros at their end, one
/// digit at least.
pub fn write_fraction<W: fmt::Write>(f: &mut fmt::Formatter<W>, nanoseconds: u32) -> fmt::Result
    requires { nanoseconds < 1_000_000_000 }
    ensures { DisplaysOnOk W.write_str_gives f.old result
        (Some (without_zeros (nine_digits nanoseconds))) f.new }
{
    let millis = (nanoseconds / 1_000_000) as u16;
    let micros = (nanoseconds / 1000 % 1000) as u16;
    let nanos = (nanoseconds % 1000) as u16;
    if nanos > 0 {
        write_three(f, millis)?;
        write_three(f, micros)?;
        write_last(f, nanos)
    } else if micros > 0 {
        write_three(f, millis)?;
        write_last(f, micros)
    } else {
        write_last(f, millis)
    }
}

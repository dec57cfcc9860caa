//! The text of a `Timestamp`.
ghost use Rattle.std.specs.Prelude.{◌≡◌, ◌<◌, ◌/◌, ◌%◌, unsigned_abs, pos, int_lt, Some, codes, [], if◌then◌else◌};
ghost use Rattle.std.specs.Fmt.{DisplaysOnOk};
ghost use Rattle.datetime_types.specs.Texts.{fraction_text};
ghost use Rattle.datetime_wall.specs.Wall.{second_nanos};

use crate::Timestamp;
use calendar_count::{digits, padding};
use std::fmt;

// Writes a minus where there is one.
fn write_sign<W: fmt::Write>(f: &mut fmt::Formatter<W>, is_negative: bool) -> fmt::Result
    ensures { DisplaysOnOk W.write_str_gives f.old result
        (Some (if is_negative then codes "-" else [])) f.new }
{
    if is_negative {
        f.write_str("-")
    } else {
        Ok(())
    }
}

// Writes the fraction of a second, where there is one.
fn write_fraction<W: fmt::Write>(f: &mut fmt::Formatter<W>, nanosecond: u32) -> fmt::Result
    requires { nanosecond < second_nanos }
    ensures { DisplaysOnOk W.write_str_gives f.old result (Some (fraction_text nanosecond)) f.new }
{
    if nanosecond > 0 {
        f.write_str(".")?;
        digits::write_fraction(f, nanosecond)
    } else {
        Ok(())
    }
}

impl Timestamp {
    // Whether it lies before 1970; the whole seconds to 1970, and the nanoseconds past them.
    #[tactic(auto, unfolding(crate::specs::Unix::unix_nanos))]
    fn magnitude(self) -> (bool, u64, u32)
        ensures sign { result.0 ≡ int_lt self (pos 0) }
        ensures seconds { result.1 ≡ unsigned_abs self / second_nanos }
        ensures nanoseconds { result.2 ≡ unsigned_abs self % second_nanos }
        ensures bound { result.2 < second_nanos }
    {
        let (seconds, nanoseconds) = self.parts();
        let is_negative = seconds < 0;
        if is_negative && nanoseconds > 0 {
            (
                is_negative,
                (seconds + 1).unsigned_abs(),
                1_000_000_000 - nanoseconds,
            )
        } else {
            (is_negative, seconds.unsigned_abs(), nanoseconds)
        }
    }
}

// A timestamp's text, whatever the width.
#[derive(Clone, Copy)]
struct Unfilled(Timestamp);

impl fmt::Display for Unfilled {
    ghost use Rattle.std.specs.Prelude.{Some};
    ghost use Rattle.datetime_types.specs.Texts.{seconds_text};

    ghost output = { λ text. Some (seconds_text text.0) };

    fn fmt<W: fmt::Write>(&self, f: &mut fmt::Formatter<W>) -> fmt::Result {
        let (is_negative, seconds, nanoseconds) = self.0.magnitude();
        write_sign(f, is_negative)?;
        write!(f, "{seconds}")?;
        write_fraction(f, nanoseconds)
    }
}

/// The exact decimal of the seconds since 1970 began in UTC, with no zero at the end of a fraction:
/// `1546300800`, `-0.001`.
impl fmt::Display for Timestamp {
    ghost use Rattle.std.specs.Prelude.{Some};
    ghost use Rattle.std.specs.Fmt.{styled_text};
    ghost use Rattle.datetime_types.specs.Texts.{seconds_text};

    ghost output = { λ t. Some (seconds_text t) };

    ghost styled_output = { λ t s. Some (styled_text s (seconds_text t)) };

    fn fmt<W: fmt::Write>(&self, f: &mut fmt::Formatter<W>) -> fmt::Result {
        padding::pad(f, Unfilled(*self))
    }
}

impl fmt::Debug for Timestamp {
    ghost use Rattle.std.specs.Prelude.{Some};
    ghost use Rattle.datetime_types.specs.Texts.{seconds_text};

    ghost debug_output = { λ t. Some (seconds_text t) };

    fn fmt<W: fmt::Write>(&self, f: &mut fmt::Formatter<W>) -> fmt::Result {
        fmt::Display::fmt(self, f)
    }
}

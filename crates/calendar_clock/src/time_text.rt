//! The text of a time of day.
ghost use Rattle.std.specs.Prelude.{Some};
ghost use Rattle.std.specs.Fmt.{styled_text};
ghost use Rattle.calendar_clock.specs.Time.{time_text};

use crate::Time;
use calendar_count::{digits, padding};
use std::fmt;

// A time's text, whatever the width.
#[derive(Clone, Copy)]
struct Unfilled(Time);

impl fmt::Display for Unfilled {
    ghost output = { λ text. Some (time_text text.0) };

    fn fmt<W: fmt::Write>(&self, f: &mut fmt::Formatter<W>) -> fmt::Result {
        let (hour, minute, second, nanosecond) = self.0.as_hms_nano();
        write!(f, "{hour}:")?;
        digits::write_two(f, minute)?;
        f.write_str(":")?;
        digits::write_two(f, second)?;
        f.write_str(".")?;
        digits::write_fraction(f, nanosecond)
    }
}

impl fmt::Display for Time {
    ghost output = { λ t. Some (time_text t) };

    ghost styled_output = { λ t s. Some (styled_text s (time_text t)) };

    fn fmt<W: fmt::Write>(&self, f: &mut fmt::Formatter<W>) -> fmt::Result {
        padding::pad(f, Unfilled(*self))
    }
}

impl fmt::Debug for Time {
    ghost debug_output = { λ t. Some (time_text t) };

    fn fmt<W: fmt::Write>(&self, f: &mut fmt::Formatter<W>) -> fmt::Result {
        fmt::Display::fmt(self, f)
    }
}

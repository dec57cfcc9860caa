//! Durations as text.
ghost use Rattle.std.specs.Prelude.{Some};
ghost use Rattle.std.specs.Fmt.{DisplaysOnOk, styled_text};
ghost use Rattle.calendar_spans.specs.DurationText.{part_text, seconds_text, nanoseconds_text, duration_text};

use crate::duration::SignedDuration;
use calendar_count::padding;
use std::fmt;

// A part that is not 0, and its unit.
fn write_part<W: fmt::Write>(f: &mut fmt::Formatter<W>, n: u64, unit: &str) -> fmt::Result
    ensures { DisplaysOnOk W.write_str_gives f.old result (Some (part_text n unit.now)) f.new }
{
    if n == 0 {
        return f.write_str("");
    }
    write!(f, "{n}{unit}")
}

// Whole seconds in days, hours, minutes and seconds.
#[tactic(auto, unfolding(crate::specs::DurationText::seconds_text))]
fn write_seconds<W: fmt::Write>(f: &mut fmt::Formatter<W>, seconds: u64) -> fmt::Result
    ensures { DisplaysOnOk W.write_str_gives f.old result (Some (seconds_text seconds)) f.new }
{
    write_part(f, seconds / 86_400, "d")?;
    write_part(f, seconds / 3600 % 24, "h")?;
    write_part(f, seconds / 60 % 60, "m")?;
    write_part(f, seconds % 60, "s")
}

// Nanoseconds of a second in milliseconds, microseconds and nanoseconds.
#[tactic(auto, unfolding(crate::specs::DurationText::nanoseconds_text))]
fn write_nanoseconds<W: fmt::Write>(f: &mut fmt::Formatter<W>, nanoseconds: u32) -> fmt::Result
    ensures { DisplaysOnOk W.write_str_gives f.old result
        (Some (nanoseconds_text nanoseconds)) f.new }
{
    let nanoseconds = u64::from(nanoseconds);
    write_part(f, nanoseconds / 1_000_000, "ms")?;
    write_part(f, nanoseconds / 1000 % 1000, "µs")?;
    write_part(f, nanoseconds % 1000, "ns")
}

// A duration's text, whatever the width.
#[derive(Clone, Copy)]
struct Unfilled(SignedDuration);

impl fmt::Display for Unfilled {
    ghost output = { λ text. Some (duration_text text.0) };

    fn fmt<W: fmt::Write>(&self, f: &mut fmt::Formatter<W>) -> fmt::Result {
        if self.0.is_zero() {
            return f.write_str("0s");
        }
        let (seconds, nanoseconds) = self.0.length_parts();
        f.write_str(if self.0.is_negative() { "-" } else { "" })?;
        write_seconds(f, seconds)?;
        write_nanoseconds(f, nanoseconds)
    }
}

impl fmt::Display for SignedDuration {
    ghost output = { λ d. Some (duration_text d) };

    ghost styled_output = { λ d s. Some (styled_text s (duration_text d)) };

    fn fmt<W: fmt::Write>(&self, f: &mut fmt::Formatter<W>) -> fmt::Result {
        padding::pad(f, Unfilled(*self))
    }
}

impl fmt::Debug for SignedDuration {
    ghost debug_output = { λ d. Some (duration_text d) };

    fn fmt<W: fmt::Write>(&self, f: &mut fmt::Formatter<W>) -> fmt::Result {
        fmt::Display::fmt(self, f)
    }
}

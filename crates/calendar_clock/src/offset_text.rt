//! The text of an offset.
ghost use Rattle.std.specs.Prelude.{Some};
ghost use Rattle.std.specs.Fmt.{styled_text};
ghost use Rattle.calendar_clock.specs.UtcOffset.{offset_text};

use crate::UtcOffset;
use calendar_count::{digits, padding};
use std::fmt;

// An offset's text, whatever the width.
#[derive(Clone, Copy)]
struct Unfilled(UtcOffset);

impl fmt::Display for Unfilled {
    ghost output = { λ text. Some (offset_text text.0) };

    fn fmt<W: fmt::Write>(&self, f: &mut fmt::Formatter<W>) -> fmt::Result {
        f.write_str(if self.0.is_negative() { "-" } else { "+" })?;
        let seconds = self.0.whole_seconds().unsigned_abs();
        digits::write_two(f, (seconds / 3600) as u8)?;
        f.write_str(":")?;
        digits::write_two(f, (seconds / 60 % 60) as u8)?;
        f.write_str(":")?;
        digits::write_two(f, (seconds % 60) as u8)
    }
}

impl fmt::Display for UtcOffset {
    ghost output = { λ o. Some (offset_text o) };

    ghost styled_output = { λ o s. Some (styled_text s (offset_text o)) };

    fn fmt<W: fmt::Write>(&self, f: &mut fmt::Formatter<W>) -> fmt::Result {
        padding::pad(f, Unfilled(*self))
    }
}

impl fmt::Debug for UtcOffset {
    ghost debug_output = { λ o. Some (offset_text o) };

    fn fmt<W: fmt::Write>(&self, f: &mut fmt::Formatter<W>) -> fmt::Result {
        fmt::Display::fmt(self, f)
    }
}

//! Texts under a width: the options of a hole, as in `{:>12}`, for the text as a whole.
ghost use Rattle.std.specs.Prelude.{option_map};
ghost use Rattle.std.specs.Fmt.{formatter_spec, styled_text, DisplaysOnOk, DisplaysStyledOnOk};

use std::fmt::{self, InlineText, Write};

// No text of the calendar or of the date-times has more than 42 bytes.
const LONGEST: usize = 64;

/// Writes a text of at most 64 bytes under the options of the hole: filled up to its width, on the
/// right where the hole names no side.
pub fn pad<W: fmt::Write, D: fmt::Display + Drop>(f: &mut fmt::Formatter<W>, text: D) -> fmt::Result
    ensures plain { DisplaysOnOk W.write_str_gives f.old result (D.output text) f.new }
    ensures styled { DisplaysStyledOnOk W.write_str_gives f.old result
        (option_map (styled_text (formatter_spec f.old)) (D.output text)) f.new }
{
    let mut whole = InlineText::<LONGEST>::new();
    write!(whole, "{text}")?;
    f.pad(whole.as_str())
}

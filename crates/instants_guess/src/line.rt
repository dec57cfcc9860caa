//! Lines of a text, one after another.
ghost use Rattle.std.specs.Prelude.{◌≡◌, ◌<◌, ◌≤◌, ◌+◌, ◌∷◌, length};
ghost use Rattle.instants_stream.specs.Lines.{lines};

use crate::candidate::MOST;
use instants_stream::line_len;

/// The first line, and what stands after its line feed.
pub(crate) fn first_line(text: &[u8]) -> (&[u8], &[u8])
    requires { 0 < length text.now }
    ensures lines { lines text.now ≡ result.0.now ∷ lines result.1.now }
    ensures shorter { length result.0.now + length result.1.now ≤ length text.now }
    ensures some { length result.1.now < length text.now }
{
    match line_len(text, 0) {
        Some(len) => (&text[..len], &text[len + 1..]),
        None => (text, b""),
    }
}

/// The lines of the first bytes of a stream, without one that their end cuts.
pub(crate) fn whole_lines(text: &[u8]) -> &[u8]
    ensures { length result.now ≤ length text.now }
{
    if text.len() < MOST {
        return text;
    }
    for last in (0..text.len()).rev() {
        if text[last] == b'\n' {
            return &text[..last + 1];
        }
    }
    b""
}

//! Which bytes a source is given.
ghost use Rattle.std.specs.Prelude.{◌≡◌, take};
ghost use Rattle.instants_sources.specs.Grammar.{grammar_of};
ghost use Rattle.instants_prefixes.specs.Reading.{text_for};

use instants_edges::{iso_text, mail_text};
use instants_sources::Source;

const WINDOW: usize = 256;

/// The bytes within the window.
#[inline(always)]
pub(crate) fn near(bytes: &[u8]) -> &[u8]
    ensures { result.now ≡ take 256 bytes.now }
{
    if bytes.len() > WINDOW {
        &bytes[..WINDOW]
    } else {
        bytes
    }
}

/// The bytes that a source is given of those from a place on: none after the window, and for RFC 2822 and ISO 8601 none
/// after a sign that their dates end with.
#[inline(always)]
#[tactic(auto, unfolding(crate::specs::Reading::text_for))]
pub(crate) fn text_for<'b>(source: &Source<'_>, bytes: &'b [u8]) -> &'b [u8]
    ensures { result.now ≡ text_for (grammar_of source.now) bytes.now }
{
    let near = near(bytes);
    match source {
        Source::Rfc2822 => mail_text(near),
        Source::Iso8601 => iso_text(near),
        _ => near,
    }
}

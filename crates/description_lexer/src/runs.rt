//! Runs of bytes.

ghost use Rattle.std.specs.Prelude.{◌≡◌, ◌+◌, ◌<◌, length};
ghost use Rattle.std.specs.List.{prefix_len};
ghost use Rattle.std.specs.Str.{IsCharBoundary};
ghost use Rattle.description_lexer.specs.Text.{is_space, is_word_byte, is_plain, is_no_colon, run, past};
ghost use Rattle.description_lexer.specs.Views.{rest_of};

use crate::cutting::cut;
use crate::rest::Rest;
use crate::version::DescriptionVersion;

// Whether a byte is white space.
fn is_space(byte: u8) -> bool
    ensures { result ≡ is_space byte }
{
    byte == b' ' || byte == b'\t' || byte == b'\n' || byte == 12 || byte == b'\r'
}

/// Whether a name or a modifier may have this byte.
pub fn is_word_byte(byte: u8) -> bool
    ensures { result ≡ is_word_byte byte }
{
    !(is_space(byte) || byte == b'[' || byte == b']')
}

fn is_plain(version: DescriptionVersion, byte: u8) -> bool
    ensures { result ≡ is_plain version byte }
{
    match version {
        DescriptionVersion::One => byte != b'[' && byte != b']',
        DescriptionVersion::Two | DescriptionVersion::Three => {
            byte != b'[' && byte != b']' && byte != b'\\'
        }
    }
}

// How many bytes of white space are at the start.
fn space_len(text: &[u8]) -> usize
    ensures { result ≡ prefix_len is_space text.now }
{
    text.iter().take_while(|byte| is_space(**byte)).count()
}

// How many bytes the word at the start has.
fn word_len(text: &[u8]) -> usize
    ensures { result ≡ prefix_len is_word_byte text.now }
{
    text.iter().take_while(|byte| is_word_byte(**byte)).count()
}

/// The length of the run that a literal goes on with.
pub fn plain_len(version: DescriptionVersion, text: &[u8]) -> usize
    ensures { result ≡ prefix_len (is_plain version) text.now }
{
    text.iter()
        .take_while(|byte| is_plain(version, **byte))
        .count()
}

// How many bytes stand before the first colon.
fn colon_len(text: &[u8]) -> usize
    ensures { result ≡ prefix_len is_no_colon text.now }
{
    text.iter().take_while(|byte| **byte != b':').count()
}

/// The length of what stands before the first colon.
pub fn key_len(text: &str) -> usize
    ensures len { result ≡ prefix_len is_no_colon text.now }
    ensures boundary { IsCharBoundary text.now result }
    ensures past { result < length text.now → IsCharBoundary text.now (result + 1) }
{
    colon_len(text.as_bytes())
}

/// What follows the white space.
pub fn past_space<'a>(here: Rest<'a>) -> Rest<'a>
    ensures value { rest_of result ≡ past is_space (rest_of here.entry) }
{
    let len = space_len(here.text.as_bytes());
    cut(here, len).1
}

/// The word at the start, and what follows it.
pub fn word<'a>(here: Rest<'a>) -> (Rest<'a>, Rest<'a>)
    ensures prefix { rest_of result.0 ≡ run is_word_byte (rest_of here.entry) }
    ensures back { rest_of result.1 ≡ past is_word_byte (rest_of here.entry) }
{
    let len = word_len(here.text.as_bytes());
    cut(here, len)
}

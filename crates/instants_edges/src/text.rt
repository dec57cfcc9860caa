//! Which of the bytes from a place on a date may have.
ghost use Rattle.std.specs.Prelude.{◌≡◌, ◌≤◌, length, take, IfSome};
ghost use Rattle.instants_edges.specs.Text as Text;

use crate::bytes::{byte_after, byte_at, byte_before, digits_length, rest_from};

/// Whether the digits at the start are a fraction, and no field of a list.
#[tactic(auto, using(std::proofs::lemmas::Bool::Decides::nat_tests))]
pub(crate) fn is_fraction(bytes: &[u8]) -> bool
    ensures { result ≡ Text.is_fraction bytes.now }
{
    let long = digits_length(bytes);
    let next = byte_at(bytes, long);
    let is_continued = next == b',' || (next == b'.' && byte_after(bytes, long).is_ascii_digit());
    matches!(long, 3 | 6 | 9) && !is_continued
}

// Whether a byte before others is one that ends a date of ISO 8601.
#[inline(always)]
#[tactic(auto, using(std::proofs::lemmas::Bool::Decides::nat_tests))]
fn is_stop(byte: u8, after: &[u8]) -> bool
    ensures { result ≡ Text.is_stop byte after.now }
{
    match byte {
        b'.' | b':' => !byte_at(after, 0).is_ascii_digit(),
        b',' => !byte_at(after, 0).is_ascii_digit() || !is_fraction(after),
        _ => false,
    }
}

/// The bytes before the first point, comma or colon that is a mark of a sentence or a list.
pub fn iso_text(bytes: &[u8]) -> &[u8]
    ensures value { result.now ≡ Text.iso_text bytes.now }
    ensures within { length result.now ≤ length bytes.now }
    ensures prefix { result.now ≡ take (length result.now) bytes.now }
{
    for place in 0..bytes.len() {
        if is_stop(bytes[place], rest_from(bytes, place + 1)) {
            return &bytes[..place];
        }
    }
    bytes
}

// How many bytes a date of RFC 2822 has from a byte on, if it ends there.
#[inline(always)]
#[tactic(auto, using(std::proofs::lemmas::Bool::Decides::nat_tests))]
fn mail_end(before: u8, byte: u8, after: &[u8]) -> Option<usize>
    ensures end { result ≡ Text.mail_end before byte after.now }
    ensures few { IfSome result (λ long. long ≤ 2) }
{
    if byte == b'(' {
        return Some(0);
    }
    if !byte.is_ascii_alphabetic() || before.is_ascii_alphanumeric() {
        return None;
    }
    if !byte_at(after, 0).is_ascii_alphanumeric() {
        return Some(usize::from(byte.to_ascii_lowercase() == b'z'));
    }
    if byte.to_ascii_lowercase() != b'u' || byte_at(after, 0).to_ascii_lowercase() != b't' {
        return None;
    }
    if byte_at(after, 1).is_ascii_alphanumeric() {
        None
    } else {
        Some(2)
    }
}

/// The bytes up to the first word `UT` or `Z`, or before another word of one letter or a parenthesis.
pub fn mail_text(bytes: &[u8]) -> &[u8]
    ensures value { result.now ≡ Text.mail_text 0 bytes.now }
    ensures within { length result.now ≤ length bytes.now }
    ensures prefix { result.now ≡ take (length result.now) bytes.now }
{
    for place in 0..bytes.len() {
        let before = byte_before(bytes, place, 1);
        if let Some(long) = mail_end(before, bytes[place], rest_from(bytes, place + 1)) {
            return &bytes[..(place + long).min(bytes.len())];
        }
    }
    bytes
}

//! Strings in JSON, RFC 8259, section 7.
ghost use Rattle.std.specs.Prelude.{◌≡◌, ◌<◌, ◌≤◌, [], ◌∷◌, length, IfSome, None};
ghost use Rattle.std.specs.Char.{InScalarRange, encode_utf8};
ghost use Rattle.instants_fields.specs.Pieces as Pieces;
ghost use Rattle.instants_fields.specs.Strings as Strings;
ghost use Rattle.instants_fields.specs.Compared as Compared;

use crate::plain::{after, after_plain, plain_count};

// A character of a string: a byte as it stands, or the number that an escape names.
#[derive(Clone, Copy)]
pub(crate) enum Character {
    Plain(u8),
    Escaped(u16),
}

// A digit of sixteen.
#[tactic(auto, unfolding(crate::specs::Strings::hex_digit))]
fn hex_digit(text: &[u8]) -> Option<(u16, &[u8])>
    ensures cut { Pieces.cut_view result ≡ Strings.hex_digit text.now }
    ensures bound { IfSome result (λ p. p.0 < 16) }
    ensures shorter { IfSome result (λ p. length p.1.now < length text.now) }
{
    match text {
        [digit @ b'0'..=b'9', rest @ ..] => Some((u16::from(*digit - b'0'), rest)),
        [digit @ b'a'..=b'f', rest @ ..] => Some((u16::from(*digit - b'a') + 10, rest)),
        [digit @ b'A'..=b'F', rest @ ..] => Some((u16::from(*digit - b'A') + 10, rest)),
        _ => None,
    }
}

// Four of them.
#[inline(never)]
#[tactic(auto, unfolding(crate::specs::Strings::four_digits))]
fn four_digits(text: &[u8]) -> Option<(u16, &[u8])>
    ensures cut { Pieces.cut_view result ≡ Strings.four_digits text.now }
    ensures shorter { IfSome result (λ p. length p.1.now < length text.now) }
{
    let (first, rest) = hex_digit(text)?;
    let (second, rest) = hex_digit(rest)?;
    let (third, rest) = hex_digit(rest)?;
    let (fourth, rest) = hex_digit(rest)?;
    Some((first * 4096 + second * 256 + third * 16 + fourth, rest))
}

// What a byte after a backslash names.
#[inline(always)]
fn short_escape(byte: u8) -> Option<u16>
    ensures { result ≡ Strings.short_escape byte }
{
    match byte {
        b'"' | b'\\' | b'/' => Some(u16::from(byte)),
        b'b' => Some(8),
        b'f' => Some(12),
        b'n' => Some(10),
        b'r' => Some(13),
        b't' => Some(9),
        _ => None,
    }
}

// What follows a backslash, and the number that it names.
#[inline(always)]
#[tactic(auto, unfolding(crate::specs::Strings::escape))]
fn escape(text: &[u8]) -> Option<(u16, &[u8])>
    ensures cut { Pieces.cut_view result ≡ Strings.escape text.now }
    ensures shorter { IfSome result (λ p. length p.1.now < length text.now) }
{
    match text {
        [b'u', rest @ ..] => four_digits(rest),
        [byte, rest @ ..] => Some((short_escape(*byte)?, rest)),
        [] => None,
    }
}

// A character, or none at the quotation mark that ends the string.
#[inline(always)]
#[tactic(auto, unfolding(crate::specs::Strings::character))]
fn next_character(text: &[u8]) -> Option<(Option<Character>, &[u8])>
    ensures cut { Pieces.cut_view result ≡ Strings.character text.now }
    ensures shorter { IfSome result (λ p. length p.1.now < length text.now) }
{
    match text {
        [] | [0..0x20, ..] => None,
        [b'"', rest @ ..] => Some((None, rest)),
        [b'\\', rest @ ..] => {
            let (code, rest) = escape(rest)?;
            Some((Some(Character::Escaped(code)), rest))
        }
        [byte, rest @ ..] => Some((Some(Character::Plain(*byte)), rest)),
    }
}

// What stands after the rest of a string, from one of its characters on.
#[inline(never)]
#[tactic(auto, using(crate::proofs::StringLemmas::behind_character))]
fn after_characters(text: &[u8]) -> Option<&[u8]>
    ensures cut { Pieces.rest_view result ≡ Pieces.rest_of (Strings.string text.now) }
    ensures shorter { IfSome result (λ rest. length rest.now < length text.now) }
{
    let mut left = text;
    loop {
        let (one, rest) = next_character(left)?;
        if one.is_none() {
            return Some(rest);
        }
        left = after_plain(rest);
    }
}

// The same. It is inlined, so that a string without escapes needs no place for the answer of a call.
#[inline(always)]
fn after_escapes(text: &[u8]) -> Option<&[u8]>
    ensures cut { Pieces.rest_view result ≡ Pieces.rest_of (Strings.string text.now) }
    ensures shorter { IfSome result (λ rest. length rest.now < length text.now) }
{
    Some(after_characters(text)?)
}

// What stands after a quotation mark.
#[inline(always)]
#[tactic(auto, unfolding(crate::specs::Pieces::byte))]
pub(crate) fn after_mark(text: &[u8]) -> Option<&[u8]>
    ensures cut { Pieces.rest_view result ≡ Pieces.rest_of (Pieces.byte 34 text.now) }
    ensures shorter { IfSome result (λ rest. length rest.now < length text.now) }
{
    match text {
        [b'"', rest @ ..] => Some(rest),
        _ => None,
    }
}

// What stands after a string whose first quotation mark was read. Most have no escapes.
#[inline(always)]
#[tactic(auto, using(crate::proofs::StringLemmas::behind_mark))]
pub(crate) fn after_string(text: &[u8]) -> Option<&[u8]>
    ensures cut { Pieces.rest_view result ≡ Pieces.rest_of (Strings.string text.now) }
    ensures shorter { IfSome result (λ rest. length rest.now < length text.now) }
{
    let left = after_plain(text);
    match after_mark(left) {
        Some(rest) => Some(rest),
        None => after_escapes(left),
    }
}

// What stands after the UTF-8 of a code point.
fn behind_code(code: u32, due: &[u8]) -> Option<&[u8]>
    requires { InScalarRange code }
    ensures { Pieces.rest_view result ≡ Compared.behind (encode_utf8 code) due.now }
{
    let mut buffer = [0; 4];
    let character = char::from_u32(code)?.encode_utf8(&mut buffer);
    due.strip_prefix(character.as_bytes())
}

// The code point of two surrogates.
fn pair(high: u16, low: u16) -> u32
    requires high { (0xd800 ≤ high) × (high < 0xdc00) }
    requires low { (0xdc00 ≤ low) × (low < 0xe000) }
    ensures { result ≡ Strings.pair high low }
{
    0x10000 + u32::from(high - 0xd800) * 1024 + u32::from(low - 0xdc00)
}

// What is due after one character: a low surrogate after a high one, and bytes.
fn matched(high: Option<u16>, one: Character, due: &[u8]) -> Option<(Option<u16>, &[u8])>
    requires { IfSome high (λ code. (0xd800 ≤ code) × (code < 0xdc00)) }
    ensures cut { Pieces.cut_view result ≡ Compared.matched high one due.now }
    ensures high { IfSome result (λ p. IfSome p.0 (λ code. (0xd800 ≤ code) × (code < 0xdc00))) }
{
    let rest = match (high, one) {
        (None, Character::Plain(byte)) => due.strip_prefix(&[byte])?,
        (None, Character::Escaped(code @ 0xd800..0xdc00)) => return Some((Some(code), due)),
        (None, Character::Escaped(0xdc00..0xe000)) => return None,
        (None, Character::Escaped(code)) => behind_code(u32::from(code), due)?,
        (Some(high), Character::Escaped(low @ 0xdc00..0xe000)) => behind_code(
            pair(high, low),
            due,
        )?,
        (Some(_), _) => return None,
    };
    Some((None, rest))
}

// Whether nothing is due at the end of a string.
fn is_said(high: Option<u16>, due: &[u8]) -> bool
    ensures { result ≡ Strings.is_text due.now (Strings.text_after high []) }
{
    match (high, due) {
        (None, []) => true,
        _ => false,
    }
}

// Whether a string whose first quotation mark was read says a name.
#[inline(never)]
#[tactic(auto, using(crate::proofs::StringLemmas::says_character))]
fn says(name: &[u8], text: &[u8]) -> bool
    ensures { result ≡ Compared.says_after None name.now (Strings.string text.now) }
{
    let mut left = text;
    let mut due = name;
    let mut high = None;
    while let Some((one, rest)) = next_character(left) {
        let Some(one) = one else {
            return is_said(high, due);
        };
        let Some((next_high, next_due)) = matched(high, one, due) else {
            return false;
        };
        high = next_high;
        due = next_due;
        left = rest;
    }
    false
}

// Whether a string says a name, and what stands after it. Its rest is given from one of its characters on.
#[inline(always)]
fn compared_slowly<'a>(name: &[u8], text: &[u8], left: &'a [u8]) -> Option<(bool, &'a [u8])>
    requires { Pieces.rest_of (Strings.string left.now) ≡ Pieces.rest_of (Strings.string text.now) }
    ensures cut { Compared.rest_after result ≡ Pieces.rest_of (Strings.string text.now) }
    ensures says { IfSome result (λ p. p.0 ≡ Compared.says_after None name.now (Strings.string text.now)) }
    ensures shorter { IfSome result (λ p. length p.1.now < length left.now) }
{
    let rest = after_escapes(left)?;
    Some((says(name, text), rest))
}

// Whether a string whose first quotation mark was read says a name, and what stands after the string.
#[inline(always)]
pub(crate) fn compared<'a>(name: &[u8], text: &'a [u8]) -> Option<(bool, &'a [u8])>
    ensures cut { Compared.rest_after result ≡ Pieces.rest_of (Strings.string text.now) }
    ensures says { IfSome result (λ p. p.0 ≡ Compared.says_after None name.now (Strings.string text.now)) }
    ensures shorter { IfSome result (λ p. length p.1.now < length text.now) }
{
    let count = plain_count(text);
    let left = after(text, count);
    match after_mark(left) {
        Some(rest) => Some((name == &text[..count], rest)),
        None => compared_slowly(name, text, left),
    }
}

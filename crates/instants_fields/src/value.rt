//! Values in JSON, RFC 8259.
ghost use Rattle.std.specs.Prelude.{◌≡◌, ◌<◌, ◌≤◌, ◌+◌, true, length, get_or, IfSome};
ghost use Rattle.instants_fields.specs.Pieces as Pieces;
ghost use Rattle.instants_fields.specs.Json as Json;
ghost use Rattle.instants_fields.specs.Found as Finding;

use crate::space::{after_space, after_space_and, digits};
use crate::string::{after_mark, after_string};

// What a value is.
#[derive(Clone, Copy)]
pub(crate) enum Kind {
    String,
    Number,
    Other,
}

// A value, and how many bytes of the text are left where it begins and where it ends.
#[derive(Clone, Copy)]
pub(crate) struct Extent {
    pub(crate) kind: Kind,
    pub(crate) before: usize,
    pub(crate) after: usize,
}

// The digits before the point.
#[inline(always)]
#[tactic(auto, unfolding(crate::specs::Pieces::after_byte))]
fn after_integer(text: &[u8]) -> Option<&[u8]>
    ensures cut { Pieces.rest_view result ≡ Pieces.rest_of (Json.integer text.now) }
    ensures shorter { IfSome result (λ rest. length rest.now < length text.now) }
{
    match text {
        [b'0', rest @ ..] => Some(rest),
        _ => digits(text),
    }
}

// A minus, if one is there, and the digits before the point.
#[inline(always)]
#[tactic(auto, unfolding(crate::specs::Pieces::after_byte))]
fn after_whole(text: &[u8]) -> Option<&[u8]>
    ensures cut { Pieces.rest_view result ≡ Pieces.rest_of (Pieces.after_byte 45 Json.integer Json.integer text.now) }
    ensures shorter { IfSome result (λ rest. length rest.now < length text.now) }
{
    match text {
        [b'-', rest @ ..] => after_integer(rest),
        _ => after_integer(text),
    }
}

// A point and digits, if a point is there.
#[inline(always)]
#[tactic(auto, unfolding(crate::specs::Pieces::after_byte))]
fn after_fraction(text: &[u8]) -> Option<&[u8]>
    ensures cut { Pieces.rest_view result ≡ Pieces.rest_of (Json.fraction text.now) }
    ensures shorter { IfSome result (λ rest. length rest.now ≤ length text.now) }
{
    match text {
        [b'.', rest @ ..] => digits(rest),
        _ => Some(text),
    }
}

// Digits after a sign, or none.
#[tactic(auto, unfolding(crate::specs::Pieces::after_byte))]
fn after_signed(text: &[u8]) -> Option<&[u8]>
    ensures cut { Pieces.rest_view result ≡ Pieces.rest_of (Json.signed text.now) }
    ensures shorter { IfSome result (λ rest. length rest.now < length text.now) }
{
    match text {
        [b'+' | b'-', rest @ ..] => digits(rest),
        _ => digits(text),
    }
}

// An exponent, if one is there.
#[inline(always)]
#[tactic(auto, unfolding(crate::specs::Pieces::after_byte))]
fn after_exponent(text: &[u8]) -> Option<&[u8]>
    ensures cut { Pieces.rest_view result ≡ Pieces.rest_of (Json.exponent text.now) }
    ensures shorter { IfSome result (λ rest. length rest.now ≤ length text.now) }
{
    match text {
        [b'e' | b'E', rest @ ..] => after_signed(rest),
        _ => Some(text),
    }
}

// A number.
#[inline(always)]
#[tactic(auto, unfolding(crate::specs::Json::number))]
fn number(text: &[u8]) -> Option<(Kind, &[u8])>
    ensures cut { Pieces.cut_view result ≡ Json.number text.now }
    ensures marks { IfSome result (λ p. p.0 ≡ Kind.Number) }
    ensures shorter { IfSome result (λ p. length p.1.now < length text.now) }
{
    let rest = after_exponent(after_fraction(after_whole(text)?)?)?;
    Some((Kind::Number, rest))
}

// The rest of `true` after its first letter.
#[tactic(auto, unfolding(crate::specs::Json::true_word, crate::specs::Pieces::byte))]
fn true_word(text: &[u8]) -> Option<(Kind, &[u8])>
    ensures cut { Pieces.cut_view result ≡ Json.true_word text.now }
    ensures marks { IfSome result (λ p. p.0 ≡ Kind.Other) }
    ensures shorter { IfSome result (λ p. length p.1.now < length text.now) }
{
    match text {
        [b'r', b'u', b'e', rest @ ..] => Some((Kind::Other, rest)),
        _ => None,
    }
}

// The rest of `false` after its first letter.
#[tactic(auto, unfolding(crate::specs::Json::false_word, crate::specs::Pieces::byte))]
fn false_word(text: &[u8]) -> Option<(Kind, &[u8])>
    ensures cut { Pieces.cut_view result ≡ Json.false_word text.now }
    ensures marks { IfSome result (λ p. p.0 ≡ Kind.Other) }
    ensures shorter { IfSome result (λ p. length p.1.now < length text.now) }
{
    match text {
        [b'a', b'l', b's', b'e', rest @ ..] => Some((Kind::Other, rest)),
        _ => None,
    }
}

// The rest of `null` after its first letter.
#[tactic(auto, unfolding(crate::specs::Json::null_word, crate::specs::Pieces::byte))]
fn null_word(text: &[u8]) -> Option<(Kind, &[u8])>
    ensures cut { Pieces.cut_view result ≡ Json.null_word text.now }
    ensures marks { IfSome result (λ p. p.0 ≡ Kind.Other) }
    ensures shorter { IfSome result (λ p. length p.1.now < length text.now) }
{
    match text {
        [b'u', b'l', b'l', rest @ ..] => Some((Kind::Other, rest)),
        _ => None,
    }
}

// A string whose first quotation mark was read.
#[inline(always)]
#[tactic(auto, unfolding(crate::specs::Json::quoted))]
fn quoted(text: &[u8]) -> Option<(Kind, &[u8])>
    ensures cut { Pieces.cut_view result ≡ Json.quoted text.now }
    ensures marks { IfSome result (λ p. p.0 ≡ Kind.String) }
    ensures shorter { IfSome result (λ p. length p.1.now < length text.now) }
{
    Some((Kind::String, after_string(text)?))
}

// A value without levels.
#[inline(always)]
#[tactic(auto, unfolding(crate::specs::Json::scalar, crate::specs::Pieces::after_byte))]
fn scalar(text: &[u8]) -> Option<(Kind, &[u8])>
    ensures cut { Pieces.cut_view result ≡ Json.scalar text.now }
    ensures shorter { IfSome result (λ p. length p.1.now < length text.now) }
    ensures marks { IfSome result (λ p. length p.1.now + Finding.marks p.0 ≤ length text.now) }
{
    match text {
        [b'"', rest @ ..] => quoted(rest),
        [b't', rest @ ..] => true_word(rest),
        [b'f', rest @ ..] => false_word(rest),
        [b'n', rest @ ..] => null_word(rest),
        _ => number(text),
    }
}

// Whether an object or an array begins.
#[inline(always)]
#[tactic(auto, unfolding(crate::specs::Json::opened, crate::specs::Pieces::byte, crate::specs::Pieces::after_byte))]
fn opened(text: &[u8]) -> Option<(bool, &[u8])>
    ensures cut { Pieces.cut_view result ≡ Json.opened text.now }
    ensures shorter { IfSome result (λ p. length p.1.now < length text.now) }
{
    match text {
        [b'{', rest @ ..] => Some((true, rest)),
        [b'[', rest @ ..] => Some((false, rest)),
        _ => None,
    }
}

// What stands after the closing bracket.
#[inline(always)]
#[tactic(auto, unfolding(crate::specs::Pieces::byte))]
pub(crate) fn closed(is_object: bool, text: &[u8]) -> Option<&[u8]>
    ensures cut { Pieces.rest_view result ≡ Pieces.rest_of (Pieces.byte (Json.closing is_object) text.now) }
    ensures shorter { IfSome result (λ rest. length rest.now < length text.now) }
{
    match text {
        [b'}', rest @ ..] if is_object => Some(rest),
        [b']', rest @ ..] if !is_object => Some(rest),
        _ => None,
    }
}

// A comma, or the closing bracket after the last item, and what stands after it.
#[inline(always)]
#[tactic(auto, unfolding(crate::specs::Json::separator, crate::specs::Pieces::after_byte))]
fn separator(is_object: bool, text: &[u8]) -> Option<(bool, &[u8])>
    ensures cut { Pieces.cut_view result ≡ Json.separator is_object text.now }
    ensures shorter { IfSome result (λ p. length p.1.now < length text.now) }
{
    match text {
        [b',', rest @ ..] => Some((false, rest)),
        _ => Some((true, closed(is_object, text)?)),
    }
}

// The same after white space, of which there is mostly none.
#[inline(always)]
#[tactic(auto, unfolding(crate::specs::Json::separator, crate::specs::Pieces::after_byte, crate::specs::Pieces::without))]
pub(crate) fn spaced_separator(is_object: bool, text: &[u8]) -> Option<(bool, &[u8])>
    ensures cut { Pieces.cut_view result ≡ Json.separator is_object (Pieces.without Json.is_space text.now) }
    ensures shorter { IfSome result (λ p. length p.1.now < length text.now) }
{
    match text {
        [b',', rest @ ..] => Some((false, rest)),
        _ => separator(is_object, after_space(text)),
    }
}

// What stands before the value of an item: of an array nothing, of an object its name and a colon.
#[inline(always)]
#[tactic(auto, unfolding(crate::specs::Json::key, crate::specs::Json::named, crate::specs::Pieces::byte))]
fn after_key(is_object: bool, text: &[u8]) -> Option<&[u8]>
    ensures cut { Pieces.rest_view result ≡ Pieces.rest_of (Json.key is_object text.now) }
    ensures shorter { IfSome result (λ rest. length rest.now ≤ length text.now) }
{
    if !is_object {
        return Some(text);
    }
    let [b'"', rest @ ..] = text else {
        return None;
    };
    let rest = after_space_and(b':', after_string(rest)?)?;
    Some(after_space(rest))
}

// A value of at most so many levels, whatever it begins with.
#[cycle(value)]
#[inline(always)]
#[tactic(auto, using(crate::proofs::ItemLemmas::value_is, crate::proofs::ItemLemmas::no_levels))]
fn other_value(levels: u8, text: &[u8]) -> Option<(Kind, &[u8])>
    ensures cut { Pieces.cut_view result ≡ Json.value levels text.now }
    ensures shorter { IfSome result (λ p. length p.1.now < length text.now) }
    ensures marks { IfSome result (λ p. length p.1.now + Finding.marks p.0 ≤ length text.now) }
{
    if levels == 0 {
        return scalar(text);
    }
    let Some((is_object, rest)) = opened(text) else {
        return scalar(text);
    };
    let (kind, rest) = items(levels - 1, is_object, rest)?;
    Some((kind, rest))
}

// The same, where a string is looked for first.
#[cycle(value)]
#[inline(always)]
fn value(levels: u8, text: &[u8]) -> Option<(Kind, &[u8])>
    ensures cut { Pieces.cut_view result ≡ Json.value levels text.now }
    ensures shorter { IfSome result (λ p. length p.1.now < length text.now) }
    ensures marks { IfSome result (λ p. length p.1.now + Finding.marks p.0 ≤ length text.now) }
{
    match after_mark(text) {
        Some(rest) => quoted(rest),
        None => other_value(levels, text),
    }
}

// The items of an array or an object whose opening bracket was read.
#[cycle(value)]
#[inline(never)]
#[tactic(auto, using(crate::proofs::ItemLemmas::items_are, crate::proofs::ItemLemmas::one_item))]
fn items(levels: u8, is_object: bool, text: &[u8]) -> Option<(Kind, &[u8])>
    ensures cut { Pieces.cut_view result ≡ Finding.as_other (Json.items is_object (Json.value levels) text.now) }
    ensures shorter { IfSome result (λ p. length p.1.now < length text.now) }
    ensures marks { IfSome result (λ p. p.0 ≡ Kind.Other) }
{
    let mut left = after_space(text);
    if let Some(rest) = closed(is_object, left) {
        return Some((Kind::Other, rest));
    }
    loop {
        let (_, rest) = value(levels, after_key(is_object, after_space(left))?)?;
        let (is_last, rest) = spaced_separator(is_object, rest)?;
        if is_last {
            return Some((Kind::Other, rest));
        }
        left = rest;
    }
}

// Whether a number may begin here: only a point and a slash say so in vain.
#[inline(always)]
fn may_be_number(text: &[u8]) -> bool
    ensures { result ≡ true → (1 ≤ length text.now) × (45 ≤ get_or text.now 0 0) × (get_or text.now 0 0 ≤ 57) }
{
    matches!(text, [b'-'..=b'9', ..])
}

// A value after white space, and how many bytes are left where the value begins. A number is looked for first.
#[inline(always)]
fn placed_value(levels: u8, text: &[u8]) -> Option<(usize, Kind, &[u8])>
    ensures cut { Finding.placed_view result ≡ Finding.with_place (length (Pieces.without Json.is_space text.now)) (Json.value levels (Pieces.without Json.is_space text.now)) }
    ensures before { IfSome result (λ p. p.0 ≤ length text.now) }
    ensures marks { IfSome result (λ p. length p.2.now + Finding.marks p.1 ≤ p.0) }
    ensures shorter { IfSome result (λ p. length p.2.now < p.0) }
{
    if !may_be_number(text) {
        let text = after_space(text);
        let (kind, after) = value(levels, text)?;
        return Some((text.len(), kind, after));
    }
    let Some((kind, after)) = number(text) else {
        return None;
    };
    Some((text.len(), kind, after))
}

// The same, where a string that stands first is looked for before.
#[inline(always)]
pub(crate) fn spaced_value(levels: u8, text: &[u8]) -> Option<(usize, Kind, &[u8])>
    ensures cut { Finding.placed_view result ≡ Finding.with_place (length (Pieces.without Json.is_space text.now)) (Json.value levels (Pieces.without Json.is_space text.now)) }
    ensures before { IfSome result (λ p. p.0 ≤ length text.now) }
    ensures marks { IfSome result (λ p. length p.2.now + Finding.marks p.1 ≤ p.0) }
    ensures shorter { IfSome result (λ p. length p.2.now < p.0) }
{
    let Some(inside) = after_mark(text) else {
        return placed_value(levels, text);
    };
    let Some((kind, after)) = quoted(inside) else {
        return None;
    };
    Some((text.len(), kind, after))
}

//! White space, single bytes and digits at the start of a text.
ghost use Rattle.std.specs.Prelude.{◌≡◌, ◌<◌, ◌≤◌, false, length, IfSome};
ghost use Rattle.std.specs.Char.{is_ascii_digit};
ghost use Rattle.std.specs.List.{list_all};
ghost use Rattle.instants_fields.specs.Pieces as Pieces;
ghost use Rattle.instants_fields.specs.Json as Json;

// Whether a byte is white space, RFC 8259, section 2.
fn is_space(byte: u8) -> bool
    ensures { result ≡ Json.is_space byte }
{
    matches!(byte, b' ' | b'\t' | b'\n' | b'\r')
}

// Whether all bytes are white space.
pub(crate) fn is_blank(text: &[u8]) -> bool
    ensures { result ≡ list_all Json.is_space text.now }
{
    text.iter().all(|byte| is_space(*byte))
}

// What stands after white space.
#[inline(never)]
#[tactic(auto, unfolding(crate::specs::Pieces::without))]
fn after_spaces(text: &[u8]) -> &[u8]
    ensures rest { result.now ≡ Pieces.without Json.is_space text.now }
    ensures shorter { length result.now ≤ length text.now }
{
    let mut left = text;
    while let [first, rest @ ..] = left {
        if !is_space(*first) {
            return left;
        }
        left = rest;
    }
    left
}

// What stands after the rest of white space, whose first space was read. Mostly no other follows.
#[inline(always)]
#[tactic(auto, unfolding(crate::specs::Pieces::without))]
fn after_one_space(text: &[u8]) -> &[u8]
    ensures rest { result.now ≡ Pieces.without Json.is_space text.now }
    ensures shorter { length result.now ≤ length text.now }
{
    match text {
        [b'!'..=255, ..] => text,
        _ => after_spaces(text),
    }
}

// What stands after white space, of which there is mostly none, or one space.
#[inline(always)]
#[tactic(auto, unfolding(crate::specs::Pieces::without))]
pub(crate) fn after_space(text: &[u8]) -> &[u8]
    ensures rest { result.now ≡ Pieces.without Json.is_space text.now }
    ensures shorter { length result.now ≤ length text.now }
{
    match text {
        [b'!'..=255, ..] => text,
        [b' ', rest @ ..] => after_one_space(rest),
        _ => after_spaces(text),
    }
}

// What stands after white space and a byte that is due.
#[inline(always)]
#[tactic(auto, unfolding(crate::specs::Pieces::byte))]
fn after_spaces_and(due: u8, text: &[u8]) -> Option<&[u8]>
    ensures cut { Pieces.rest_view result ≡ Pieces.rest_of (Pieces.byte due (Pieces.without Json.is_space text.now)) }
    ensures shorter { IfSome result (λ rest. length rest.now < length text.now) }
{
    match after_space(text) {
        [first, rest @ ..] if *first == due => Some(rest),
        _ => None,
    }
}

// The same, where the byte mostly stands first.
#[inline(always)]
#[tactic(auto, unfolding(crate::specs::Pieces::byte, crate::specs::Pieces::without))]
pub(crate) fn after_space_and(due: u8, text: &[u8]) -> Option<&[u8]>
    requires { Json.is_space due ≡ false }
    ensures cut { Pieces.rest_view result ≡ Pieces.rest_of (Pieces.byte due (Pieces.without Json.is_space text.now)) }
    ensures shorter { IfSome result (λ rest. length rest.now < length text.now) }
{
    match text {
        [] => None,
        [first, rest @ ..] if *first == due => Some(rest),
        _ => after_spaces_and(due, text),
    }
}

// What stands after digits, if any are there.
#[inline(always)]
#[tactic(auto, unfolding(crate::specs::Pieces::without))]
fn after_digits(text: &[u8]) -> &[u8]
    ensures rest { result.now ≡ Pieces.without is_ascii_digit text.now }
    ensures shorter { length result.now ≤ length text.now }
{
    let mut left = text;
    while let [first, rest @ ..] = left {
        if !first.is_ascii_digit() {
            return left;
        }
        left = rest;
    }
    left
}

// What stands after digits, one at least.
#[inline(always)]
#[tactic(auto, unfolding(crate::specs::Json::digits))]
pub(crate) fn digits(text: &[u8]) -> Option<&[u8]>
    ensures cut { Pieces.rest_view result ≡ Pieces.rest_of (Json.digits text.now) }
    ensures shorter { IfSome result (λ rest. length rest.now < length text.now) }
{
    match text {
        [first, rest @ ..] if first.is_ascii_digit() => Some(after_digits(rest)),
        _ => None,
    }
}

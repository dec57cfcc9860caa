//! The offset that a line says after a date, or inside of it.
ghost use Rattle.std.specs.Prelude.{◌≡◌, ◌≤◌, ◌<◌, ◌-◌, ◌==◌, not, IsTrue, get_or, length, map};
ghost use Rattle.instants_edges.specs.Words as Words;
ghost use Rattle.instants_edges.specs.Beside as Beside;

use crate::apart::{after, gap, near};
use crate::bytes::{byte_at, byte_before, first_bytes, letters_length, rest_from};
use crate::digits::number;
use crate::edge::{is_edge, is_sign};
use crate::forms::{HOURS_AND_MINUTES, NAMES, NAMES_INSIDE, NAMES_OF_UTC, NUMBERS, TWO_DIGITS};
use crate::words::{begin_so, begun, sign_length, word};
use calendar::UtcOffset;

// Fifteen hours, which no offset reaches, in seconds.
const FIFTEEN_HOURS: u32 = 54_000;

// The seconds of hours, or of hours and minutes.
fn seconds_in(bytes: &[u8]) -> u32
    ensures { result ≡ Beside.seconds_in bytes.now }
{
    let number = number(bytes);
    if bytes.len() <= 2 {
        return number * 3600;
    }
    number / 100 * 3600 + number % 100 * 60
}

// Whether a sign is a minus.
fn is_minus(sign: &[u8]) -> bool
    ensures { result ≡ Beside.is_minus sign.now }
{
    sign.iter().any(|byte| *byte == b'-' || *byte == 226 || byte.to_ascii_lowercase() == b'd')
}

// So many seconds as an offset, which lies within fifteen hours of UTC.
fn within_fifteen_hours(minus: bool, seconds: u32) -> Option<i32>
    ensures { result ≡ Beside.within_fifteen_hours minus seconds }
{
    if seconds >= FIFTEEN_HOURS {
        return None;
    }
    let offset = seconds as i32;
    if minus { Some(-offset) } else { Some(offset) }
}

// The offset of a number in one of these forms after a sign of so many bytes.
#[inline(never)]
fn said_after(numbers: &[&[u8]], bytes: &[u8], sign: usize) -> Option<i32>
    ensures { result ≡ Beside.said_after (map (λ form. form.now) numbers.now) bytes.now sign }
{
    let others = rest_from(bytes, sign);
    let long = word(numbers, others);
    if long == 0 {
        return None;
    }
    let seconds = seconds_in(first_bytes(others, long));
    within_fifteen_hours(is_minus(first_bytes(bytes, sign)), seconds)
}

// The offset of a sign and a number in one of these forms. Most bytes begin with no sign, so the rest is a call of its own.
#[inline(always)]
fn said(numbers: &[&[u8]], bytes: &[u8]) -> Option<i32>
    ensures { result ≡ Beside.said (map (λ form. form.now) numbers.now) bytes.now }
{
    let sign = sign_length(bytes);
    if sign == 0 {
        return None;
    }
    said_after(numbers, bytes, sign)
}

// The length of a space and a bracket at the start, or of a space.
#[inline(always)]
fn opening(bytes: &[u8]) -> usize
    ensures { result ≡ Beside.opening bytes.now }
{
    if byte_at(bytes, 0) != b' ' {
        return 0;
    }
    match byte_at(bytes, 1) {
        b'(' | b'[' => 2,
        _ => 1,
    }
}

// The offset directly at the start, or two digits of hours over a space and a bracket.
fn said_directly(bytes: &[u8]) -> Option<i32>
    ensures { result ≡ Beside.said_directly bytes.now }
{
    said(&NUMBERS, bytes).or_else(|| said(&TWO_DIGITS, rest_from(bytes, opening(bytes))))
}

// Whether UTC is named at the start. Few bytes begin a name of it, so the names are tried after those alone.
#[inline(always)]
#[tactic(auto, using(crate::proofs::FirstBytes::no_utc))]
fn is_utc_after(bytes: &[u8]) -> bool
    ensures { result ≡ not (Words.word Words.names_of_utc bytes.now == 0) }
{
    matches!(byte_at(bytes, 0).to_ascii_lowercase(), b'u' | b'g' | b'z')
        && word(&NAMES_OF_UTC, bytes) != 0
}

// The offset after the name of a zone, or that of UTC. Few words have an offset after them, so it is looked for first.
fn said_by_name(bytes: &[u8]) -> Option<i32>
    ensures { result ≡ Beside.said_by_name bytes.now }
{
    let long = letters_length(bytes);
    let others = rest_from(bytes, long);
    let past_space = rest_from(others, usize::from(byte_at(others, 0) == b' '));
    let said = said(&NUMBERS, past_space);
    if said.is_some() && long > 0 && begun(&NAMES, bytes) == long {
        return said;
    }
    is_utc_after(bytes).then_some(0)
}

// The offset after a date.
#[tactic(auto, unfolding(crate::specs::Beside::offset_after))]
fn offset_after(bytes: &[u8]) -> Option<i32>
    ensures { result ≡ Beside.offset_after bytes.now }
{
    let near = near(bytes);
    let apart = rest_from(near, gap(near));
    said_directly(near).or_else(|| said(&HOURS_AND_MINUTES, apart).or_else(|| said_by_name(apart)))
}

/// The offset that a line says after a date, in seconds.
pub fn offset_said(line: &[u8], ends: usize) -> Option<i32>
    requires ends { ends ≤ length line.now }
    ensures { result ≡ Beside.offset_after (Beside.after line.now ends) }
{
    offset_after(after(line, ends))
}

/// The word of letters that stands after a date, directly or over a space: it may be empty.
#[tactic(auto, unfolding(crate::specs::Beside::word_after))]
pub fn word_after(line: &[u8], ends: usize) -> &[u8]
    requires ends { ends ≤ length line.now }
    ensures { result.now ≡ Beside.word_after line.now ends }
{
    let bytes = near(after(line, ends));
    let others = rest_from(bytes, usize::from(byte_at(bytes, 0) == b' '));
    first_bytes(others, letters_length(others))
}

// The byte with which that word begins, if it has one, over a colour or a fraction.
#[inline(never)]
#[tactic(auto, using(crate::proofs::FirstBytes::word_begins), unfolding(crate::specs::Beside::word_after))]
fn first_behind(line: &[u8], ends: usize) -> u8
    requires { ends ≤ length line.now }
    ensures { get_or (Beside.word_after line.now ends) 0 result ≡ result }
{
    let bytes = near(after(line, ends));
    byte_at(bytes, usize::from(byte_at(bytes, 0) == b' '))
}

/// The byte with which that word begins, if it has one. Most dates have a space after them.
#[inline(always)]
#[tactic(auto, using(crate::proofs::FirstBytes::word_over_space))]
pub fn first_after(line: &[u8], ends: usize) -> u8
    requires ends { ends ≤ length line.now }
    ensures { get_or (Beside.word_after line.now ends) 0 result ≡ result }
{
    if line.len() - ends >= 2 && line[ends] == b' ' {
        return line[ends + 1];
    }
    first_behind(line, ends)
}

// Whether a sign and four digits stand at a place after no word.
#[inline(always)]
fn is_signed_year(line: &[u8], place: usize) -> bool
    ensures { result ≡ Beside.is_signed_year line.now place }
{
    is_sign(byte_at(line, place))
        && begin_so(b"9999", rest_from(rest_from(line, place), 1))
        && !byte_before(line, place, 1).is_ascii_alphanumeric()
}

// Whether UTC is named at a place, as it is looked for inside of what is read.
#[inline(always)]
#[tactic(auto, using(std::proofs::lemmas::Bool::Decides::nat_tests, crate::proofs::FirstBytes::no_utc_inside))]
fn is_utc(line: &[u8], place: usize) -> bool
    ensures { result ≡ Beside.is_utc line.now place }
{
    let bytes = rest_from(line, place);
    matches!(byte_at(bytes, 0).to_ascii_lowercase(), b'u' | b'g' | b'z')
        && word(&NAMES_INSIDE, bytes) != 0
        && is_edge(line, place)
}

// Whether an offset is said at a place inside of what is read: by a sign and four digits, or, where that is another one, by a name
// of UTC. The digits of a date begin neither, nor do the marks between them but a hyphen.
#[inline(always)]
#[tactic(auto, using(crate::proofs::FirstBytes::no_offset))]
fn says_offset(line: &[u8], place: usize, is_other: bool) -> bool
    ensures { result ≡ Beside.is_offset is_other line.now place }
{
    let first = byte_at(line, place);
    if first >= b'.' && first <= b':' {
        return false;
    }
    is_signed_year(line, place) || (is_other && is_utc(line, place))
}

// Whether one is at a place from one up to another.
fn has_offset_inside(line: &[u8], start: usize, ends: usize, is_other: bool) -> bool
    ensures { result ≡ Beside.is_any (Beside.is_offset is_other line.now) start ends }
{
    (start..ends).any(|place| says_offset(line, place, is_other))
}

/// Whether a line says another offset than the one given, after a date that is read from a place up to another, or inside
/// of what is read.
#[tactic(auto, unfolding(crate::specs::Beside::has_another_offset))]
pub fn has_another_offset(line: &[u8], start: usize, ends: usize, given: UtcOffset) -> bool
    requires ends { ends ≤ length line.now }
    ensures { result ≡ Beside.has_another_offset line.now start ends given }
{
    matches!(offset_after(after(line, ends)), Some(said) if said != given.whole_seconds())
        || has_offset_inside(line, start, ends, given.whole_seconds() != 0)
}

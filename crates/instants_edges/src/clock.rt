//! Times of day beside a date and before it.
ghost use Rattle.std.specs.Prelude.{◌≡◌, ◌≤◌, ◌==◌, ◌||◌, not, length};
ghost use Rattle.std.specs.Char.{is_ascii_hexdigit};
ghost use Rattle.std.specs.List.{prefix_len, suffix_len};
ghost use Rattle.instants_edges.specs.Words as Words;
ghost use Rattle.instants_edges.specs.Beside as Beside;

use crate::apart::{after, near};
use crate::bytes::{byte_at, byte_before, first_bytes, rest_from};
use crate::colons::lacks_colon;
use crate::edge::is_edge;
use crate::forms::{CLOCKS, HALVES, WIDE_SPACES};
use crate::words::{begin_so, begun, word};

// The length of one byte or space that may stand before a half of the day.
#[inline(always)]
fn pause(bytes: &[u8]) -> usize
    ensures { result ≡ Beside.pause bytes.now }
{
    match byte_at(bytes, 0) {
        b' ' | b'\t' | b',' | b';' => 1,
        _ => begun(&WIDE_SPACES, bytes),
    }
}

/// Whether a line says a half of the day after a date that ends at a place.
#[tactic(auto, using(std::proofs::lemmas::Bool::Decides::nat_tests, crate::proofs::FirstBytes::no_half), unfolding(crate::specs::Beside::has_half_after))]
pub fn has_half_after(line: &[u8], ends: usize) -> bool
    requires { ends ≤ length line.now }
    ensures { result ≡ Beside.has_half_after line.now ends }
{
    let bytes = near(after(line, ends));
    let half = rest_from(bytes, pause(bytes));
    matches!(byte_at(half, 0), b'a' | b'A' | b'p' | b'P') && word(&HALVES, half) != 0
}

// Whether bytes begin in the form of a clock.
#[inline(always)]
#[tactic(auto, using(std::proofs::lemmas::Bool::Decides::nat_tests, crate::proofs::FirstBytes::no_clock))]
fn begins_clock(bytes: &[u8]) -> bool
    ensures { result ≡ not (Words.begun Words.clocks bytes.now == 0) }
{
    byte_at(bytes, 0).is_ascii_digit() && begun(&CLOCKS, bytes) != 0
}

// Whether a clock stands at a place.
#[inline(always)]
fn is_clock(line: &[u8], place: usize) -> bool
    ensures { result ≡ Beside.is_clock line.now place }
{
    begins_clock(rest_from(line, place)) && is_edge(line, place)
}

// Whether one does at a place from one up to another.
fn has_clock(line: &[u8], from: usize, to: usize) -> bool
    ensures { result ≡ Beside.is_any (Beside.is_clock line.now) from to }
{
    (from..to).any(|place| is_clock(line, place))
}

/// Whether a line says a clock within sixteen bytes before a date or after it, which begins and ends at these places.
#[tactic(auto, unfolding(crate::specs::Beside::has_clock_beside))]
pub fn has_clock_beside(line: &[u8], begins: usize, ends: usize) -> bool
    requires { ends ≤ length line.now }
    ensures { result ≡ Beside.has_clock_beside line.now begins ends }
{
    has_clock(line, begins.saturating_sub(16), begins) || has_clock(line, ends, ends + 16)
}

// How many bytes that may stand in an address of IPv6 or of hardware end the bytes.
#[tactic(auto, using(crate::proofs::Prefixes::prefix_count))]
fn address_length(bytes: &[u8]) -> usize
    ensures value { result ≡ suffix_len (λ byte. is_ascii_hexdigit byte || byte == 58) bytes.now }
    ensures within { result ≤ length bytes.now }
{
    bytes
        .iter()
        .rev()
        .take_while(|byte| byte.is_ascii_hexdigit() || **byte == b':')
        .count()
}

// Whether an address goes on over a place.
fn is_in_address(line: &[u8], place: usize) -> bool
    ensures { result ≡ Beside.is_in_address line.now place }
{
    let before = first_bytes(line, place);
    let address = rest_from(before, before.len() - address_length(before));
    address.iter().filter(|byte| **byte == b':').count() > 1
}

// Whether hours, minutes and seconds begin at a place, and no more of a clock or an address.
#[inline(always)]
fn begins_seconds(line: &[u8], place: usize) -> bool
    ensures { result ≡ Beside.begins_seconds line.now place }
{
    let bytes = rest_from(line, place);
    begin_so(b"99:99:99", bytes)
        && !byte_before(line, place, 1).is_ascii_digit()
        && !byte_at(bytes, 8).is_ascii_alphanumeric()
        && byte_at(bytes, 8) != b':'
        && !is_in_address(line, place)
}

// How many bytes stand before the first quotation mark.
fn quote_place(bytes: &[u8]) -> usize
    ensures { result ≡ prefix_len (λ byte. not (byte == 34)) bytes.now }
{
    bytes.iter().take_while(|byte| **byte != b'"').count()
}

// Whether they do before a place and the first quotation mark, looked for byte by byte.
#[cold]
#[inline(never)]
#[tactic(auto, unfolding(crate::specs::Beside::has_clock_before))]
fn has_seconds(line: &[u8], place: usize) -> bool
    ensures { result ≡ Beside.has_clock_before line.now place }
{
    let bytes = first_bytes(line, place);
    let before = first_bytes(bytes, quote_place(bytes));
    (0..before.len()).any(|place| begins_seconds(before, place))
}

/// Whether a clock with seconds stands before a place, and before the first quotation mark. Most lines have no colon there.
#[inline(always)]
#[tactic(auto, using(crate::proofs::NoClocks::no_colon_no_clock))]
pub fn has_clock_before(line: &[u8], place: usize) -> bool
    requires { place ≤ length line.now }
    ensures { result ≡ Beside.has_clock_before line.now place }
{
    !lacks_colon(line, place) && has_seconds(line, place)
}

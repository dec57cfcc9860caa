//! Where a date may begin or end.
ghost use Rattle.std.specs.Prelude.{◌≡◌, ◌≤◌, ◌<◌, ◌-◌, ◌+◌, length, take, get_or};
ghost use Rattle.std.specs.List.{suffix_len};
ghost use Rattle.instants_edges.specs.Edge as Edge;

use crate::bytes::{byte_after, byte_at, byte_before, first_bytes};

pub(crate) const ESCAPE: u8 = 27;

/// Whether a byte may stand between `ESC [` and the letter of a control sequence.
#[inline(always)]
pub(crate) fn is_parameter(byte: u8) -> bool
    ensures { result ≡ Edge.is_parameter byte }
{
    byte.is_ascii_digit() || byte == b';'
}

// How many parameters of a control sequence end before a place.
#[tactic(auto, using(crate::proofs::Prefixes::prefix_count))]
fn parameters_before(line: &[u8], place: usize) -> usize
    ensures value { result ≡ suffix_len Edge.is_parameter (take place line.now) }
    ensures within { result ≤ length line.now }
{
    first_bytes(line, place)
        .iter()
        .rev()
        .take_while(|byte| is_parameter(**byte))
        .count()
}

// Whether what stands before the byte before a place begins a control sequence. Few do, so it is a call of its own.
#[cold]
#[inline(never)]
fn follows_escape(line: &[u8], place: usize) -> bool
    ensures { result ≡ Edge.follows_escape line.now place }
{
    let long = parameters_before(line, place.saturating_sub(1));
    byte_before(line, place, long + 2) == b'[' && byte_before(line, place, long + 3) == ESCAPE
}

// Whether a control sequence ends at a place.
#[inline(always)]
fn ends_sequence(line: &[u8], place: usize) -> bool
    ensures { result ≡ Edge.ends_sequence line.now place }
{
    byte_before(line, place, 1).is_ascii_alphabetic() && follows_escape(line, place)
}

// Whether a place stands between the minutes of a clock and its seconds.
#[inline(always)]
#[tactic(auto, using(std::proofs::lemmas::Bool::Decides::nat_tests))]
fn is_inside_clock(line: &[u8], place: usize) -> bool
    ensures { result ≡ Edge.is_inside_clock
        (Edge.byte_before line.now place 3) (Edge.byte_before line.now place 2) (Edge.byte_before line.now place 1)
        (get_or line.now place 0) (get_or line.now (place + 1) 0) }
{
    byte_at(line, place) == b':'
        && byte_after(line, place).is_ascii_digit()
        && byte_before(line, place, 1).is_ascii_digit()
        && byte_before(line, place, 2).is_ascii_digit()
        && !byte_before(line, place, 3).is_ascii_digit()
}

/// Whether no word and no clock goes on over a place of a line. Most places are told by the bytes on either side.
#[inline(always)]
#[tactic(auto, using(std::proofs::lemmas::Bool::Decides::nat_tests, crate::proofs::Edges::edge_is))]
pub fn is_edge(line: &[u8], place: usize) -> bool
    ensures { result ≡ Edge.is_edge line.now place }
{
    let before = byte_before(line, place, 1);
    let after = byte_at(line, place);
    if before.is_ascii_alphanumeric() {
        if after.is_ascii_alphanumeric() {
            return ends_sequence(line, place);
        }
        if after == b'.' {
            return !byte_after(line, place).is_ascii_digit();
        }
        return !is_inside_clock(line, place);
    }
    if before != b'.' || !after.is_ascii_alphanumeric() {
        return true;
    }
    !byte_before(line, place, 2).is_ascii_digit()
}

/// Whether a byte is a plus or a hyphen.
#[inline(always)]
pub(crate) fn is_sign(byte: u8) -> bool
    ensures { result ≡ Edge.is_sign byte }
{
    byte == b'+' || byte == b'-'
}

// Whether a sign at a place belongs to a date that begins there.
#[cold]
#[inline(never)]
fn is_own_sign(line: &[u8], place: usize) -> bool
    ensures { result ≡ Edge.is_own_sign line.now place }
{
    let before = byte_before(line, place, 1);
    place == 0
        || before.is_ascii_whitespace()
        || matches!(
            before,
            b'(' | b'[' | b'{' | b'<' | b'"' | b'\'' | b'`' | b'=' | b':' | b',' | b';' | b'|'
        )
}

/// Whether a date may begin at a place as far as a sign there goes: one that joins words begins none.
#[inline(always)]
pub fn may_say(line: &[u8], place: usize) -> bool
    ensures { result ≡ Edge.may_say line.now place }
{
    !is_sign(byte_at(line, place)) || is_own_sign(line, place)
}

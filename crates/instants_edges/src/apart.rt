//! What stands between a date and a word after it.
ghost use Rattle.std.specs.Prelude.{◌≡◌, ◌≤◌, length};
ghost use Rattle.std.specs.List.{prefix_len};
ghost use Rattle.instants_edges.specs.Edge as Edge;
ghost use Rattle.instants_edges.specs.Beside as Beside;

use crate::bytes::{byte_at, digits_length, first_bytes, rest_from};
use crate::edge::{ESCAPE, is_parameter};

// How far is looked after a date.
const REACH: usize = 48;

/// What stands after a place, as far as is looked.
#[inline(always)]
pub(crate) fn after(line: &[u8], place: usize) -> &[u8]
    ensures { result.now ≡ Beside.after line.now place }
{
    first_bytes(rest_from(line, place), REACH)
}

// The length of a comma and digits at the start.
#[inline(always)]
fn fraction_length(bytes: &[u8]) -> usize
    ensures { result ≡ Beside.fraction_length bytes.now }
{
    if byte_at(bytes, 0) != b',' || !byte_at(bytes, 1).is_ascii_digit() {
        return 0;
    }
    digits_length(rest_from(bytes, 1)) + 1
}

// How many parameters of a control sequence stand at the start.
#[tactic(auto, using(crate::proofs::Prefixes::prefix_count))]
fn parameters_length(bytes: &[u8]) -> usize
    ensures value { result ≡ prefix_len Edge.is_parameter bytes.now }
    ensures within { result ≤ length bytes.now }
{
    bytes.iter().take_while(|byte| is_parameter(**byte)).count()
}

// The length of a control sequence at the start.
#[inline(always)]
fn sequence_length(bytes: &[u8]) -> usize
    ensures { result ≡ Beside.sequence_length bytes.now }
{
    if byte_at(bytes, 0) != ESCAPE || byte_at(bytes, 1) != b'[' {
        return 0;
    }
    let others = rest_from(bytes, 2);
    let long = parameters_length(others);
    if byte_at(others, long).is_ascii_alphabetic() {
        long + 3
    } else {
        0
    }
}

/// What stands after a colour and a fraction.
#[inline(always)]
pub(crate) fn near(bytes: &[u8]) -> &[u8]
    ensures { result.now ≡ Beside.near bytes.now }
{
    let plain = rest_from(bytes, sequence_length(bytes));
    rest_from(plain, fraction_length(plain))
}

// Whether a byte of ASCII is no letter, no digit and no sign.
#[inline(always)]
fn is_parting(byte: u8) -> bool
    ensures { result ≡ Beside.is_parting byte }
{
    byte.is_ascii() && !byte.is_ascii_alphanumeric() && !matches!(byte, b'+' | b'-' | b'\\')
}

/// How many bytes that part stand at the start, up to three.
#[inline(always)]
#[tactic(auto, using(crate::proofs::Prefixes::prefix_count))]
pub(crate) fn gap(bytes: &[u8]) -> usize
    ensures { result ≡ Beside.gap bytes.now }
{
    first_bytes(bytes, 3)
        .iter()
        .take_while(|byte| is_parting(**byte))
        .count()
}

//! Words by the forms in which they are written.
ghost use Rattle.std.specs.Prelude.{◌≡◌, ◌≤◌, IsTrue, length, map};
ghost use Rattle.instants_edges.specs.Words as Words;

use crate::bytes::{byte_at, rest_from};
use crate::edge::{is_edge, is_sign};
use crate::forms::SIGNS;

// Whether a mark of a form stands for a byte.
#[inline(always)]
fn fits(mark: u8, byte: u8) -> bool
    ensures { result ≡ Words.fits mark byte }
{
    match mark {
        b'0'..=b'9' => byte.is_ascii_digit() && byte <= mark,
        b'+' => is_sign(byte),
        _ => byte.to_ascii_lowercase() == mark,
    }
}

/// Whether bytes begin in a form.
#[inline(always)]
#[tactic(auto, using(crate::proofs::FirstBytes::too_short), unfolding(crate::specs::Words::begin_so))]
pub(crate) fn begin_so(form: &[u8], bytes: &[u8]) -> bool
    ensures value { result ≡ Words.begin_so form.now bytes.now }
    ensures within { IsTrue result → length form.now ≤ length bytes.now }
{
    if form.len() > bytes.len() {
        return false;
    }
    for place in 0..form.len() {
        if !fits(form[place], bytes[place]) {
            return false;
        }
    }
    true
}

/// The length of the first of these forms in which bytes begin, and 0 where there is none.
#[tactic(auto, unfolding(crate::specs::Words::begun))]
pub(crate) fn begun(forms: &[&[u8]], bytes: &[u8]) -> usize
    ensures value { result ≡ Words.begun (map (λ form. form.now) forms.now) bytes.now }
    ensures within { result ≤ length bytes.now }
{
    for form in forms {
        if begin_so(form, bytes) {
            return form.len();
        }
    }
    0
}

/// The same, where a word ends after it.
#[tactic(auto, unfolding(crate::specs::Words::word))]
pub(crate) fn word(forms: &[&[u8]], bytes: &[u8]) -> usize
    ensures value { result ≡ Words.word (map (λ form. form.now) forms.now) bytes.now }
    ensures within { result ≤ length bytes.now }
{
    for form in forms {
        if begin_so(form, bytes) && is_edge(bytes, form.len()) {
            return form.len();
        }
    }
    0
}

/// The length of a sign at the start, and 0 where there is none. Few bytes begin one, so the forms are tried after those alone.
#[inline(always)]
#[tactic(auto, using(crate::proofs::FirstBytes::no_sign))]
pub(crate) fn sign_length(bytes: &[u8]) -> usize
    ensures value { result ≡ Words.begun Words.signs bytes.now }
    ensures within { result ≤ length bytes.now }
{
    match byte_at(bytes, 0) {
        b'+' | b'-' | 226 | b'\\' => begun(&SIGNS, bytes),
        _ => 0,
    }
}

/// The length of a sign and a number in one of these forms, and 0 where there is none.
#[inline]
pub(crate) fn signed(numbers: &[&[u8]], bytes: &[u8]) -> usize
    ensures value { result ≡ Words.signed (map (λ form. form.now) numbers.now) bytes.now }
    ensures within { result ≤ length bytes.now }
{
    let sign = sign_length(bytes);
    if sign == 0 {
        return 0;
    }
    let number = word(numbers, rest_from(bytes, sign));
    if number == 0 { 0 } else { sign + number }
}

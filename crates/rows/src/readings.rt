//! Rows of readings: `WORD CALL ARGUMENTS | INPUT => ANSWER`, of which the first word says what is called.
//!
//! - `23`, `s`: a description, in each of these versions or by the letters of `strftime` (`versions`);
//! - `rfc3339`, `rfc2822`, `iso8601`: a format (`formats`);
//! - `white`, `piece`: what these formats are read by (`pieces`);
//! - `prefixes`, `changes`, `crossed`: texts that are cut or changed (`changes`).
//!
//! The input of a description is text as it stands. Any other input is bytes: `\n`, `\r`, `\t`, `\\` and `\xHH` are
//! one byte each.

use crate::bytes::unescape;
use crate::changes::{count_changes, count_prefixes, tell_count};
use crate::telling::{Told, tell_no_call};
use crate::versions::{Asked, tell_each};
use crate::{formats, pieces};
use std::alloc::Global;

/// What is answered to a row.
pub fn tell_row(alloc: Global, told: &mut String, row: &str) -> Told {
    let Some((word, call, input)) = parts_of(row) else {
        return tell_no_call(told);
    };
    match word.as_bytes() {
        [b's' | b'1'..=b'3', ..] => { tell_description(alloc, told, word, call, input.as_bytes()) }
        _ => tell_unescaped(alloc, told, word, call, input),
    }
}

// The word, the call and the input of a row.
fn parts_of(row: &str) -> Option<(&str, &str, &str)> {
    let (word, row) = row.split_once(' ')?;
    let (call, input) = row.split_once(" | ")?;
    Some((word, call, input))
}

// What a call by a description answers, as in `23 date [year]-[ordinal] | 2021-032 => 2021-02-01`.
fn tell_description(
    alloc: Global,
    told: &mut String,
    versions: &str,
    call: &str,
    input: &[u8],
) -> Told {
    match call.split_once(' ') {
        Some((call, text)) => tell_each(alloc, told, versions, Asked::Call(call, input), text),
        None => tell_no_call(told),
    }
}

// What is answered to a row whose input is bytes.
fn tell_unescaped(alloc: Global, told: &mut String, word: &str, call: &str, input: &str) -> Told {
    let mut bytes = Vec::new(alloc);
    unescape(input, &mut bytes)?;
    tell_bytes(told, word, call, bytes.as_mut_slice())
}

// What a reading answers for these bytes.
fn tell_bytes(told: &mut String, word: &str, call: &str, input: &mut [u8]) -> Told {
    match word {
        "rfc3339" => formats::tell_rfc3339(told, call, input),
        "rfc2822" => formats::tell_rfc2822(told, call, input),
        "iso8601" => formats::tell_iso8601(told, call, input),
        "white" => pieces::tell_white_space(told, call, input),
        "piece" => pieces::tell_piece(told, call, input),
        "fronts" => tell_count(told, count_prefixes(call, input)),
        "changes" => tell_count(told, count_changes(call, input, (0, 255))),
        "crossed" => tell_count(told, count_changes(call, input, (b'x', b'x'))),
        _ => tell_no_call(told),
    }
}

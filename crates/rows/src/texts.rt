//! Rows of descriptions: a call, a text and what is told of it, as in `23 [[day]] => missing component name at byte index 0`.
//!
//! - `123 TEXT`: the text is read as a description of each version that is named, and as the letters of strftime where
//!   `s` is named. Told are the items, the tree, or the sentence of the fault.
//! - `shown 23 TEXT`: the same, as `Description` shows it.
//! - `parse TEXT`: the text is read by version 1's own call.
//! - `component 23 TEXT`: the component that a name and its modifiers mean.
//! - `named 23 WORD NAME`: whether the word is this name.
//! - `literal 12 TEXT`: the text that stands for itself before, and the byte index after it.
//! - `escape TEXT`: what the escape before stands for, and what follows it.
//! - `modifiers TEXT`: each key and value after its byte index, and what follows them.
//!
//! A text stands as it is. After a `\` before the call, `\t`, `\r` and `\n` in the text and in what is told are a tab,
//! a carriage return and a line feed, and `\\` is a backslash.

use crate::bytes::{tell_bytes, unescape};
use crate::telling::{Told, tell_debug, tell_fault, tell_no_call};
use crate::versions::{Asked, tell_each};
use crate::words;
use description::parse;
use std::alloc::Global;
use std::str;

/// What is told of a text, which may have escapes.
pub fn tell_row(alloc: Global, told: &mut String, row: &str) -> Told {
    match row.strip_prefix('\\') {
        Some(escaped) => tell_unescaped(alloc, told, escaped),
        None => tell_plain(alloc, told, row),
    }
}

fn tell_unescaped(alloc: Global, told: &mut String, escaped: &str) -> Told {
    let mut bytes = Vec::new(alloc);
    unescape(escaped, &mut bytes)?;
    match str::from_utf8(bytes.as_slice()) {
        Ok(row) => tell_escaped(alloc, told, row),
        Err(_) => tell_no_call(told),
    }
}

// What is told, written with escapes.
fn tell_escaped(alloc: Global, told: &mut String, row: &str) -> Told {
    let mut plain = String::new(alloc);
    tell_plain(alloc, &mut plain, row)?;
    tell_bytes(told, plain.as_str().as_bytes())
}

// A description has no word before its versions, and some calls have no version.
fn tell_plain(alloc: Global, told: &mut String, row: &str) -> Told {
    let Some((call, text)) = row.split_once(' ') else {
        return tell_no_call(told);
    };
    match call {
        "escape" => words::tell_escape(told, text),
        "modifiers" => words::tell_modifiers(alloc, told, text),
        "parse" => tell_parsed(alloc, told, text),
        "shown" => tell_of_versions(alloc, told, Asked::Shown, text),
        "component" | "literal" | "named" => {
            tell_of_versions(alloc, told, Asked::Word(call), text)
        }
        _ => tell_each(alloc, told, call, Asked::Inside, text),
    }
}

fn tell_parsed(alloc: Global, told: &mut String, text: &str) -> Told {
    match parse(alloc, text) {
        Ok(items) => tell_debug(told, &items),
        Err(fault) => tell_fault(told, fault),
    }
}

fn tell_of_versions(alloc: Global, told: &mut String, asked: Asked<'_>, text: &str) -> Told {
    match text.split_once(' ') {
        Some((versions, text)) => tell_each(alloc, told, versions, asked, text),
        None => tell_no_call(told),
    }
}

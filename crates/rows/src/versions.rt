//! Rows of descriptions in several versions: each is a digit, or `s` for the letters of `strftime`. All of them tell
//! alike; where they do not, the row shows the first that differs from the one before, with ` (in N)` after it.

use crate::calls::tell_call;
use crate::telling::{Told, tell_debug, tell_display, tell_fault, tell_no_call, tells_other};
use crate::words;
use description::{
    BorrowedFormatItem, Description, DescriptionVersion, FormatDescriptionV3, parse_borrowed,
    parse_strftime_borrowed,
};
use parsing::{Items, nodes_in_description, nodes_in_items};
use std::alloc::{AllocError, Global};

/// What is told of a description.
#[derive(Clone, Copy)]
pub enum Asked<'a> {
    /// Its items or its tree.
    Inside,
    /// The description as it is shown.
    Shown,
    /// Its words, by a call.
    Word(&'a str),
    /// What a call answers to an input.
    Call(&'a str, &'a [u8]),
}

/// What is told in each version.
pub fn tell_each(
    alloc: Global,
    told: &mut String,
    versions: &str,
    asked: Asked<'_>,
    text: &str,
) -> Told {
    let mut versions = versions.chars();
    let Some(first) = versions.next() else {
        return tell_no_call(told);
    };
    tell_in(alloc, told, first, asked, text)?;
    for version in versions {
        if tells_other_in(alloc, told, version, asked, text)? {
            break;
        }
    }
    Ok(())
}

// Whether the version tells something else, which is then told.
fn tells_other_in(
    alloc: Global,
    told: &mut String,
    version: char,
    asked: Asked<'_>,
    text: &str,
) -> Result<bool, AllocError> {
    let mut other = String::new(alloc);
    tell_in(alloc, &mut other, version, asked, text)?;
    tells_other(told, other.as_str(), format_args!("in {version}"))
}

// What is told in a version.
fn tell_in(alloc: Global, told: &mut String, version: char, asked: Asked<'_>, text: &str) -> Told {
    match version {
        's' => tell_letters(alloc, told, asked, text),
        '1' => tell_version(alloc, told, DescriptionVersion::One, asked, text),
        '2' => tell_version(alloc, told, DescriptionVersion::Two, asked, text),
        '3' => tell_version(alloc, told, DescriptionVersion::Three, asked, text),
        _ => tell_no_call(told),
    }
}

// What a text spells by the letters of `strftime`.
fn tell_letters(alloc: Global, told: &mut String, asked: Asked<'_>, text: &str) -> Told {
    match parse_strftime_borrowed(alloc, text) {
        Ok(items) => tell_items(told, items.as_slice(), asked),
        Err(fault) => tell_fault(told, fault),
    }
}

fn tell_version(
    alloc: Global,
    told: &mut String,
    version: DescriptionVersion,
    asked: Asked<'_>,
    text: &str,
) -> Told {
    if let Asked::Word(call) = asked {
        return words::tell_word(alloc, told, version, call, text);
    }
    match parse_borrowed(alloc, version, text) {
        Ok(description) => tell_description(told, &description, asked),
        Err(fault) => tell_fault(told, fault),
    }
}

fn tell_description(told: &mut String, description: &Description<'_>, asked: Asked<'_>) -> Told {
    match (asked, description) {
        (Asked::Shown, _) => tell_debug(told, description),
        (_, Description::Items(items)) => tell_items(told, items, asked),
        (_, Description::V3(tree)) => tell_tree(told, tree, asked),
    }
}

fn tell_items(told: &mut String, items: &[BorrowedFormatItem<'_>], asked: Asked<'_>) -> Told {
    match asked {
        Asked::Call("nodes", _) => tell_display(told, &nodes_in_items(items)),
        Asked::Call(call, input) => tell_call(told, &Items(items), call, input),
        _ => tell_debug(told, &items),
    }
}

fn tell_tree(told: &mut String, tree: &FormatDescriptionV3<'_>, asked: Asked<'_>) -> Told {
    match asked {
        Asked::Call("nodes", _) => tell_display(told, &nodes_in_description(tree)),
        Asked::Call(call, input) => tell_call(told, tree, call, input),
        _ => tell_debug(told, tree),
    }
}

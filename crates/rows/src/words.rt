//! What is told of the words of a description.

use crate::telling::{Told, tell_debug, tell_display, tell_fault, tell_no_call};
use description::{Component, InvalidFormatDescription};
use description_lexer::{
    DescriptionVersion, Modifier, Rest, begins, escape, is_named, literal, modifiers_of, name_of,
    whole_of,
};
use description_tables::component_of;
use std::alloc::Global;

/// What a call tells of the words in a version.
pub fn tell_word(
    alloc: Global,
    told: &mut String,
    version: DescriptionVersion,
    call: &str,
    text: &str,
) -> Told {
    match call {
        "component" => tell_component(alloc, told, version, text),
        "literal" => tell_literal(told, version, text),
        _ => tell_named(told, version, text),
    }
}

// The component that a name and its modifiers mean.
fn tell_component(
    alloc: Global,
    told: &mut String,
    version: DescriptionVersion,
    text: &str,
) -> Told {
    match name_of(0, whole_of(text)) {
        Ok((name, rest)) => tell_modified(alloc, told, version, name, rest),
        Err(fault) => tell_display(told, &fault),
    }
}

fn tell_modified(
    alloc: Global,
    told: &mut String,
    version: DescriptionVersion,
    name: Rest<'_>,
    rest: Rest<'_>,
) -> Told {
    match modifiers_of(alloc, rest) {
        Ok((all, _)) => tell_meant(told, component_of(version, name, all.as_slice())),
        Err(fault) => tell_fault(told, fault),
    }
}

fn tell_meant(told: &mut String, meant: Result<Component, InvalidFormatDescription<'_>>) -> Told {
    match meant {
        Ok(component) => tell_debug(told, &component),
        Err(fault) => tell_display(told, &fault),
    }
}

// Whether a word is a name, where both are there.
fn tell_named(told: &mut String, version: DescriptionVersion, text: &str) -> Told {
    match text.split_once(' ') {
        Some((word, name)) => write!(told, "{}", is_named(version, word, name)),
        None => tell_no_call(told),
    }
}

// The text that stands for itself, and the byte index after it. A text that is empty has none.
fn tell_literal(told: &mut String, version: DescriptionVersion, text: &str) -> Told {
    if text.is_empty() {
        return tell_no_call(told);
    }
    let (prefix, rest) = literal(version, whole_of(text));
    write!(told, "{prefix} up to {}", rest.index)
}

/// What the escape before stands for, and what follows it. A text that begins otherwise has none.
pub fn tell_escape(told: &mut String, text: &str) -> Told {
    if !begins(text, b'\\') {
        return tell_no_call(told);
    }
    match escape(whole_of(text)) {
        Ok((prefix, rest)) => write!(told, "{prefix} then {}", rest.text),
        Err(fault) => write!(told, "{fault}"),
    }
}

/// Each key and value after its byte index, and what follows them.
pub fn tell_modifiers(alloc: Global, told: &mut String, text: &str) -> Told {
    match modifiers_of(alloc, whole_of(text)) {
        Ok((all, rest)) => tell_all(told, all.as_slice(), rest.text),
        Err(fault) => tell_fault(told, fault),
    }
}

fn tell_all(told: &mut String, all: &[Modifier<'_>], rest: &str) -> Told {
    for modifier in all {
        tell_part(told, modifier.key)?;
        tell_part(told, modifier.value)?;
    }
    write!(told, "then {rest}")
}

fn tell_part(told: &mut String, part: Rest<'_>) -> Told {
    write!(told, "{} {}, ", part.index, part.text)
}

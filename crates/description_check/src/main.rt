//! `description_check LANGUAGE`: reads a description from standard input, in `v1`, `v2`, `v3` or `strftime`, and shows
//! where its fault stands, or says that it is well formed and which values it can never name alone.
#![tactic(auto)]

mod parts;
mod told;
mod walk;

use crate::parts::Parts;
use crate::told::{show_fault, show_parts};
use crate::walk::{parts_of_items, parts_of_node};
use description::{
    Description, DescriptionFault, DescriptionVersion, parse_borrowed, parse_strftime_borrowed,
};
use std::alloc::Global;
use std::process::ExitCode;
use std::{env, io};

// Memory ran out, or reading or writing failed.
const FAILED: u8 = 1;

// The text is no description, or there is no such language.
const REFUSED: u8 = 2;

fn main(rt: HostRuntime) -> ExitCode {
    let Some(language) = named_language(&rt) else {
        let _ = eprintln!(rt; "usage: description_check v1|v2|v3|strftime");
        return ExitCode::from(REFUSED);
    };
    let Ok(text) = io::read_to_string(rt.alloc(), rt.stdin()) else {
        let _ = eprintln!(rt; "description_check: the input can't be read");
        return ExitCode::from(FAILED);
    };
    // A fault borrows from the text the words that it complains of.
    let (shown, status) = match read(rt.alloc(), language, text.as_str()) {
        Ok(parts) => (show_parts(&rt, &parts), 0),
        Err(DescriptionFault::Description(fault)) => {
            (show_fault(&rt, text.as_str(), fault), REFUSED)
        }
        Err(DescriptionFault::Memory) => {
            (eprintln!(rt; "description_check: out of memory"), FAILED)
        }
    };
    if shown.is_err() {
        let _ = eprintln!(rt; "description_check: writing failed");
        return ExitCode::from(FAILED);
    }
    ExitCode::from(status)
}

// The languages of descriptions.
#[derive(Clone, Copy)]
enum Language {
    Version(DescriptionVersion),
    Strftime,
}

// The one word on the command line.
fn named_language(rt: &HostRuntime) -> Option<Language> {
    let args: Vec<String> = env::args(rt).ok()?.collect(rt.alloc()).ok()?;
    match args.as_slice() {
        [_, word] => language_of(word.as_str()),
        _ => None,
    }
}

fn language_of(word: &str) -> Option<Language> {
    match word {
        "v1" => Some(Language::Version(DescriptionVersion::One)),
        "v2" => Some(Language::Version(DescriptionVersion::Two)),
        "v3" => Some(Language::Version(DescriptionVersion::Three)),
        "strftime" => Some(Language::Strftime),
        _ => None,
    }
}

// The parts that a text describes. `?` hands its fault on.
fn read(alloc: Global, language: Language, text: &str) -> Result<Parts, DescriptionFault<'_>> {
    let mut parts = Parts::default();
    match language {
        Language::Strftime => {
            let items = parse_strftime_borrowed(alloc, text)?;
            parts_of_items(items.as_slice(), &mut parts);
        }
        Language::Version(version) => {
            let description = parse_borrowed(alloc, version, text)?;
            parts_of_description(&description, &mut parts);
        }
    }
    Ok(parts)
}

fn parts_of_description(description: &Description<'_>, parts: &mut Parts) {
    match description {
        Description::Items(items) => parts_of_items(items, parts),
        Description::V3(description) => parts_of_node(description.inner(), parts),
    }
}

//! The formats by which the lines of a stream are tried.

use crate::candidate::Candidate;
use instants_formats::{Format, Lacking, formats};
use instants_words::SourceText;
use std::alloc::{AllocError, Global};

// The formats that a word names. Most texts of ISO 8601 say their offset.
static WELL_KNOWN: [(&str, SourceText<'static>, Lacking); 4] = [
    ("rfc3339", SourceText::Rfc3339, Lacking::Nothing),
    ("rfc2822", SourceText::Rfc2822, Lacking::Nothing),
    ("iso8601", SourceText::Iso8601, Lacking::Nothing),
    ("iso8601", SourceText::Iso8601, Lacking::Offset),
];

// The source that the name of a format means.
fn source_of(format: &Format) -> SourceText<'static> {
    if format.language == "strftime" {
        SourceText::Strftime(format.description)
    } else {
        SourceText::V3(format.description)
    }
}

// Adds a format, where its description has no fault.
fn push(
    alloc: Global,
    name: &'static str,
    source: SourceText<'static>,
    lacks: Lacking,
    all: &mut Vec<Candidate>,
) -> Result<(), AllocError> {
    if let Some(candidate) = Candidate::new(alloc, name, source, lacks)? {
        all.push(candidate).map_err(AllocError::from)?;
    }
    Ok(())
}

/// The formats that a word names, and all that have a name. None has found anything yet.
pub(crate) fn candidates(alloc: Global) -> Result<Vec<Candidate>, AllocError> {
    let mut all = Vec::new(alloc);
    for known in &WELL_KNOWN {
        push(alloc, known.0, known.1, known.2, &mut all)?;
    }
    for format in formats() {
        push(
            alloc,
            format.name,
            source_of(format),
            format.lacks,
            &mut all,
        )?;
    }
    Ok(all)
}

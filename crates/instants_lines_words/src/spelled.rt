//! Names of formats, spelled out.
ghost use Rattle.std.specs.Prelude.{◌≡◌, ◌++◌, map, OnOk};
ghost use Rattle.instants_formats.specs.Named.{named_format};
ghost use Rattle.instants_lines_words.specs.Spelled.{in_place, spelled_out, stays};

use crate::wrong_source::is_language;
use instants_formats::format_named;
use std::alloc::AllocError;

// Adds a word, or the language and the description of the format that it names.
fn push_word<'a>(word: &'a str, words: &mut Vec<&'a str>) -> Result<(), AllocError>
    ensures { OnOk result (map (λ word. word.now) words.new.items
        ≡ map (λ word. word.now) words.old.items ++ in_place (named_format word.now) word.now) }
{
    match format_named(word) {
        Some(format) => words.extend_from_slice(&[format.language, format.description]),
        None => words.extend_from_slice(&[word]),
    }
}

// Whether a word stays as it is: a description, or the name of a language.
fn stays(is_description: bool, word: &str) -> bool
    ensures { result ≡ stays is_description word.now }
{
    is_description || is_language(word)
}

/// Adds the words of sources, with the language and the description of each format in place of its name; the first word may be a
/// description. The call for the words after the first one is the last thing that a call does.
#[tactic(auto, using(crate::proofs::Sources::added), unfolding(crate::specs::Spelled::spelled_out))]
pub fn spell_out<'a>(
    is_description: bool,
    sources: &[&'a str],
    words: &mut Vec<&'a str>,
) -> Result<(), AllocError>
    ensures { OnOk result (map (λ word. word.now) words.new.items
        ≡ map (λ word. word.now) words.old.items
        ++ spelled_out is_description (map (λ word. word.now) sources.now)) }
{
    let Some((word, others)) = sources.split_first() else {
        return Ok(());
    };
    if stays(is_description, word) {
        words.extend_from_slice(&[*word])?;
        return spell_out(!is_description, others, words);
    }
    push_word(word, words)?;
    spell_out(is_description, others, words)
}

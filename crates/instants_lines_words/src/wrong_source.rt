//! The first source that is wrong.
ghost use Rattle.std.specs.Prelude.{◌≡◌, ◌<◌, ◌+◌, ◌^◌, true, IfSome, length, map, option_map, is_some};
ghost use Rattle.std.specs.Result.{result_err};
ghost use Rattle.instants_words.specs.Sources.{format_named, language_named};
ghost use Rattle.instants_lines_words.specs.Words.{source_named, sources_read};
ghost use Rattle.instants_lines_words.specs.Wrong.{wrong_of};

use crate::wrong_words::WrongWords;
use instants_formats::format_named;

// Whether this is the name of a well-known format.
fn is_format(name: &str) -> bool
    ensures { result ≡ is_some (format_named name.now) }
{
    name == "rfc2822" || name == "rfc3339" || name == "iso8601"
}

// Whether this is the name of a language.
pub fn is_language(name: &str) -> bool
    ensures { result ≡ is_some (language_named name.now) }
{
    name == "v1" || name == "v2" || name == "v3" || name == "strftime"
}

// Whether one word says a source.
fn is_named(word: &str) -> bool
    ensures { result ≡ is_some (source_named word.now) }
{
    is_format(word) || format_named(word).is_some_and(|format| is_language(format.language))
}

/// What is wrong first with the sources that words say, the first of them in this place; its description stands first where its
/// language is given. The call for the words after the first one is the last thing that a call does.
#[tactic(auto, using(crate::proofs::Sources::steps), unfolding(crate::specs::Words::sources_read))]
pub fn wrong_source<'a>(
    language: Option<&'a str>,
    place: usize,
    words: &[&'a str],
) -> Option<WrongWords<'a>>
    requires place { place + length words.now < 2 ^ 64 }
    requires language { IfSome language (λ name. is_some (language_named name.now) ≡ true) }
    ensures { option_map wrong_of result ≡ result_err
        (sources_read (option_map (λ word. word.now) language.entry) place (map (λ word. word.now) words.now)) }
{
    let Some((word, others)) = words.split_first() else {
        let language = language?;
        return Some(WrongWords::NoDescription { place, language });
    };
    if let Some(_) = language {
        return wrong_source(None, place + 1, others);
    }
    if is_language(word) {
        return wrong_source(Some(word), place, others);
    }
    if !is_named(word) {
        return Some(WrongWords::Source { place, word });
    }
    wrong_source(None, place + 1, others)
}

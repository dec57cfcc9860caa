//! Words that stand in one text, with a line feed between them, as in `+00:00\n-\n100\nrfc3339`.

ghost use Rattle.std.specs.Prelude.{◌≡◌, ◌≢◌, ◌<◌, ◌+◌, ◌^◌, ◌∷◌, length, option_map, Some, Err, IsOk, IfSome, IfNone};
ghost use Rattle.std.specs.Result.{result_err};
ghost use Rattle.instants_words.specs.FirstSource.{counted, source_said};
ghost use Rattle.instants_words.specs.Sources.{sources_said};
ghost use Rattle.instants_words.specs.TextWords.{words_in, words_left};
ghost use Rattle.instants_words.specs.Words.{words_said};

use crate::fault::WordsFault;
use crate::pieces;
use crate::sources::{described, format};

// The first word, and the words after it, if there are any.
fn first_word(text: &str) -> (&str, Option<&str>)
    ensures { words_in text.now ≡ result.0.now ∷ words_left result.1 }
{
    match text.split_once('\n') {
        Some((word, rest)) => (word, Some(rest)),
        None => (text, None),
    }
}

// The words after those that say the first source: one word of a format, or two of a language and a description.
fn after_source(text: &str) -> Option<Option<&str>>
    ensures { option_map words_left result ≡ option_map (λ said. said.1) (source_said (words_in text.now)) }
{
    let (name, rest) = first_word(text);
    if let Some(_) = format(name) {
        return Some(rest);
    }
    let (description, rest) = first_word(rest?);
    let _text = described(name, description)?;
    Some(rest)
}

// How many sources the words that are left say, with so many before them. The call for those after the first one is the last thing
// that a call does.
#[tactic(auto, using(crate::proofs::SourceLemmas::counts, crate::proofs::TextLemmas::left_words))]
fn count_in(left: Option<&str>, before: usize) -> Result<usize, WordsFault>
    requires { before + length (words_left left) < 2 ^ 64 }
    ensures count { result ≡ counted before (sources_said (before + 1) (words_left left.entry)) }
    ensures never_memory { result ≢ Err WordsFault.Memory }
{
    let Some(words) = left else {
        return Ok(before);
    };
    match after_source(words) {
        Some(rest) => count_in(rest, before + 1),
        None => Err(WordsFault::Source(before + 1)),
    }
}

// What is wrong first with four words or more, of which those from the fourth on stand in one text.
#[tactic(auto, using(crate::proofs::TextLemmas::fours))]
fn fault_in_words(target: &str, assumed: &str, limit: &str, sources: &str) -> Option<WordsFault>
    ensures fault { result ≡ result_err (words_said (target.now ∷ assumed.now ∷ limit.now ∷ words_in sources.now)) }
    ensures never_memory { result ≢ Some WordsFault.Memory }
{
    let Some(_) = pieces::offset(target.as_bytes()) else {
        return Some(WordsFault::Target);
    };
    let Some(_) = pieces::assumed(assumed) else {
        return Some(WordsFault::Assumed);
    };
    let Some(_) = pieces::limit(limit.as_bytes()) else {
        return Some(WordsFault::Limit);
    };
    count_in(Some(sources), 0).err()
}

/// What is wrong first with the words of a text, as `read_words` says it of these words: `None` where they are accepted.
///
/// It takes no memory, so wrong words are known to be wrong also where there is none for a list of them.
#[tactic(auto, unfolding(crate::specs::Words::words_said))]
pub fn fault_in_text(text: &str) -> Option<WordsFault>
    ensures some { IfSome result (λ fault. words_said (words_in text.now) ≡ Err fault) }
    ensures none { IfNone result (IsOk (words_said (words_in text.now))) }
    ensures never_memory { result ≢ Some WordsFault.Memory }
{
    let (target, after_target) = first_word(text);
    let Some(rest) = after_target else {
        return Some(WordsFault::Usage);
    };
    let (assumed, after_assumed) = first_word(rest);
    let Some(rest) = after_assumed else {
        return Some(WordsFault::Usage);
    };
    let (limit, after_limit) = first_word(rest);
    let Some(sources) = after_limit else {
        return Some(WordsFault::Usage);
    };
    fault_in_words(target, assumed, limit, sources)
}

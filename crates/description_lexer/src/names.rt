//! Names, and the brackets round them.

ghost use Rattle.std.specs.Prelude.{◌≡◌, ◌<◌, IsTrue};
ghost use Rattle.std.specs.Str.{IsCharBoundary};
ghost use Rattle.description_lexer.specs.Answer.{Answers};
ghost use Rattle.description_lexer.specs.Words.{is_named, begins, name_at, closed_at};
ghost use Rattle.description_lexer.specs.Views.{rest_of};

use crate::cutting::cut;
use crate::invalid_format_description::InvalidFormatDescription;
use crate::rest::Rest;
use crate::runs::{past_space, word};
use crate::version::DescriptionVersion;

/// Whether a word is this one; versions 1 and 2 ignore the case of ASCII letters.
pub fn is_named(version: DescriptionVersion, word: &str, name: &str) -> bool
    ensures value { result ≡ is_named version word.now name.now }
{
    match version {
        DescriptionVersion::One | DescriptionVersion::Two => word.eq_ignore_ascii_case(name),
        DescriptionVersion::Three => word == name,
    }
}

/// Whether a text begins with this byte.
pub fn begins(text: &str, byte: u8) -> bool
    ensures value { result ≡ begins byte text.now }
    ensures boundary { IsTrue result → byte < 128 → IsCharBoundary text.now 1 }
{
    match text.as_bytes() {
        [first, ..] => *first == byte,
        [] => false,
    }
}

/// The name after a bracket, with white space before it where it likes, and what follows the name.
#[tactic(auto, unfolding(crate::specs::Words::name_at))]
pub fn name_of<'a>(
    bracket: usize,
    here: Rest<'a>,
) -> Result<(Rest<'a>, Rest<'a>), InvalidFormatDescription<'a>>
    ensures value { Answers (λ x. (rest_of x.0, rest_of x.1)) result
        (name_at bracket (rest_of here.entry)) }
{
    let start = past_space(here);
    let (name, rest) = word(start);
    if name.text.is_empty() {
        if start.text.len() == here.text.len() {
            return Err(InvalidFormatDescription::MissingComponentName { index: bracket });
        }
        return Err(InvalidFormatDescription::MissingComponentName { index: here.index });
    }
    Ok((name, rest))
}

/// What follows the closing bracket, which must stand here.
#[tactic(auto, unfolding(crate::specs::Words::closed_at))]
pub fn closed<'a>(bracket: usize, here: Rest<'a>) -> Result<Rest<'a>, InvalidFormatDescription<'a>>
    ensures value { Answers rest_of result (closed_at bracket (rest_of here.entry)) }
{
    if begins(here.text, b']') {
        Ok(cut(here, 1).1)
    } else {
        Err(InvalidFormatDescription::UnclosedOpeningBracket { index: bracket })
    }
}

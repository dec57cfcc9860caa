//! Modifiers, a key and a value each.

ghost use Rattle.std.specs.Prelude.{◌≡◌};
ghost use Rattle.description_lexer.specs.Answer.{Answers, Gives};
ghost use Rattle.description_lexer.specs.Text.{is_space, past};
ghost use Rattle.description_lexer.specs.Words.{has_word, modifier_in, modifier_at, modifiers_at};
ghost use Rattle.description_lexer.specs.Views.{rest_of, modifier, modifiers};

use crate::cutting::cut;
use crate::description_fault::DescriptionFault;
use crate::invalid_format_description::InvalidFormatDescription;
use crate::rest::Rest;
use crate::runs::{is_word_byte, key_len, past_space, word};
use std::alloc::Global;

/// A modifier, cut at its first colon.
#[derive(Clone, Copy)]
pub struct Modifier<'a> {
    /// What stands before the colon.
    pub key: Rest<'a>,
    /// What stands after it.
    pub value: Rest<'a>,
}

// The key and the value of a word.
#[tactic(auto, unfolding(crate::specs::Words::modifier_in))]
fn modifier_in<'a>(word: Rest<'a>) -> Result<Modifier<'a>, InvalidFormatDescription<'a>>
    ensures { Answers modifier result (modifier_in (rest_of word.entry)) }
{
    let len = key_len(word.text);
    if len == word.text.len() {
        return Err(InvalidFormatDescription::InvalidModifier {
            value: word.text,
            index: word.index,
        });
    }
    if len == 0 {
        return Err(InvalidFormatDescription::InvalidModifier {
            value: "",
            index: word.index,
        });
    }
    if len + 1 == word.text.len() {
        return Err(InvalidFormatDescription::InvalidModifier {
            value: "",
            index: word.index + word.text.len(),
        });
    }
    let (key, rest) = cut(word, len);
    let (_, value) = cut(rest, 1);
    Ok(Modifier { key, value })
}

// Whether a word follows the white space.
fn has_word(here: Rest<'_>) -> bool
    ensures { result ≡ has_word (past is_space (rest_of here.entry)) }
{
    let start = past_space(here);
    match start.text.as_bytes() {
        [first, ..] => is_word_byte(*first),
        [] => false,
    }
}

// The modifier after the white space, and what follows it.
#[tactic(auto, unfolding(crate::specs::Words::modifier_at))]
fn modifier_of<'a>(here: Rest<'a>) -> Result<(Modifier<'a>, Rest<'a>), InvalidFormatDescription<'a>>
    ensures { Answers (λ x. (modifier x.0, rest_of x.1)) result (modifier_at (rest_of here.entry)) }
{
    let (prefix, rest) = word(past_space(here));
    let modifier = modifier_in(prefix)?;
    Ok((modifier, rest))
}

/// The modifiers that stand here, each with white space before it, and what follows them and the white
/// space after them.
#[tactic(auto, unfolding(crate::specs::Words::modifiers_at))]
pub fn modifiers_of<'a>(
    alloc: Global,
    here: Rest<'a>,
) -> Result<(Vec<Modifier<'a>>, Rest<'a>), DescriptionFault<'a>>
    ensures value { Gives (λ x. (modifiers x.0.items, rest_of x.1)) result
        (modifiers_at (rest_of here.entry)) }
{
    let mut all = Vec::new(alloc);
    let mut rest = here;
    while has_word(rest) {
        let (modifier, after) = modifier_of(rest)?;
        all.push(modifier)?;
        rest = after;
    }
    Ok((all, past_space(rest)))
}

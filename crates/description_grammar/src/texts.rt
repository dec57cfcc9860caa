//! Literals as they are spelled.

ghost use Rattle.std.specs.Prelude.{◌≡◌, ◌<◌, length};
ghost use Rattle.std.specs.Option.{option_map};
ghost use Rattle.description_lexer.specs.Answer.{Answers};
ghost use Rattle.description_lexer.specs.Views.{rest_of};
ghost use Rattle.description_grammar.specs.Reading.{doubled_at, text_at, is_end};

use description_lexer::{
    DescriptionVersion, InvalidFormatDescription, Rest, begins, cut, escape, literal,
};

/// The bracket that version 1 spells by two, and what follows them.
#[tactic(auto, unfolding(crate::specs::Reading::doubled_at))]
pub fn doubled<'a>(version: DescriptionVersion, here: Rest<'a>) -> Option<(&'a str, Rest<'a>)>
    ensures { option_map (λ x. (x.0.now, rest_of x.1)) result
        ≡ doubled_at version (rest_of here.entry) }
{
    if !version.is_one() || !begins(here.text, b'[') {
        return None;
    }
    let (_, rest) = cut(here, 1);
    if !begins(rest.text, b'[') {
        return None;
    }
    let (prefix, rest) = cut(rest, 1);
    Some((prefix.text, rest))
}

/// The literal or the escape at the start, and what follows it.
#[tactic(auto, unfolding(crate::specs::Reading::text_at))]
pub fn text<'a>(
    version: DescriptionVersion,
    here: Rest<'a>,
) -> Result<(&'a str, Rest<'a>), InvalidFormatDescription<'a>>
    requires { 0 < length here.text.now }
    ensures { Answers (λ x. (x.0.now, rest_of x.1)) result (text_at version (rest_of here.entry)) }
{
    if !version.is_one() && begins(here.text, b'\\') {
        return escape(here);
    }
    Ok(literal(version, here))
}

/// Whether a description ends here: at the end of the text, or inside another one at its bracket.
pub fn is_end(inner: bool, here: Rest<'_>) -> bool
    ensures { result ≡ is_end inner (rest_of here.entry) }
{
    here.text.is_empty() || (inner && begins(here.text, b']'))
}

//! Literals.

ghost use Rattle.std.specs.Prelude.{◌≡◌, ◌<◌, take, length};
ghost use Rattle.std.specs.Str.{IsCharBoundary};
ghost use Rattle.description_lexer.specs.Answer.{Answers};
ghost use Rattle.description_lexer.specs.Text.{after};
ghost use Rattle.description_lexer.specs.Words.{literal_len, escape_at};
ghost use Rattle.description_lexer.specs.Views.{rest_of};

use crate::cutting::cut;
use crate::invalid_format_description::InvalidFormatDescription;
use crate::names::begins;
use crate::rest::Rest;
use crate::runs::plain_len;
use crate::version::DescriptionVersion;

fn literal_run(version: DescriptionVersion, text: &[u8]) -> usize
    requires { 0 < length text.now }
    ensures { result ≡ literal_len version text.now }
{
    let (_, rest) = text.split_at(1);
    1 + plain_len(version, rest)
}

fn literal_len(version: DescriptionVersion, text: &str) -> usize
    requires { 0 < length text.now }
    ensures len { result ≡ literal_len version text.now }
    ensures boundary { IsCharBoundary text.now result }
{
    literal_run(version, text.as_bytes())
}

/// The literal that a text begins with, whatever its first byte is, and what follows it.
pub fn literal<'a>(version: DescriptionVersion, here: Rest<'a>) -> (&'a str, Rest<'a>)
    requires { 0 < length here.text.now }
    ensures bytes { result.0.now
        ≡ take (literal_len version here.entry.text.now) here.entry.text.now }
    ensures rest { rest_of result.1
        ≡ after (literal_len version here.entry.text.now) (rest_of here.entry) }
{
    let (prefix, rest) = cut(here, literal_len(version, here.text));
    (prefix.text, rest)
}

/// The bracket or backslash after a backslash, and what follows it.
#[tactic(auto, unfolding(crate::specs::Words::escape_at))]
pub fn escape<'a>(here: Rest<'a>) -> Result<(&'a str, Rest<'a>), InvalidFormatDescription<'a>>
    requires { IsCharBoundary here.text.now 1 }
    ensures value { Answers (λ x. (x.0.now, rest_of x.1)) result (escape_at (rest_of here.entry)) }
{
    let (_, rest) = cut(here, 1);
    if begins(rest.text, b'[') || begins(rest.text, b'\\') || begins(rest.text, b']') {
        let (prefix, rest) = cut(rest, 1);
        Ok((prefix.text, rest))
    } else {
        Err(InvalidFormatDescription::Expected {
            what: "valid escape sequence",
            index: here.index,
        })
    }
}

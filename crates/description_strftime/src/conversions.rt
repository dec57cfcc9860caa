//! Conversions, a percent sign and a letter each, and the literals between them.

ghost use Rattle.std.specs.Prelude.{◌≡◌, ◌<◌, true, IfOk, length};
ghost use Rattle.std.specs.List.{prefix_len};
ghost use Rattle.std.specs.Str.{IsCharBoundary};
ghost use Rattle.description_lexer.specs.Answer.{Answers};
ghost use Rattle.description_lexer.specs.Fault.{fault_of};
ghost use Rattle.description_lexer.specs.Views.{rest_of};
ghost use Rattle.description_strftime.specs.Letters.{refused};
ghost use Rattle.description_strftime.specs.Text.{is_plain, is_continuation};
ghost use Rattle.description_strftime.specs.Reading.{character_len, flag_at, past_flag, refusal, letter_at, conversion_at, plain_len, strftime_step};
ghost use Rattle.description_strftime.specs.Views.{items_spelled, is_of_text_part};

use crate::letters::{Spelled, flag_of, refused, spelled_by};
use description_items::BorrowedFormatItem;
use description_items::modifier::Padding;
use description_lexer::{InvalidFormatDescription, Rest, begins, cut};

fn continuation_len(text: &[u8]) -> usize
    ensures value { result ≡ prefix_len is_continuation text.now }
{
    text.iter()
        .take_while(|byte| **byte >= 128 && **byte < 192)
        .count()
}

fn plain_run(text: &[u8]) -> usize
    ensures value { result ≡ prefix_len is_plain text.now }
{
    text.iter().take_while(|byte| **byte != b'%').count()
}

// The length of the character at the start.
fn character_len(text: &str) -> usize
    requires { 0 < length text.now }
    ensures len { result ≡ character_len text.now }
    ensures boundary { IsCharBoundary text.now result }
{
    let (_, rest) = text.as_bytes().split_at(1);
    1 + continuation_len(rest)
}

// The length of the literal at the start.
fn plain_len(text: &str) -> usize
    ensures len { result ≡ plain_len text.now }
    ensures boundary { IsCharBoundary text.now result }
{
    plain_run(text.as_bytes())
}

// What is wrong with a character that stands for nothing.
fn refusal<'a>(first: u8, here: Rest<'a>) -> InvalidFormatDescription<'a>
    requires { 0 < length here.text.now }
    ensures value { fault_of result ≡ refusal (refused first) (rest_of here.entry) }
{
    let index = here.index;
    match refused(first) {
        Some(what) => InvalidFormatDescription::NotSupported {
            what,
            context: "strftime",
            index,
        },
        None => InvalidFormatDescription::InvalidComponentName {
            name: cut(here, character_len(here.text)).0.text,
            index,
        },
    }
}

// A letter after a percent sign and a flag, and what follows it.
#[tactic(auto, unfolding(crate::specs::Reading::letter_at))]
fn letter<'a>(
    start: usize,
    flag: Option<Padding>,
    here: Rest<'a>,
) -> Result<(Spelled<'a>, Rest<'a>), InvalidFormatDescription<'a>>
    ensures value { Answers (λ x. (items_spelled x.0, rest_of x.1)) result
        (letter_at start flag (rest_of here.entry)) }
    ensures form { IfOk result (λ x. is_of_text_part x.0 ≡ true) }
{
    let [first, ..] = here.text.as_bytes() else {
        return Err(InvalidFormatDescription::Expected {
            what: "component letter",
            index: start,
        });
    };
    let Some(spelled) = spelled_by(flag, *first) else {
        return Err(refusal(*first, here));
    };
    let (_, rest) = cut(here, 1);
    Ok((spelled, rest))
}

// The flag at the start, and what follows it.
fn flag(here: Rest<'_>) -> (Option<Padding>, Rest<'_>)
    ensures flag { result.0 ≡ flag_at here.entry.text.now }
    ensures rest { rest_of result.1 ≡ past_flag (flag_at here.entry.text.now) (rest_of here.entry) }
{
    if let [first, ..] = here.text.as_bytes()
        && let Some(padding) = flag_of(*first)
    {
        return (Some(padding), cut(here, 1).1);
    }
    (None, here)
}

// What stands after a percent sign, and what follows it.
#[tactic(auto, unfolding(crate::specs::Reading::conversion_at))]
fn conversion<'a>(
    start: usize,
    here: Rest<'a>,
) -> Result<(Spelled<'a>, Rest<'a>), InvalidFormatDescription<'a>>
    ensures value { Answers (λ x. (items_spelled x.0, rest_of x.1)) result
        (conversion_at start (rest_of here.entry)) }
    ensures form { IfOk result (λ x. is_of_text_part x.0 ≡ true) }
{
    let (flag, rest) = flag(here);
    letter(start, flag, rest)
}

/// The part of a text at its prefix, a conversion or a literal, and what follows it.
#[tactic(auto, unfolding(crate::specs::Reading::strftime_step))]
pub fn part<'a>(here: Rest<'a>) -> Result<(Spelled<'a>, Rest<'a>), InvalidFormatDescription<'a>>
    ensures value { Answers (λ x. (items_spelled x.0, rest_of x.1)) result
        (strftime_step (rest_of here.entry)) }
    ensures form { IfOk result (λ x. is_of_text_part x.0 ≡ true) }
{
    if begins(here.text, b'%') {
        let (_, rest) = cut(here, 1);
        return conversion(here.index, rest);
    }
    let (prefix, rest) = cut(here, plain_len(here.text));
    Ok((
        Spelled::Item(BorrowedFormatItem::StringLiteral(prefix.text)),
        rest,
    ))
}

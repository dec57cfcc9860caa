//! Comments, and the white space between them.
ghost use Rattle.base.specs.Bytes.{space};
ghost use Rattle.std.specs.Prelude.{[], ◌↔◌, IsSome, slice_index, true, ◌≡◌, ◌<◌, ◌≤◌, IfSome, Some, None, false, length, option_map};
ghost use Rattle.std.specs.List.{list_all};
ghost use Rattle.parsing_rfc2822.specs.Skips as Skips;
ghost use Rattle.parsing_rfc2822.specs.WhiteSpace as White;

use crate::bytes::{byte, past_all};
use crate::folding::folding_white_space;

// Whether a byte is text of a comment: neither white space nor a parenthesis or a backslash.
#[tactic(auto, unfolding(crate::specs::WhiteSpace::is_comment_text))]
#[inline(always)]
fn is_comment_text(byte: u8) -> bool
    ensures { result ≡ White.is_comment_text byte }
{
    matches!(byte, 1..=8 | 11..=12 | 14..=31 | 33..=39 | 42..=91 | 93..=127)
}

#[tactic(auto, unfolding(crate::specs::WhiteSpace::is_quotable))]
fn is_quotable(byte: u8) -> bool
    ensures { result ≡ White.is_quotable byte }
{
    matches!(byte, 1..=9 | 11..=12 | 14..=127)
}

// A byte of a comment's text.
#[tactic(auto, unfolding(crate::specs::Skips::byte_where))]
#[inline(always)]
fn text(bytes: &[u8]) -> Option<&[u8]>
    ensures { Skips.Passes (Skips.byte_where White.is_comment_text) bytes.now result }
{
    match bytes {
        [b, rest @ ..] if is_comment_text(*b) => Some(rest),
        _ => None,
    }
}

// Line feeds, then carriage returns, none of them due.
#[tactic(auto, unfolding(crate::specs::WhiteSpace::past_line_ends))]
fn past_line_ends(bytes: &[u8]) -> &[u8]
    ensures { Skips.IsRest (White.past_line_ends bytes.now) bytes.now result.now }
{
    past_all(b'\r', past_all(b'\n', bytes))
}

// A byte of obsolete text, and the line feeds and carriage returns after it.
#[tactic(auto, unfolding(crate::specs::WhiteSpace::obsolete_byte, crate::specs::WhiteSpace::is_obsolete_text, crate::specs::Skips::byte_where))]
fn obsolete_byte(bytes: &[u8]) -> Option<&[u8]>
    ensures { Skips.Passes White.obsolete_byte bytes.now result }
{
    match bytes {
        [b, rest @ ..] if *b != b')' && (*b == 0 || is_quotable(*b)) => Some(past_line_ends(rest)),
        _ => None,
    }
}

// The obsolete text after a backslash: it may be empty.
#[tactic(auto, using(crate::proofs::Many::many_step, crate::proofs::Many::many_end, crate::proofs::lemmas::Ends::obsolete_ends), unfolding(crate::specs::WhiteSpace::past_obsolete_text))]
fn past_obsolete_text(bytes: &[u8]) -> &[u8]
    ensures { Skips.IsRest (White.past_obsolete_text bytes.now) bytes.now result.now }
{
    let mut rest = past_line_ends(bytes);
    while let Some(after) = obsolete_byte(rest) {
        rest = after;
    }
    rest
}

// A backslash and what it quotes.
#[tactic(auto, unfolding(crate::specs::WhiteSpace::quoted_pair, crate::specs::WhiteSpace::past_quoted, crate::specs::Skips::byte_where))]
fn quoted_pair(bytes: &[u8]) -> Option<&[u8]>
    ensures { Skips.Passes White.quoted_pair bytes.now result }
{
    let rest = byte(b'\\', bytes)?;
    match rest {
        [b, after @ ..] if is_quotable(*b) => Some(after),
        _ => Some(past_obsolete_text(rest)),
    }
}

// A comment of at most so many levels.
#[cycle(comments)]
#[tactic(auto, using(crate::proofs::WhiteSpaceLemmas::comment_at, crate::proofs::WhiteSpaceLemmas::comment_none))]
fn comment(levels: u8, bytes: &[u8]) -> Option<&[u8]>
    ensures { Skips.Passes (White.comment levels) bytes.now result }
{
    if levels == 0 {
        return None;
    }
    let rest = byte(b'(', bytes)?;
    byte(b')', contents(levels - 1, rest))
}

// A piece of a comment: text, a quoted pair, or a comment in it.
#[cycle(comments)]
#[tactic(auto, using(crate::proofs::WhiteSpaceLemmas::text_alone), unfolding(crate::specs::WhiteSpace::content))]
fn content(levels: u8, bytes: &[u8]) -> Option<&[u8]>
    ensures { Skips.Passes (White.content levels) bytes.now result }
{
    if let Some(rest) = text(bytes) {
        return Some(rest);
    }
    if let Some(rest) = folding_white_space(bytes) {
        return Some(rest);
    }
    if let Some(rest) = quoted_pair(bytes) {
        return Some(rest);
    }
    comment(levels, bytes)
}

// What stands between the parentheses of a comment.
#[cycle(comments)]
#[tactic(auto, using(crate::proofs::Many::many_step, crate::proofs::Many::many_end, crate::proofs::lemmas::Ends::contents_ends))]
fn contents(levels: u8, bytes: &[u8]) -> &[u8]
    ensures { Skips.IsRest (Skips.many (White.content levels) bytes.now) bytes.now result.now }
{
    let mut rest = bytes;
    while let Some(after) = content(levels, rest) {
        rest = after;
    }
    rest
}

// Folding white space, or a comment.
#[tactic(auto, unfolding(crate::specs::WhiteSpace::white_or_comment))]
fn white_or_comment(bytes: &[u8]) -> Option<&[u8]>
    ensures { Skips.Passes White.white_or_comment bytes.now result }
{
    folding_white_space(bytes).or_else(|| comment(31, bytes))
}

/// Whether white space or a comment may begin the bytes: where it is `false`, none does.
#[tactic(auto, using(crate::proofs::WhiteSpaceLemmas::white_none_there, crate::proofs::WhiteSpaceLemmas::white_none_of_empty), unfolding(crate::specs::WhiteSpace::comments_and_white_space))]
#[inline(always)]
pub fn may_begin(bytes: &[u8]) -> bool
    ensures absent { result ≡ false → White.comments_and_white_space bytes.now ≡ None }
    ensures neither { result ≡ false → White.white_or_comment bytes.now ≡ None }
    ensures first { (result ≡ true)
        ↔ ((0 < length bytes.now) × (slice_index bytes.now 0 ≤ White.left_parenthesis)) }
{
    match bytes {
        [first, ..] => *first <= b'(',
        [] => false,
    }
}

/// What follows one space, where that is neither white space nor a comment: `None` says nothing.
#[tactic(auto, using(crate::proofs::WhiteSpaceLemmas::one_space_there, crate::proofs::WhiteSpaceLemmas::folding_space_there))]
#[inline(always)]
pub fn one_space(bytes: &[u8]) -> Option<&[u8]>
    ensures skips { IfSome result (λ r. White.comments_and_white_space bytes.now ≡ Some r.now) }
    ensures folds { IfSome result (λ r. White.folding_white_space bytes.now ≡ Some r.now) }
    ensures shorter { IfSome result (λ r. length r.now < length bytes.now) }
    ensures there { IsSome result
        ↔ ((slice_index bytes.now 0 ≡ space) × (White.left_parenthesis < slice_index bytes.now 1)) }
{
    match bytes {
        [first, next, ..] if *first == b' ' && *next > b'(' => Some(&bytes[1..]),
        _ => None,
    }
}

// Comments and white space, whatever they begin with.
#[cold]
#[tactic(auto, using(crate::proofs::Many::many_step, crate::proofs::Many::many_end, crate::proofs::lemmas::Ends::white_ends), unfolding(crate::specs::WhiteSpace::comments_and_white_space))]
fn any_comments_and_white_space(bytes: &[u8]) -> Option<&[u8]>
    ensures { Skips.Passes White.comments_and_white_space bytes.now result }
{
    let mut rest = white_or_comment(bytes)?;
    while let Some(after) = white_or_comment(rest) {
        rest = after;
    }
    Some(rest)
}

/// Comments and folding white space: at least one of them, as many as there are.
///
/// Comments nest to at most 31 levels. One that can't be read to its end is none, and what stands before it ends there.
#[inline(always)]
pub fn comments_and_white_space(bytes: &[u8]) -> Option<&[u8]>
    ensures skips { option_map (λ r. r.now) result ≡ White.comments_and_white_space bytes.now }
    ensures shorter { IfSome result (λ r. length r.now < length bytes.now) }
{
    if !may_begin(bytes) {
        return None;
    }
    if let Some(rest) = one_space(bytes) {
        return Some(rest);
    }
    any_comments_and_white_space(bytes)
}

// Whether bytes are text of a comment. (A loop of its own, as the calls of iterators would cost more than it.)
#[tactic(auto, using(std::proofs::lemmas::List::Folds::list_all_more))]
#[inline(always)]
fn is_plain(text: &[u8]) -> bool
    ensures { result ≡ true → list_all White.is_comment_text text.now ≡ true }
{
    for byte in text {
        if !is_comment_text(*byte) {
            return false;
        }
    }
    true
}

/// Whether all bytes are one space and one comment of plain text, as ` (UTC)`: `false` says nothing of them.
#[inline(always)]
pub fn is_plain_comment(bytes: &[u8]) -> bool
    ensures { result ≡ true → White.comments_and_white_space bytes.now ≡ Some [] }
{
    match bytes {
        [first, open, text @ .., close] if *first == b' ' && *open == b'(' && *close == b')' => {
            is_plain(text)
        }
        _ => false,
    }
}

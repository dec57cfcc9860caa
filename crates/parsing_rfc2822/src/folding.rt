//! Folding white space.
ghost use Rattle.std.specs.Prelude.{◌≡◌, ◌<◌, ◌≤◌, IfSome, length, option_map};
ghost use Rattle.parsing_rfc2822.specs.Skips as Skips;
ghost use Rattle.parsing_rfc2822.specs.WhiteSpace as White;

use crate::bytes::{blanks, byte};

// One byte of white space that does not go on.
#[tactic(auto, unfolding(crate::specs::WhiteSpace::lone_white, crate::specs::Skips::byte_where))]
#[inline(always)]
fn lone_white(bytes: &[u8]) -> Option<&[u8]>
    ensures { Skips.Passes White.lone_white bytes.now result }
{
    let [b, rest @ ..] = bytes else {
        return None;
    };
    if !matches!(*b, b'\r' | b' ' | b'\t') {
        return None;
    }
    match rest {
        [next, ..] if matches!(*next, b'\n' | b'\r' | b' ' | b'\t') => None,
        _ => Some(rest),
    }
}

// A carriage return and a line feed.
#[tactic(auto, unfolding(crate::specs::WhiteSpace::line_end))]
fn line_end(bytes: &[u8]) -> Option<&[u8]>
    ensures { Skips.Passes White.line_end bytes.now result }
{
    byte(b'\n', byte(b'\r', bytes)?)
}

// A line end, and blanks on the next line.
#[tactic(auto, unfolding(crate::specs::WhiteSpace::folded_line))]
fn folded_line(bytes: &[u8]) -> Option<&[u8]>
    ensures { Skips.Passes White.folded_line bytes.now result }
{
    blanks(line_end(bytes)?)
}

// All folded lines that are there.
#[tactic(auto, using(crate::proofs::Many::many_step, crate::proofs::Many::many_end, crate::proofs::lemmas::Ends::folded_ends))]
fn folded_lines(bytes: &[u8]) -> &[u8]
    ensures { Skips.IsRest (Skips.many White.folded_line bytes.now) bytes.now result.now }
{
    let mut rest = bytes;
    while let Some(after) = folded_line(rest) {
        rest = after;
    }
    rest
}

// Blanks and folded lines, where each line end after them is one of a folded line.
#[tactic(auto, unfolding(crate::specs::WhiteSpace::folded_blanks, crate::specs::WhiteSpace::unless_line_end))]
fn folded_blanks(bytes: &[u8]) -> Option<&[u8]>
    ensures { Skips.Passes White.folded_blanks bytes.now result }
{
    let rest = folded_lines(blanks(bytes)?);
    if line_end(rest).is_some() {
        return None;
    }
    Some(rest)
}

/// Folding white space: one byte, or blanks with line ends between them.
///
/// A carriage return alone counts as white space. Blanks before a line end that no blank follows are none.
#[tactic(auto, unfolding(crate::specs::WhiteSpace::folding_white_space))]
pub fn folding_white_space(bytes: &[u8]) -> Option<&[u8]>
    ensures skips { option_map (λ r. r.now) result ≡ White.folding_white_space bytes.now }
    ensures shorter { IfSome result (λ r. length r.now < length bytes.now) }
{
    lone_white(bytes)
        .or_else(|| folded_line(bytes))
        .or_else(|| folded_blanks(bytes))
}

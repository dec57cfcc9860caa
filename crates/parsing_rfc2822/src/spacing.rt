//! Colons, and the white space and comments that may stand between the parts of a text.
ghost use Rattle.std.specs.Prelude.{◌≡◌, option_map};
ghost use Rattle.parsing_rfc2822.specs.Skips as Skips;
ghost use Rattle.parsing_rfc2822.specs.WhiteSpace as White;
ghost use Rattle.parsing_rfc2822.specs.Reading as Reading;

use crate::comments_and_white_space;

/// What follows comments and white space, where there are any.
#[inline(always)]
pub fn past_spacing(bytes: &[u8]) -> &[u8]
    ensures { result.now ≡ Skips.optional White.comments_and_white_space bytes.now }
{
    comments_and_white_space(bytes).unwrap_or(bytes)
}

/// A colon, with comments and white space on both sides.
#[tactic(auto, unfolding(crate::specs::Reading::spaced_colon, crate::specs::Skips::byte_where))]
#[inline(always)]
pub(crate) fn spaced_colon(bytes: &[u8]) -> Option<&[u8]>
    ensures { option_map (λ r. r.now) result ≡ Reading.spaced_colon bytes.now }
{
    match past_spacing(bytes) {
        [b, rest @ ..] if *b == b':' => Some(past_spacing(rest)),
        _ => None,
    }
}

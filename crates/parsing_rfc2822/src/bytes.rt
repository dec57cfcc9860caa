//! Functions that pass bytes at the start, where they are there.
ghost use Rattle.std.specs.Prelude.{◌≡◌, ◌≤◌, ◌==◌, length};
ghost use Rattle.std.specs.List.{prefix_len};
ghost use Rattle.parsing_rfc2822.specs.Skips as Skips;
ghost use Rattle.parsing_rfc2822.specs.WhiteSpace as White;

/// The byte `wanted`.
#[tactic(auto, unfolding(crate::specs::Skips::byte_where))]
#[inline(always)]
pub(crate) fn byte(wanted: u8, bytes: &[u8]) -> Option<&[u8]>
    ensures { Skips.Passes (Skips.byte_where (λ c. c == wanted)) bytes.now result }
{
    match bytes {
        [b, rest @ ..] if *b == wanted => Some(rest),
        _ => None,
    }
}

// How many bytes `wanted` the bytes begin with.
#[inline(always)]
#[tactic(auto, using(crate::proofs::Many::count_within))]
fn leading(wanted: u8, bytes: &[u8]) -> usize
    ensures count { result ≡ prefix_len (λ c. c == wanted) bytes.now }
    ensures within { result ≤ length bytes.now }
{
    bytes.iter().take_while(|b| **b == wanted).count()
}

// How many spaces and tabs the bytes begin with.
#[inline(always)]
#[tactic(auto, using(crate::proofs::Many::count_within))]
fn leading_blanks(bytes: &[u8]) -> usize
    ensures count { result ≡ prefix_len White.is_blank bytes.now }
    ensures within { result ≤ length bytes.now }
{
    bytes
        .iter()
        .take_while(|b| **b == b' ' || **b == b'\t')
        .count()
}

/// All bytes `wanted` that are there.
#[tactic(auto, unfolding(crate::specs::Skips::past_all))]
#[inline(always)]
pub(crate) fn past_all(wanted: u8, bytes: &[u8]) -> &[u8]
    ensures { Skips.IsRest (Skips.past_all (λ c. c == wanted) bytes.now) bytes.now result.now }
{
    let (_, rest) = bytes.split_at(leading(wanted, bytes));
    rest
}

/// All spaces and tabs that are there, at least one.
#[tactic(auto, unfolding(crate::specs::Skips::past_some))]
#[inline(always)]
pub(crate) fn blanks(bytes: &[u8]) -> Option<&[u8]>
    ensures { Skips.Passes (Skips.past_some White.is_blank) bytes.now result }
{
    let n = leading_blanks(bytes);
    if n == 0 {
        return None;
    }
    let (_, rest) = bytes.split_at(n);
    Some(rest)
}

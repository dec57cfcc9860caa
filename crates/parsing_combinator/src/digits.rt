//! Runs of digits.
ghost use Rattle.std.specs.Prelude.{◌≡◌, ◌≤◌, ◌<◌, ◌^◌, IfSome, length};
ghost use Rattle.parsing_combinator.specs.Pieces as Pieces;
ghost use Rattle.parsing_combinator.specs.Shape as Shape;

use crate::cut::leading_digits;
use crate::fractions::{fraction, number};

/// `n` to `m` digits, as many as there are.
#[tactic(auto, using(crate::proofs::Longest::taken_digits, crate::proofs::Longest::taken_bound, crate::proofs::Decimal::count_prefix))]
pub fn digits_between(n: usize, m: usize, bytes: &[u8]) -> Option<(u32, &[u8])>
    requires ordered { n ≤ m }
    requires fits { m ≤ 9 }
    ensures taken { Pieces.cut_view result ≡ Shape.taken (Shape.digits_between n m) bytes.now }
    ensures bound { IfSome result (λ x. x.0 < 10 ^ m) }
{
    let count = leading_digits(bytes);
    if count < n {
        return None;
    }
    let (prefix, rest) = bytes.split_at(count.min(m));
    Some((number(prefix), rest))
}

// How many spaces the bytes begin with.
#[inline(always)]
#[tactic(auto, using(crate::proofs::SpaceLemmas::space_count_within))]
fn leading_spaces(bytes: &[u8]) -> usize
    ensures count { result ≡ Shape.space_count bytes.now }
    ensures within { result ≤ length bytes.now }
{
    bytes.iter().take_while(|b| **b == b' ').count()
}

/// Fewer than `n` spaces and then digits, `n` to `m` bytes in all.
#[tactic(auto, using(crate::proofs::SpaceLemmas::taken_spaced, crate::proofs::Longest::below_power))]
pub fn spaced_between(n: usize, m: usize, bytes: &[u8]) -> Option<(u32, &[u8])>
    requires ordered { n ≤ m }
    requires fits { m ≤ 9 }
    ensures taken { Pieces.cut_view result ≡ Shape.taken (Shape.spaced_between n m) bytes.now }
    ensures bound { IfSome result (λ x. x.0 < 10 ^ m) }
{
    let spaces = leading_spaces(bytes);
    if spaces >= n {
        return None;
    }
    let (_, rest) = bytes.split_at(spaces);
    digits_between(n - spaces, m - spaces, rest)
}

/// `n` to `m` digits, as many as there are, as a fraction of a second in nanoseconds.
#[tactic(auto, using(crate::proofs::Longest::taken_digits, crate::proofs::Decimal::count_prefix, crate::proofs::Longest::whole_fraction))]
pub fn fraction_between(n: usize, m: usize, bytes: &[u8]) -> Option<(u32, &[u8])>
    requires some { 1 ≤ n }
    requires ordered { n ≤ m }
    ensures taken { Pieces.cut_view result ≡ Shape.taken (Shape.fraction_between n m) bytes.now }
    ensures bound { IfSome result (λ x. x.0 < 1_000_000_000) }
{
    let count = leading_digits(bytes);
    if count < n {
        return None;
    }
    let (prefix, rest) = bytes.split_at(count.min(m));
    let (value, _) = fraction(prefix)?;
    Some((value, rest))
}

//! Padded numbers.
ghost use Rattle.std.specs.Prelude.{◌≡◌, ◌≤◌, ◌<◌, ◌^◌, IfSome};
ghost use Rattle.parsing_combinator.specs.Pieces as Pieces;
ghost use Rattle.parsing_combinator.specs.Shape as Shape;
ghost use Rattle.parsing_combinator.specs.Numbers as Numbers;

use crate::digits::{digits_between, spaced_between};
use crate::{four_digits, one_digit, two_digits};
use description_modifiers::Padding;

/// `n` to `m` digits with zeros, `n` to `m` bytes with spaces, 1 to `m` digits with neither.
#[tactic(auto, unfolding(crate::specs::Numbers::padded))]
pub fn padded(padding: Padding, n: usize, m: usize, bytes: &[u8]) -> Option<(u32, &[u8])>
    requires some { 1 ≤ n }
    requires ordered { n ≤ m }
    requires fits { m ≤ 9 }
    ensures taken { Pieces.cut_view result ≡ Shape.taken (Numbers.padded padding n m) bytes.now }
    ensures bound { IfSome result (λ x. x.0 < 10 ^ m) }
{
    match padding {
        Padding::Zero => digits_between(n, m, bytes),
        Padding::Space => spaced_between(n, m, bytes),
        Padding::None => digits_between(1, m, bytes),
    }
}

// One digit or two, as many as there are.
#[inline(always)]
#[tactic(auto, using(crate::proofs::Longest::taken_one_or_two))]
fn one_or_two_digits(bytes: &[u8]) -> Option<(u8, &[u8])>
    ensures taken { Pieces.cut_view result ≡ Shape.taken (Shape.digits_between 1 2) bytes.now }
    ensures bound { IfSome result (λ x. x.0 < 100) }
{
    two_digits(bytes).or_else(|| one_digit(bytes))
}

#[cold]
fn narrow(padding: Padding, bytes: &[u8]) -> Option<(u8, &[u8])>
    ensures taken { Pieces.cut_view result ≡ Shape.taken (Numbers.padded padding 2 2) bytes.now }
    ensures bound { IfSome result (λ x. x.0 < 100) }
{
    let (number, rest) = padded(padding, 2, 2, bytes)?;
    Some((number as u8, rest))
}

/// Two digits with zeros, two bytes with spaces, one or two digits with neither.
#[inline(always)]
#[tactic(auto, using(crate::proofs::Longest::taken_exactly), unfolding(crate::specs::Numbers::padded))]
pub fn padded_two(padding: Padding, bytes: &[u8]) -> Option<(u8, &[u8])>
    ensures taken { Pieces.cut_view result ≡ Shape.taken (Numbers.padded padding 2 2) bytes.now }
    ensures bound { IfSome result (λ x. x.0 < 100) }
{
    match padding {
        Padding::Zero => two_digits(bytes),
        Padding::None => one_or_two_digits(bytes),
        other => narrow(other, bytes),
    }
}

/// Four digits with zeros, four bytes with spaces, one to four digits with neither.
#[inline(always)]
#[tactic(auto, using(crate::proofs::Longest::taken_exactly), unfolding(crate::specs::Numbers::padded))]
pub fn padded_four(padding: Padding, bytes: &[u8]) -> Option<(u32, &[u8])>
    ensures taken { Pieces.cut_view result ≡ Shape.taken (Numbers.padded padding 4 4) bytes.now }
    ensures bound { IfSome result (λ x. x.0 < 10_000) }
{
    match padding {
        Padding::Zero => {
            let (number, rest) = four_digits(bytes)?;
            Some((u32::from(number), rest))
        }
        other => padded(other, 4, 4, bytes),
    }
}

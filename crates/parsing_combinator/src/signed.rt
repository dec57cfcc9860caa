//! Numbers after a sign: whether it is a minus, and the number.
ghost use Rattle.std.specs.Prelude.{◌≡◌, ◌≤◌, ◌<◌, ◌^◌, IfSome};
ghost use Rattle.parsing_combinator.specs.Pieces as Pieces;
ghost use Rattle.parsing_combinator.specs.Shape as Shape;
ghost use Rattle.parsing_combinator.specs.Numbers as Numbers;

use crate::padding::{padded, padded_four, padded_two};
use crate::sign;
use crate::wide::wide_digits;
use description_modifiers::Padding;

// What is read after a sign, and whether that is a minus, or else what is read where none is due.
macro_rules! by_sign {
    ($mandatory:expr, $bytes:expr, $rest:ident => $after:expr, $bare:expr) => {
        match sign($bytes) {
            Some((mark, $rest)) => {
                let (number, rest) = $after?;
                Some(((mark == b'-', number), rest))
            }
            None if $mandatory => None,
            None => {
                let (number, rest) = $bare?;
                Some(((false, number), rest))
            }
        }
    };
}

/// A year: four digits, and where it is extended up to six after a sign.
#[inline(always)]
#[tactic(auto, using(crate::proofs::SignLemmas::taken_signed_if, crate::proofs::Components::padded_none), unfolding(crate::specs::Numbers::year))]
pub fn year(
    padding: Padding,
    mandatory: bool,
    extended: bool,
    bytes: &[u8],
) -> Option<((bool, u32), &[u8])>
    ensures taken { Pieces.cut_view result
        ≡ Shape.taken (Numbers.year padding mandatory extended) bytes.now }
    ensures bound { IfSome result (λ x. x.0.1 < 1_000_000) }
{
    by_sign!(mandatory, bytes,
        rest => padded(padding, 4, if extended { 6 } else { 4 }, rest),
        padded_four(padding, bytes)
    )
}

/// A century: after a sign two digits, and where it is extended up to four; without one at most
/// two.
#[tactic(auto, using(crate::proofs::SignLemmas::taken_signed_if, crate::proofs::Components::padded_none), unfolding(crate::specs::Numbers::century))]
pub fn century(
    padding: Padding,
    mandatory: bool,
    extended: bool,
    bytes: &[u8],
) -> Option<((bool, u32), &[u8])>
    ensures taken { Pieces.cut_view result
        ≡ Shape.taken (Numbers.century padding mandatory extended) bytes.now }
    ensures bound { IfSome result (λ x. x.0.1 < 10_000) }
{
    by_sign!(mandatory, bytes,
        rest => padded(padding, 2, if extended { 4 } else { 2 }, rest),
        padded(padding, 1, 2, bytes)
    )
}

/// The hours of an offset, two digits wide, with a sign before them, or without one where it is not mandatory.
#[inline(always)]
#[tactic(auto, using(crate::proofs::SignLemmas::taken_signed_if, crate::proofs::Components::padded_none), unfolding(crate::specs::Numbers::offset_hour))]
pub fn offset_hour(padding: Padding, mandatory: bool, bytes: &[u8]) -> Option<((bool, u8), &[u8])>
    ensures taken { Pieces.cut_view result
        ≡ Shape.taken (Numbers.offset_hour padding mandatory) bytes.now }
    ensures bound { IfSome result (λ x. x.0.1 < 100) }
{
    by_sign!(mandatory, bytes, rest => padded_two(padding, rest), padded_two(padding, bytes))
}

/// A Unix timestamp of at most so many digits, with a sign before them, or without one where it is not mandatory.
#[tactic(auto, using(crate::proofs::SignLemmas::taken_signed_if, crate::proofs::SpaceLemmas::no_text), unfolding(crate::specs::Numbers::timestamp))]
pub fn timestamp(mandatory: bool, most: usize, bytes: &[u8]) -> Option<((bool, u128), &[u8])>
    requires some { 1 ≤ most }
    requires fits { most ≤ 23 }
    ensures taken { Pieces.cut_view result
        ≡ Shape.taken (Numbers.timestamp mandatory most) bytes.now }
    ensures bound { IfSome result (λ x. x.0.1 < 10 ^ most) }
{
    by_sign!(mandatory, bytes, rest => wide_digits(most, rest), wide_digits(most, bytes))
}

//! Long runs of digits.
ghost use Rattle.std.specs.Prelude.{◌≡◌, ◌≤◌, ◌<◌, ◌^◌, IfSome, length};
ghost use Rattle.std.specs.Str.Parse.{digits_value};
ghost use Rattle.parsing_combinator.specs.Pieces as Pieces;
ghost use Rattle.parsing_combinator.specs.Shape as Shape;

use crate::cut::leading_digits;

/// The number that at most 19 digits write.
#[inline(always)]
#[tactic(auto, using(crate::proofs::Numbers::next_digit))]
pub fn long_number(prefix: &[u8]) -> u64
    requires short { length prefix.now ≤ 19 }
    requires all { Pieces.digit_count prefix.now ≡ length prefix.now }
    ensures value { result ≡ digits_value 10 prefix.now }
    ensures bound { result < 10 ^ length prefix.now }
{
    let mut value = 0;
    for b in prefix {
        value = value * 10 + u64::from(*b - b'0');
    }
    value
}

// The number that at most 23 digits write.
#[inline(always)]
#[tactic(auto, using(crate::proofs::Numbers::next_digit))]
fn wide_number(prefix: &[u8]) -> u128
    requires short { length prefix.now ≤ 23 }
    requires all { Pieces.digit_count prefix.now ≡ length prefix.now }
    ensures value { result ≡ digits_value 10 prefix.now }
    ensures bound { result < 10 ^ length prefix.now }
{
    let mut value = 0;
    for b in prefix {
        value = value * 10 + u128::from(*b - b'0');
    }
    value
}

/// One to `m` digits, as many as there are.
#[tactic(auto, using(crate::proofs::Longest::taken_digits, crate::proofs::Longest::taken_bound, crate::proofs::Decimal::count_prefix))]
pub(crate) fn wide_digits(m: usize, bytes: &[u8]) -> Option<(u128, &[u8])>
    requires some { 1 ≤ m }
    requires fits { m ≤ 23 }
    ensures taken { Pieces.cut_view result ≡ Shape.taken (Shape.digits_between 1 m) bytes.now }
    ensures bound { IfSome result (λ x. x.0 < 10 ^ m) }
{
    let count = leading_digits(bytes);
    if count == 0 {
        return None;
    }
    let (prefix, rest) = bytes.split_at(count.min(m));
    Some((wide_number(prefix), rest))
}

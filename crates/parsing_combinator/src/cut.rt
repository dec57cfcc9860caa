//! Functions that cut a piece off the start of bytes, where they have such a prefix.
ghost use Rattle.std.specs.Prelude.{◌≡◌, ◌≤◌, ◌<◌, IfSome, length};
ghost use Rattle.parsing_combinator.specs.Pieces as Pieces;

/// Exactly two digits.
#[tactic(auto, using(crate::proofs::Fixed::digits_two, crate::proofs::Fixed::digits_two_there))]
#[inline(always)]
pub fn two_digits(bytes: &[u8]) -> Option<(u8, &[u8])>
    ensures cut { Pieces.cut_view result ≡ Pieces.digits 2 bytes.now }
    ensures bound { IfSome result (λ x. x.0 < 100) }
{
    match bytes {
        [a, b, rest @ ..] if a.is_ascii_digit() && b.is_ascii_digit() => {
            Some(((*a - b'0') * 10 + (*b - b'0'), rest))
        }
        _ => None,
    }
}

/// Exactly one digit.
#[tactic(auto, using(crate::proofs::Fixed::digits_one, crate::proofs::Fixed::digits_one_there))]
#[inline(always)]
pub fn one_digit(bytes: &[u8]) -> Option<(u8, &[u8])>
    ensures cut { Pieces.cut_view result ≡ Pieces.digits 1 bytes.now }
    ensures bound { IfSome result (λ x. x.0 < 10) }
{
    match bytes {
        [a, rest @ ..] if a.is_ascii_digit() => Some((*a - b'0', rest)),
        _ => None,
    }
}

/// Exactly three digits.
#[tactic(auto, using(crate::proofs::Fixed::digits_three))]
#[inline(always)]
pub fn three_digits(bytes: &[u8]) -> Option<(u16, &[u8])>
    ensures cut { Pieces.cut_view result ≡ Pieces.digits 3 bytes.now }
    ensures bound { IfSome result (λ x. x.0 < 1_000) }
{
    let (high, rest) = two_digits(bytes)?;
    let (low, rest) = one_digit(rest)?;
    Some((u16::from(high) * 10 + u16::from(low), rest))
}

/// Exactly four digits.
#[tactic(auto, using(crate::proofs::Fixed::digits_four))]
#[inline(always)]
pub fn four_digits(bytes: &[u8]) -> Option<(u16, &[u8])>
    ensures cut { Pieces.cut_view result ≡ Pieces.digits 4 bytes.now }
    ensures bound { IfSome result (λ x. x.0 < 10_000) }
{
    let (high, rest) = two_digits(bytes)?;
    let (low, rest) = two_digits(rest)?;
    Some((u16::from(high) * 100 + u16::from(low), rest))
}

/// Exactly six digits.
#[tactic(auto, using(crate::proofs::Fixed::digits_six))]
#[inline(always)]
pub fn six_digits(bytes: &[u8]) -> Option<(u32, &[u8])>
    ensures cut { Pieces.cut_view result ≡ Pieces.digits 6 bytes.now }
    ensures bound { IfSome result (λ x. x.0 < 1_000_000) }
{
    let (high, rest) = four_digits(bytes)?;
    let (low, rest) = two_digits(rest)?;
    Some((u32::from(high) * 100 + u32::from(low), rest))
}

/// What stands after the byte `wanted`.
#[tactic(auto, unfolding(crate::specs::Pieces::skip_of))]
#[inline(always)]
pub fn byte(wanted: u8, bytes: &[u8]) -> Option<&[u8]>
    ensures { Pieces.rest_view result ≡ Pieces.byte wanted bytes.now }
{
    match bytes {
        [b, rest @ ..] if *b == wanted => Some(rest),
        _ => None,
    }
}

/// What stands after any byte.
#[tactic(auto, unfolding(crate::specs::Pieces::skip_of))]
#[inline(always)]
pub fn any_byte(bytes: &[u8]) -> Option<&[u8]>
    ensures { Pieces.rest_view result ≡ Pieces.any_byte bytes.now }
{
    match bytes {
        [_, rest @ ..] => Some(rest),
        _ => None,
    }
}

/// A plus or a minus.
#[tactic(auto, unfolding(crate::specs::Pieces::byte_of))]
#[inline(always)]
pub fn sign(bytes: &[u8]) -> Option<(u8, &[u8])>
    ensures { Pieces.cut_view result ≡ Pieces.sign bytes.now }
{
    match bytes {
        [b, rest @ ..] if *b == b'+' || *b == b'-' => Some((*b, rest)),
        _ => None,
    }
}

// How many digits the bytes begin with.
#[inline(always)]
#[tactic(auto, using(crate::proofs::Decimal::digit_count_within))]
pub(crate) fn leading_digits(bytes: &[u8]) -> usize
    ensures count { result ≡ Pieces.digit_count bytes.now }
    ensures within { result ≤ length bytes.now }
{
    bytes.iter().take_while(|b| b.is_ascii_digit()).count()
}

/// All digits that are there, at least one.
#[inline(always)]
#[tactic(auto, using(crate::proofs::Decimal::count_prefix), unfolding(crate::specs::Pieces::digit_run))]
pub fn digit_run(bytes: &[u8]) -> Option<(&[u8], &[u8])>
    ensures cut { Pieces.run_view result ≡ Pieces.digit_run bytes.now }
    ensures all { IfSome result (λ x. Pieces.digit_count x.0.now ≡ length x.0.now) }
{
    let n = leading_digits(bytes);
    if n == 0 {
        return None;
    }
    Some(bytes.split_at(n))
}

//! Fractions of a second.
ghost use Rattle.std.specs.Prelude.{◌≡◌, ◌≤◌, ◌<◌, ◌^◌, IfSome, length};
ghost use Rattle.std.specs.Str.Parse.{digits_value};
ghost use Rattle.parsing_combinator.specs.Pieces as Pieces;

use crate::cut::digit_run;
use crate::wide::long_number;

/// The number that at most nine digits write.
#[inline(always)]
#[tactic(auto, using(crate::proofs::Numbers::nine_fit))]
pub fn number(prefix: &[u8]) -> u32
    requires short { length prefix.now ≤ 9 }
    requires all { Pieces.digit_count prefix.now ≡ length prefix.now }
    ensures value { result ≡ digits_value 10 prefix.now }
    ensures bound { result < 10 ^ length prefix.now }
{
    long_number(prefix) as u32
}

// The whole nanoseconds of a fraction with these digits.
#[inline(always)]
#[tactic(auto, using(crate::proofs::Decimal::count_prefix, crate::proofs::FractionDigits::nine_count, crate::proofs::FractionDigits::nine_value))]
fn nanoseconds(run: &[u8]) -> u32
    requires { Pieces.digit_count run.now ≡ length run.now }
    ensures value { result ≡ Pieces.nanoseconds_of run.now }
    ensures bound { result < 1_000_000_000 }
{
    let used = run.len().min(9);
    let mut digits = [b'0'; 9];
    digits[..used].copy_from_slice(&run[..used]);
    number(&digits)
}

/// The whole nanoseconds of a fraction of a second: all digits that are there, at least one.
///
/// Digits past the ninth are read and have no effect.
#[tactic(auto, unfolding(crate::specs::Pieces::fraction))]
pub fn fraction(bytes: &[u8]) -> Option<(u32, &[u8])>
    ensures cut { Pieces.cut_view result ≡ Pieces.fraction bytes.now }
    ensures bound { IfSome result (λ x. x.0 < 1_000_000_000) }
{
    let (run, rest) = digit_run(bytes)?;
    Some((nanoseconds(run), rest))
}

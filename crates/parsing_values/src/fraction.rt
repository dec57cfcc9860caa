//! Fractions of a second.
ghost use Rattle.std.specs.Prelude.{◌≡◌, ◌+◌, ◌-◌, ◌<◌, ◌≤◌, [], drop, length, replicate, take, None, Some, IfSome};
ghost use Rattle.base.specs.Bytes.{digit_zero};
ghost use Rattle.parsing_combinator.specs.Pieces as Pieces;
ghost use Rattle.std.specs.Str.Parse.{digits_value};
ghost use Rattle.parsing_values.specs.Decimal.{decimal};
ghost use Rattle.parsing_values.specs.Digits.{AreNineDigits, nine_digits};
ghost use Rattle.parsing_combinator.specs.Written.{WriteFraction};

use crate::before::digits_before;
use crate::digits::digit_pair;
use parsing_combinator::{digit_chunk, number, one_digit};
use std::marker::Model;

/// A fraction of a second, in whole nanoseconds.
///
/// It is kept as its nine digits, so that a fraction that is read and written is never a number.
#[derive(Clone, Copy)]
pub struct Fraction {
    // The first eight digits in ASCII, the first one in the lowest byte.
    first: u64,
    // The ninth, in eight bytes too: a move copies padding as well, so there is none.
    last: u64,
}

// Clauses see the nanoseconds.
impl Model for Fraction {
    ghost use Rattle.std.specs.Prelude.{ℕ, ◌+◌, ◌%◌, take};
    ghost use Rattle.std.specs.Int.{w64, from_le_bytes};
    ghost use Rattle.std.specs.Str.Parse.{digits_value};
    ghost use Rattle.base.specs.Bytes.{digit_zero};
    ghost use Rattle.parsing_values.specs.Decimal.{decimal};
    ghost use Rattle.parsing_values.specs.Digits.{nine_digits, AreNineDigits};
    ghost use Rattle.parsing_values.specs.DigitsBack.{first_back, last_back};

    ghost Value = { ℕ };

    ghost view = { λ f. digits_value 10 (nine_digits f.first f.last) };

    ghost invariant = { λ f. AreNineDigits f.first f.last };

    ghost inverse = { λ n. record {
      first = from_le_bytes w64 (take 8 (decimal 9 n));
      last = digit_zero + n % 10;
    } };

    ghost inverse_ok = { λ f h. Prim.rw (
      first_back f.first f.last h,
      last_back f.first f.last h,
    ) };
}

// A digit after so many: where they are fewer than eight, they are all that are there.
#[inline(always)]
fn ninth_digit(count: usize, rest: &[u8]) -> Option<(u8, &[u8])>
    requires { count < 8 → Pieces.digits 1 rest.now ≡ None }
    ensures cut { Pieces.cut_view result ≡ Pieces.digits 1 rest.now }
    ensures bound { IfSome result (λ x. x.0 < 10) }
    ensures eight { IfSome result (λ x. 8 ≤ count) }
{
    if count < 8 {
        return None;
    }
    one_digit(rest)
}

impl Fraction {
    /// The fraction of so many nanoseconds.
    #[inline(always)]
    pub fn new(nanosecond: u32) -> Fraction
        requires { nanosecond < 1_000_000_000 }
        ensures { result ≡ nanosecond }
    {
        let (first, second) = digit_pair(nanosecond / 10_000_000);
        let (third, fourth) = digit_pair(nanosecond / 100_000 % 100);
        let (fifth, sixth) = digit_pair(nanosecond / 1000 % 100);
        let (seventh, eighth) = digit_pair(nanosecond / 10 % 100);
        let eight = [first, second, third, fourth, fifth, sixth, seventh, eighth];
        let ninth = b'0' + (nanosecond % 10) as u8;
        Fraction {
            first: u64::from_le_bytes(eight),
            last: u64::from(ninth),
        }
    }

    /// The fraction of nine digits in ASCII: the first eight in one number, the first one lowest, and the ninth.
    #[inline(always)]
    pub fn of_nine(first: u64, last: u64) -> Fraction
        requires { AreNineDigits first last }
        ensures { result ≡ digits_value 10 (nine_digits first last) }
    {
        Fraction { first, last }
    }

    /// Its nanoseconds.
    #[inline(always)]
    #[tactic(auto, using(crate::proofs::lemmas::Decimals::decimal_count, crate::proofs::lemmas::Decimals::decimal_length, crate::proofs::lemmas::Decimals::decimal_value))]
    pub fn nanosecond(self) -> u32
        ensures value { result ≡ self }
        ensures bound { result < 1_000_000_000 }
    {
        number(&self.digits())
    }

    /// The fraction of the digits at the start, where they are at most nine, and what follows them: `None` says nothing.
    #[inline(always)]
    pub fn read(bytes: &[u8]) -> Option<(Fraction, &[u8])>
        ensures fraction { IfSome result (λ x. Pieces.fraction bytes.now ≡ Some (x.0, x.1.now)) }
        ensures bound { IfSome result (λ x. x.0 < 1_000_000_000) }
        ensures at_most_nine { IfSome result (λ x. length bytes.now ≤ length x.1.now + 9) }
    {
        let (first, count) = digit_chunk(bytes)?;
        let rest = &bytes[count..];
        let Some((last, after)) = ninth_digit(count, rest) else {
            return Some((Fraction { first, last: 0x30 }, rest));
        };
        if one_digit(after).is_some() {
            return None;
        }
        let last = u64::from(b'0' + last);
        Some((Fraction { first, last }, after))
    }

    /// The fraction that so many digits write, at most eight, which end at a place of a line: `None` says nothing.
    #[inline(always)]
    pub fn of_digits(line: &[u8], end: usize, count: usize) -> Option<Fraction>
        requires room { 8 ≤ end }
        requires within { end ≤ length line.now }
        requires some { 0 < count }
        requires few { count ≤ 8 }
        ensures writes { IfSome result (WriteFraction (drop (end - count) line.now) count) }
        ensures bound { IfSome result (λ f. f < 1_000_000_000) }
    {
        let first = digits_before(line, end, count)?;
        Some(Fraction { first, last: 0x30 })
    }

    /// The nine digits of its nanoseconds, in ASCII.
    #[inline(always)]
    #[tactic(auto, using(crate::proofs::DigitLemmas::kept, crate::specs::DigitsBack::last_back), unfolding(crate::specs::Digits::nine_digits))]
    pub fn digits(self) -> [u8; 9]
        ensures text { result ≡ decimal 9 self }
        ensures digits { Pieces.digits 9 result ≡ Some (self, []) }
        ensures bound { self < 1_000_000_000 }
    {
        let [a, b, c, d, e, f, g, h] = self.first.to_le_bytes();
        [a, b, c, d, e, f, g, h, self.last as u8]
    }

    /// The same, and seven zeros after them, as they lie in a vector.
    #[inline(always)]
    pub fn padded_digits(self) -> [u8; 16]
        ensures text { take 9 result ≡ decimal 9 self }
        ensures zeros { drop 9 result ≡ replicate 7 0 }
        ensures bound { self < 1_000_000_000 }
    {
        let [a, b, c, d, e, f, g, h] = self.first.to_le_bytes();
        let [i, j, k, l, m, n, o, p] = self.last.to_le_bytes();
        [a, b, c, d, e, f, g, h, i, j, k, l, m, n, o, p]
    }
}

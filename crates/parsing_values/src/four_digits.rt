//! Years of four digits.
ghost use Rattle.std.specs.Prelude.{◌≡◌, ◌+◌, ◌<◌, ◌≤◌, ◌↔◌, drop, Some, IsTrue};
ghost use Rattle.parsing_combinator.specs.Pieces as Pieces;
ghost use Rattle.parsing_combinator.specs.Places.{HasPair};
ghost use Rattle.parsing_values.specs.Decimal.{decimal};

use crate::digits::digit_pair;
use parsing_combinator::four_digits_at;
use std::marker::Model;
use std::simd::prelude::*;

/// A year of four digits: 0 to 9999.
///
/// It is kept as its digits, so that a year that is read and written is never a number.
#[derive(Clone, Copy)]
pub struct Year {
    // In ASCII, the first one in the lowest byte.
    digits: u32,
}

// Clauses see the number.
impl Model for Year {
    ghost use Rattle.std.specs.Prelude.{ℕ};
    ghost use Rattle.std.specs.Int.{w32, from_le_bytes};
    ghost use Rattle.std.specs.Str.Parse.{digits_value};
    ghost use Rattle.parsing_values.specs.Decimal.{decimal};
    ghost use Rattle.parsing_values.specs.Digits.{four_digits, AreFourDigits};
    ghost use Rattle.parsing_values.specs.DigitsBack.{year_back};

    ghost Value = { ℕ };

    ghost view = { λ y. digits_value 10 (four_digits y.digits) };

    ghost invariant = { λ y. AreFourDigits y.digits };

    ghost inverse = { λ n. record { digits = from_le_bytes w32 (decimal 4 n) } };

    ghost inverse_ok = { λ y h. Prim.rw (year_back y.digits h) };
}

impl Year {
    /// The year of a number.
    #[inline(always)]
    pub fn new(number: u16) -> Year
        requires { number ≤ 9999 }
        ensures { result ≡ number }
    {
        let number = u32::from(number);
        let (thousands, hundreds) = digit_pair(number / 100);
        let (tens, ones) = digit_pair(number % 100);
        Year {
            digits: u32::from_le_bytes([thousands, hundreds, tens, ones]),
        }
    }

    /// The year of the four digits at a place of a text.
    #[inline(always)]
    #[tactic(auto, using(crate::proofs::YearLemmas::are_there, crate::proofs::YearLemmas::read_there, crate::specs::DigitsBack::year_below))]
    pub fn of_digits(text: &[u8], place: usize) -> Year
        requires high { HasPair text.now place }
        requires low { HasPair text.now (place + 2) }
        ensures digits { Pieces.digits 4 (drop place text.now)
            ≡ Some (result, drop (place + 4) text.now) }
        ensures bound { result ≤ 9999 }
    {
        let digits = u8x4::from_slice(&text[place..]).to_array();
        Year {
            digits: u32::from_le_bytes(digits),
        }
    }

    /// Its number.
    #[inline(always)]
    #[tactic(auto, using(crate::proofs::YearLemmas::pair_in, crate::proofs::lemmas::Decimals::decimal_count))]
    pub fn number(self) -> u16
        ensures value { result ≡ self }
        ensures bound { result ≤ 9999 }
    {
        four_digits_at(&self.digits(), 0)
    }

    /// Whether it is before another year.
    #[inline(always)]
    pub fn is_before(self, other: Year) -> bool
        ensures { IsTrue result ↔ self < other }
    {
        u32::from_be_bytes(self.digits()) < u32::from_be_bytes(other.digits())
    }

    /// Its four digits, in ASCII.
    #[inline(always)]
    pub fn digits(self) -> [u8; 4]
        ensures digits { result ≡ decimal 4 self }
        ensures bound { self ≤ 9999 }
    {
        self.digits.to_le_bytes()
    }
}

//! Decimal digits of numbers.
ghost use Rattle.std.specs.Prelude.{◌≡◌, ◌+◌, ◌/◌, ◌%◌, ◌<◌};
ghost use Rattle.base.specs.Bytes.{digit_zero};

// The two digits of each number below 100.
static PAIRS: [u8; 200] =
    *b"0001020304050607080910111213141516171819202122232425262728293031323334353637383940414243444546474849\
    5051525354555657585960616263646566676869707172737475767778798081828384858687888990919293949596979899";

/// The tens and the ones of a number below 100, in ASCII.
#[inline(always)]
#[tactic(auto, using(crate::proofs::DigitPairs::tens_at, crate::proofs::DigitPairs::ones_at))]
pub fn digit_pair(number: u32) -> (u8, u8)
    requires { number < 100 }
    ensures tens { result.0 ≡ digit_zero + number / 10 }
    ensures ones { result.1 ≡ digit_zero + number % 10 }
{
    let at = number as usize * 2;
    (PAIRS[at], PAIRS[at + 1])
}

//! Decimal digits of fixed width, added to an answer.

ghost use Rattle.std.specs.Prelude.{◌≡◌, ◌+◌, ◌<◌, ◌≤◌, ◌++◌, codes, length};
ghost use Rattle.parsing_values.specs.Decimal.{decimal};

use crate::answer::Answer;
use parsing_values::digit_pair;

// Each month between hyphens, by its number: there is none before the first one.
static MONTHS: [u8; 52] = *b"-00--01--02--03--04--05--06--07--08--09--10--11--12-";

/// A number's two digits.
#[inline(always)]
#[tactic(auto, unfolding(parsing_values::specs::Decimal::decimal))]
pub(crate) fn two_digits(number: u32) -> [u8; 2]
    requires { number < 100 }
    ensures { result ≡ decimal 2 number }
{
    let (tens, ones) = digit_pair(number);
    [tens, ones]
}

// Puts a number's two digits after the answer.
#[inline(always)]
pub(crate) fn push_two(answer: &mut Answer, number: u32)
    requires room { length answer.old + 2 ≤ 64 }
    requires small { number < 100 }
    ensures digits { answer.new ≡ answer.old ++ decimal 2 number }
    ensures len { length answer.new ≡ length answer.old + 2 }
{
    answer.push_bytes(&two_digits(number));
}

/// A month between hyphens, by its number.
#[inline(always)]
pub(crate) fn month_text(month: u32) -> [u8; 4]
    requires { month ≤ 12 }
    ensures { result ≡ codes "-" ++ decimal 2 month ++ codes "-" }
{
    let at = month as usize * 4;
    [MONTHS[at], MONTHS[at + 1], MONTHS[at + 2], MONTHS[at + 3]]
}

// Puts a month between hyphens after the answer.
#[inline(always)]
pub(crate) fn push_month(answer: &mut Answer, month: u32)
    requires room { length answer.old + 4 ≤ 64 }
    requires month { month ≤ 12 }
    ensures text { answer.new ≡ answer.old ++ (codes "-" ++ decimal 2 month ++ codes "-") }
    ensures len { length answer.new ≡ length answer.old + 4 }
{
    answer.push_bytes(&month_text(month));
}

//! What lanes take of a whole text.
ghost use Rattle.std.specs.Prelude.{◌≡◌, ◌≤◌, ◌+◌, length, true};
ghost use Rattle.parsing_places.specs.Last.{HaveEnd, with_moves};
ghost use Rattle.parsing_places.specs.Windows.{Taken};

use crate::lanes::{LANES, Moves, are_at_most, joined, taken_by};
use crate::shape::Window;
use crate::windows::Windows;
use std::simd::prelude::*;

/// Whether a text lies within two windows over its start and one over its end; the digits that lanes take of the first two, and
/// what they take of the last one; and the digits of a fraction that other lanes take of that.
#[inline(always)]
pub fn digits_of_whole(
    windows: &Windows,
    last: &Window,
    fraction: &Moves,
    text: &[u8],
) -> (bool, u8x16, u8x16, u8x16)
    requires { windows.now.back_at + LANES ≤ length text.now }
    ensures front { result.0 ≡ true → Taken windows.now text.now result.1 }
    ensures last { result.0 ≡ true → HaveEnd last.now text.now (length text.now) result.2 }
    ensures fraction { result.0 ≡ true → HaveEnd (with_moves last.now fraction.now) text.now
        (length text.now) result.3 }
{
    let (first, first_taken) = windows.prefix.taken_at(text, 0);
    let (second, second_taken) = windows.back.taken_at(text, windows.back_at);
    let (third, third_taken) = last.taken_at(text, text.len() - LANES);
    let fits = are_at_most(
        first,
        u8x16::from_array(windows.prefix.high),
        second,
        u8x16::from_array(windows.back.high),
        third,
        u8x16::from_array(last.high),
    );
    let digits = joined(first_taken, second_taken);
    (fits, digits, third_taken, taken_by(fraction, third))
}

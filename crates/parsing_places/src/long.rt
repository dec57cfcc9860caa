//! Runs of digits of any length.
ghost use Rattle.std.specs.Prelude.{◌≡◌, ◌≤◌, ◌+◌, length, drop, true};
ghost use Rattle.parsing_combinator.specs.Pieces.{digit_count};

/// Whether all bytes from a place to another one are digits.
#[inline(always)]
pub fn are_digits(text: &[u8], from: usize, end: usize) -> bool
    requires within { end ≤ length text.now }
    requires some { from ≤ end }
    ensures { result ≡ true → end ≤ from + digit_count (drop from text.now) }
{
    for place in from..end {
        if !text[place].is_ascii_digit() {
            return false;
        }
    }
    true
}

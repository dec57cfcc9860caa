//! Functions that cut a piece off the start of a text, where it has such a prefix.
ghost use Rattle.std.specs.Prelude.{◌≡◌, ◌≤◌, IfSome, length, nat_le, Some, None, if◌then◌else◌};
ghost use Rattle.std.specs.Char.{is_ascii_digit, is_ascii_alphabetic};
ghost use Rattle.std.specs.List.{prefix_len};
ghost use Rattle.std.specs.Str.Parse.{digits_value};
ghost use Rattle.zones_rule.specs.Pieces as Pieces;
ghost use Rattle.zones_rule.specs.Grammar as Grammar;

// What stands after a byte that is due.
#[tactic(auto, unfolding(crate::specs::Pieces::byte))]
pub(crate) fn byte(wanted: u8, text: &[u8]) -> Option<&[u8]>
    ensures { Pieces.rest_view result ≡ Pieces.byte wanted text.now }
{
    match text {
        [first, rest @ ..] if *first == wanted => Some(rest),
        _ => None,
    }
}

// A run of so many bytes, where they are not too few.
fn split_run(count: usize, least: usize, text: &[u8]) -> Option<(&[u8], &[u8])>
    requires { count ≤ length text.now }
    ensures { Pieces.run_view result ≡ Pieces.run_of count least text.now }
{
    if count < least {
        return None;
    }
    Some(text.split_at(count))
}

// How many digits the text begins with.
#[tactic(auto, using(crate::proofs::NumberLemmas::run_within))]
fn digit_count(text: &[u8]) -> usize
    ensures count { result ≡ prefix_len is_ascii_digit text.now }
    ensures within { result ≤ length text.now }
{
    text.iter().take_while(|b| b.is_ascii_digit()).count()
}

// How many letters the text begins with.
#[tactic(auto, using(crate::proofs::NumberLemmas::run_within))]
fn letter_count(text: &[u8]) -> usize
    ensures count { result ≡ prefix_len is_ascii_alphabetic text.now }
    ensures within { result ≤ length text.now }
{
    text.iter().take_while(|b| b.is_ascii_alphabetic()).count()
}

// How many bytes that may stand between `<` and `>` the text begins with.
#[tactic(auto, using(crate::proofs::NumberLemmas::run_within))]
fn quoted_count(text: &[u8]) -> usize
    ensures count { result ≡ prefix_len Grammar.is_quoted_byte text.now }
    ensures within { result ≤ length text.now }
{
    text.iter()
        .take_while(|b| b.is_ascii_alphanumeric() || **b == b'+' || **b == b'-')
        .count()
}

// All digits, at least one.
#[tactic(auto, unfolding(crate::specs::Pieces::run), using(crate::proofs::NumberLemmas::all_digits))]
fn digits(text: &[u8]) -> Option<(&[u8], &[u8])>
    ensures cut { Pieces.run_view result ≡ Pieces.run is_ascii_digit 1 text.now }
    ensures all { IfSome result (λ p. prefix_len is_ascii_digit p.0.now ≡ length p.0.now) }
{
    split_run(digit_count(text), 1, text)
}

// All letters, at least three.
#[tactic(auto, unfolding(crate::specs::Pieces::run))]
pub(crate) fn letters(text: &[u8]) -> Option<(&[u8], &[u8])>
    ensures { Pieces.run_view result ≡ Pieces.run is_ascii_alphabetic 3 text.now }
{
    split_run(letter_count(text), 3, text)
}

// All bytes that may stand between `<` and `>`, at least three.
#[tactic(auto, unfolding(crate::specs::Pieces::run))]
pub(crate) fn quoted_bytes(text: &[u8]) -> Option<(&[u8], &[u8])>
    ensures { Pieces.run_view result ≡ Pieces.run Grammar.is_quoted_byte 3 text.now }
{
    split_run(quoted_count(text), 3, text)
}

#[tactic(auto, using(crate::proofs::NumberLemmas::next_digit))]
// The number that digits write, where it is not greater than another.
fn value_up_to(most: u16, digits: &[u8]) -> Option<u16>
    requires bound { most ≤ 999 }
    requires all { prefix_len is_ascii_digit digits.now ≡ length digits.now }
    ensures { result ≡ (if nat_le (digits_value 10 digits.now) most then Some (digits_value 10 digits.now) else None) }
{
    let mut value = 0;
    for digit in digits {
        value = value * 10 + u16::from(*digit - b'0');
        if value > most {
            return None;
        }
    }
    Some(value)
}

// A number in decimal digits, at least one, that is not less than one nor more than another.
#[tactic(auto, unfolding(crate::specs::Pieces::number))]
pub(crate) fn number(low: u16, high: u16, text: &[u8]) -> Option<(u16, &[u8])>
    requires { high ≤ 999 }
    ensures cut { Pieces.cut_view result ≡ Pieces.number low high text.now }
    ensures bound { IfSome result (λ p. (low ≤ p.0) × (p.0 ≤ high)) }
{
    let (digits, rest) = digits(text)?;
    let value = value_up_to(high, digits)?;
    if value < low {
        return None;
    }
    Some((value, rest))
}

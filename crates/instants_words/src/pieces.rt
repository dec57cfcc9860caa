//! What one word says.

ghost use Rattle.std.specs.Prelude.{◌≡◌, ◌≤◌, IfSome};
ghost use Rattle.std.specs.Int.{IsInRange};
ghost use Rattle.std.specs.Char.{is_ascii_digit};
ghost use Rattle.std.specs.List.{list_all};
ghost use Rattle.calendar.specs.UtcOffset.{IsClockOffset};
ghost use Rattle.instants_words.specs.Pieces.{clock_seconds, number_said, with_sign, offset_said, limit_said, assumed_said};

use calendar::UtcOffset;

const MOST_DIGITS: usize = 7;

const GREATEST_LIMIT: u32 = 1_048_576;

fn are_digits(word: &[u8]) -> bool
    ensures { result ≡ list_all is_ascii_digit word.now }
{
    word.iter().all(u8::is_ascii_digit)
}

/// A number from `least` to `greatest` that digits write, at most `most_digits` of them; no digits write 0.
#[tactic(auto, unfolding(crate::specs::Pieces::number_said))]
pub fn number(word: &[u8], least: u32, greatest: u32, most_digits: usize) -> Option<u32>
    requires { most_digits ≤ 7 }
    ensures value { result ≡ number_said least greatest most_digits word.now }
    ensures bound { IfSome result (IsInRange least greatest) }
{
    if word.len() > most_digits || !are_digits(word) {
        return None;
    }
    let mut number = 0;
    for digit in word {
        number = number * 10 + u32::from(digit - b'0');
    }
    if number < least || number > greatest {
        return None;
    }
    Some(number)
}

// An offset by its sign, its hours and its minutes.
fn clock_offset(sign: u8, hours: &[u8], minutes: &[u8]) -> Option<UtcOffset>
    ensures value { result
        ≡ with_sign sign
        (clock_seconds (number_said 0 23 2 hours.now) (number_said 0 59 2 minutes.now)) }
    ensures bound { IfSome result IsClockOffset }
{
    let hours = number(hours, 0, 23, 2)?;
    let minutes = number(minutes, 0, 59, 2)?;
    let seconds = (hours * 3600 + minutes * 60) as i32;
    match sign {
        b'+' => UtcOffset::from_whole_seconds(seconds).ok(),
        b'-' => UtcOffset::from_whole_seconds(-seconds).ok(),
        _ => None,
    }
}

/// An offset `+HH:MM` or `-HH:MM`.
#[tactic(auto, using(crate::proofs::WordLemmas::offset_said_six), unfolding(crate::specs::Pieces::offset_said))]
pub fn offset(word: &[u8]) -> Option<UtcOffset>
    ensures value { result ≡ offset_said word.now }
    ensures bound { IfSome result IsClockOffset }
{
    let [sign, h, i, b':', m, n] = word else {
        return None;
    };
    clock_offset(*sign, &[*h, *i], &[*m, *n])
}

/// A limit from 1 to 1048576, in one to seven digits.
pub fn limit(word: &[u8]) -> Option<usize>
    ensures value { result ≡ limit_said word.now }
    ensures bound { IfSome result (IsInRange 1 1_048_576) }
{
    let limit = number(word, 1, GREATEST_LIMIT, MOST_DIGITS)?;
    Some(limit as usize)
}

/// The offset that is assumed, or `-` for none.
pub fn assumed(word: &str) -> Option<Option<UtcOffset>>
    ensures value { result ≡ assumed_said word.now }
    ensures bound { IfSome result (λ assumed. IfSome assumed IsClockOffset) }
{
    if word == "-" {
        return Some(None);
    }
    let assumed = offset(word.as_bytes())?;
    Some(Some(assumed))
}

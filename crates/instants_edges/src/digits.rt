//! Numbers by their digits.
ghost use Rattle.std.specs.Prelude.{◌≡◌, ◌≤◌};
ghost use Rattle.instants_edges.specs.Beside as Beside;

use crate::bytes::first_bytes;

/// The number that the digits among the first five bytes write.
#[tactic(auto, using(std::proofs::lemmas::Grind::common_steps, crate::proofs::Numbers::next_digit))]
pub(crate) fn number(bytes: &[u8]) -> u32
    ensures value { result ≡ Beside.number bytes.now }
    ensures bound { result ≤ 1_000_000 }
{
    let word = first_bytes(bytes, 5);
    let mut number = 0;
    for byte in word {
        if byte.is_ascii_digit() {
            number = number * 10 + u32::from(*byte - b'0');
        }
    }
    number
}

//! Bytes at the start and at the end of a date.
ghost use Rattle.std.specs.Prelude.{◌≡◌, ◌≤◌, ◌-◌, length, take, drop};
ghost use Rattle.std.specs.Char.{is_ascii_digit};
ghost use Rattle.std.specs.List.{suffix_len};
ghost use Rattle.instants_edges.specs.Pieces as Pieces;

use crate::bytes::{byte_at, byte_before, letters_length};
use crate::text::is_fraction;

/// The length of the white space at the start.
#[tactic(auto, using(crate::proofs::Prefixes::prefix_count), unfolding(crate::specs::Pieces::blanks))]
pub fn blanks(bytes: &[u8]) -> usize
    ensures value { result ≡ Pieces.blanks bytes.now }
    ensures within { result ≤ length bytes.now }
{
    bytes
        .iter()
        .take_while(|byte| byte.is_ascii_whitespace())
        .count()
}

/// The length without the white space at the end.
#[tactic(auto, using(crate::proofs::Zones::trimmed_is))]
pub fn trimmed_length(bytes: &[u8]) -> usize
    ensures value { result ≡ Pieces.trimmed_length bytes.now }
    ensures within { result ≤ length bytes.now }
{
    bytes.trim_ascii_end().len()
}

/// The length of the word of letters at the start, with the space before it if there is one; 0 where no such word is.
#[tactic(auto, using(std::proofs::lemmas::List::take_rest, std::proofs::lemmas::Bool::Decides::nat_tests), unfolding(crate::specs::Pieces::zone_length))]
pub fn zone_length(bytes: &[u8]) -> usize
    ensures value { result ≡ Pieces.zone_length bytes.now }
    ensures within { result ≤ length bytes.now }
{
    if byte_at(bytes, 0) != b' ' {
        return letters_length(bytes);
    }
    let long = letters_length(&bytes[1..]);
    if long == 0 { 0 } else { long + 1 }
}

// How many digits end the bytes.
#[tactic(auto, using(crate::proofs::Prefixes::prefix_count))]
fn last_digits(bytes: &[u8]) -> usize
    ensures value { result ≡ suffix_len is_ascii_digit bytes.now }
    ensures within { result ≤ length bytes.now }
{
    bytes
        .iter()
        .rev()
        .take_while(|byte| byte.is_ascii_digit())
        .count()
}

/// Where a date that begins and ends at these places reaches to for sure: to a comma before its last digits, if they
/// are no fraction, and else to the end of its zone, which is given.
#[tactic(auto, using(std::proofs::lemmas::Grind::common_steps), unfolding(crate::specs::Pieces::reach))]
pub fn reach(line: &[u8], begins: usize, ends: usize, zone: usize) -> usize
    requires { ends ≤ length line.now }
    ensures { result ≡ Pieces.reach line.now begins ends zone }
{
    if ends <= begins {
        return zone;
    }
    let digits = last_digits(&line[begins..ends]);
    if digits + 1 >= ends - begins {
        return zone;
    }
    let comma = ends - digits - 1;
    if line[comma] == b','
        && byte_before(line, comma, 1).is_ascii_digit()
        && !is_fraction(&line[ends - digits..])
    {
        comma
    } else {
        zone
    }
}

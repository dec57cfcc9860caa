//! Bytes of a line by their places.
ghost use Rattle.std.specs.Prelude.{◌≡◌, ◌≤◌, ◌+◌, length, take, drop, get_or};
ghost use Rattle.std.specs.Char.{is_ascii_alphabetic, is_ascii_digit};
ghost use Rattle.std.specs.List.{prefix_len};
ghost use Rattle.instants_edges.specs.Edge as Edge;

/// The byte at a place, and 0 where the line has none.
#[inline(always)]
pub fn byte_at(line: &[u8], place: usize) -> u8
    ensures { result ≡ get_or line.now place 0 }
{
    match line.get(place) {
        Some(byte) => *byte,
        None => 0,
    }
}

/// The byte so far before a place, and 0 where the line has none.
#[inline(always)]
pub(crate) fn byte_before(line: &[u8], place: usize, far: usize) -> u8
    ensures { result ≡ Edge.byte_before line.now place far }
{
    if far <= place {
        byte_at(line, place - far)
    } else {
        0
    }
}

/// The byte after the one at a place, and 0 where the line has none.
#[inline(always)]
#[tactic(auto, using(std::proofs::lemmas::List::get_or_past))]
pub(crate) fn byte_after(line: &[u8], place: usize) -> u8
    ensures { result ≡ get_or line.now (place + 1) 0 }
{
    if place < line.len() {
        byte_at(line, place + 1)
    } else {
        0
    }
}

/// How many digits stand at the start.
#[inline(always)]
#[tactic(auto, using(crate::proofs::Prefixes::prefix_count))]
pub(crate) fn digits_length(bytes: &[u8]) -> usize
    ensures value { result ≡ prefix_len is_ascii_digit bytes.now }
    ensures within { result ≤ length bytes.now }
{
    bytes
        .iter()
        .take_while(|byte| byte.is_ascii_digit())
        .count()
}

/// How many letters stand at the start.
#[inline(always)]
#[tactic(auto, using(crate::proofs::Prefixes::prefix_count))]
pub(crate) fn letters_length(bytes: &[u8]) -> usize
    ensures value { result ≡ prefix_len is_ascii_alphabetic bytes.now }
    ensures within { result ≤ length bytes.now }
{
    bytes
        .iter()
        .take_while(|byte| byte.is_ascii_alphabetic())
        .count()
}

/// The bytes from a place on, and none past the end.
#[inline(always)]
#[tactic(auto, using(std::proofs::lemmas::List::take_rest, std::proofs::lemmas::List::drop_min))]
pub(crate) fn rest_from(bytes: &[u8], place: usize) -> &[u8]
    ensures { result.now ≡ drop place bytes.now }
{
    &bytes[place.min(bytes.len())..]
}

/// So many bytes, or all where there are fewer.
#[inline(always)]
#[tactic(auto, using(std::proofs::lemmas::List::take_min))]
pub(crate) fn first_bytes(bytes: &[u8], count: usize) -> &[u8]
    ensures { result.now ≡ take count bytes.now }
{
    &bytes[..count.min(bytes.len())]
}

//! The abbreviations that a zone's clock has, as `CET` and `CEST`.
ghost use Rattle.std.specs.Prelude.{◌≡◌, ◌≤◌, ◌<◌, ◌==◌, ℕ, List, false, not, bytes_eq, drop, get_or, length, vec_len};
ghost use Rattle.std.specs.List.{list_any, range_with_len, take_while};
ghost use Rattle.zones_clock.specs.Steps.{AreMarked, has_byte, is_name, name_place_at, name_place_after, name_in};

use crate::zone::Zone;

// The letters from a place on: none past the end.
fn letters_from(letters: &[u8], place: usize) -> &[u8]
    ensures { result.now ≡ drop place letters.now }
{
    &letters[place.min(letters.len())..]
}

// How many letters stand before the first byte 0.
fn count_letters(letters: &[u8]) -> usize
    ensures { result ≡ length (take_while (λ byte. not (byte == 0)) letters.now) }
{
    letters.iter().take_while(|byte| **byte != 0).count()
}

// The letters from a place up to the next byte 0.
fn name_in(letters: &[u8], place: usize) -> &[u8]
    ensures { result.now ≡ name_in letters.now place }
{
    let rest = letters_from(letters, place);
    &rest[..count_letters(rest)]
}

// Whether a word is the abbreviation of a place.
#[tactic(auto, using(crate::proofs::NameLemmas::any_more, crate::proofs::NameLemmas::any_none, crate::proofs::NameLemmas::name_other))]
fn is_name_in(letters: &[u8], word: &[u8]) -> bool
    requires { 0 < length word.now }
    ensures { result ≡ list_any (λ place. bytes_eq (name_in letters.now place) word.now)
        (range_with_len 0 (length letters.now)) }
{
    for place in 0..letters.len() {
        if letters[place] == word[0] && name_in(letters, place) == word {
            return true;
        }
    }
    false
}

/// Marks the bytes that letters have, each at its number.
#[tactic(auto, using(crate::proofs::NameLemmas::marked_more))]
pub(crate) fn mark_bytes(bytes: &mut [bool; 256], letters: &[u8])
    ensures { AreMarked bytes.old letters.now bytes.new }
{
    for letter in letters {
        bytes[usize::from(*letter)] = true;
    }
}

impl Zone {
    // The place of the abbreviation after so many steps.
    fn name_place_after(&self, count: usize) -> u16
        requires { count ≤ vec_len self.now.steps }
        ensures { result ≡ name_place_after self.now.first_name self.now.steps.items count }
    {
        if count == 0 {
            self.first_name
        } else {
            self.steps[count - 1].name
        }
    }

    /// The abbreviation that the clock has at a moment, given in seconds since 1970-01-01T00:00:00Z: empty where the zone has
    /// none.
    pub fn name_at(&self, moment: i64) -> &[u8]
        ensures { result.now ≡ name_in self.now.letters.items
            (name_place_at self.now.first_name self.now.steps.items moment) }
    {
        let place = self.name_place_after(self.count_begun(moment));
        name_in(&self.letters, usize::from(place))
    }

    /// Whether the letters have a byte: where they have not, no abbreviation begins with it, which settles `is_name` before a
    /// word is cut.
    #[inline(always)]
    #[tactic(auto, using(crate::proofs::NameLemmas::none_begins))]
    pub fn can_begin(&self, first: u8) -> bool
        ensures exact { result ≡ has_byte self.now.letters.items first }
        ensures none { result ≡ false → (word : List ℕ) → get_or word 0 first ≡ first → is_name self.now.letters.items word ≡ false }
    {
        self.bytes[usize::from(first)]
    }

    /// Whether a word is one of the zone's abbreviations, which have three bytes or more.
    #[tactic(auto, using(std::proofs::lemmas::Bool::Decides::nat_tests), unfolding(crate::specs::Steps::is_name))]
    pub fn is_name(&self, word: &[u8]) -> bool
        ensures { result ≡ is_name self.now.letters.items word.now }
    {
        word.len() >= 3 && is_name_in(&self.letters, word)
    }
}

//! The keys of sources, looked for sixteen places at a time.
ghost use Rattle.std.specs.Prelude.{◌≡◌, ◌<◌, ◌≤◌, ◌+◌, ℕ, length, map};
ghost use Rattle.instants_found.specs.Lanes.{AreAllOrNone};

use crate::key::Key;
use crate::lanes::{LANES, bits_of_byte, load};
use crate::source_key::key_of;
use crate::spread::Spread;
use instants_sources::Source;

/// How many bytes are looked at for the keys of sixteen places.
pub(crate) const REACH: usize = LANES + 4;

// A bit for each of the places that are looked at at once.
const ALL: u64 = 65_535;

/// The keys of sources, of which there are at most two, and a bit for each place where some date may have none of them.
#[derive(Clone, Copy)]
pub(crate) struct Keys {
    first: Key,
    second: Key,
    first_byte: Spread,
    second_byte: Spread,
    keyless: u64,
    ghost all_or_none: { AreAllOrNone keyless },
    ghost first_near: { first.place ≤ 4 },
    ghost second_near: { second.place ≤ 4 },
    ghost first_spread: { first_byte.byte ≡ first.byte },
    ghost second_spread: { second_byte.byte ≡ second.byte },
}

/// A line from where each of two keys stands for the place 0.
#[derive(Clone, Copy)]
pub(crate) struct KeyedLine<'l> {
    pub(crate) first: &'l [u8],
    pub(crate) second: &'l [u8],
}

impl Keys {
    ghost use Rattle.std.specs.Int.{bit_at};
    ghost use Rattle.instants_sources.specs.Grammar.{Grammar, grammar_of};
    ghost use Rattle.instants_found.specs.Keys.{AreKeys, IsKeyedBy, LacksKeys, NeedsKey, NeedsOne};

    // One key, twice.
    fn of_one(key: Key, keyless: u64) -> Keys
        requires near { key.place ≤ 4 }
        requires keyless { AreAllOrNone keyless }
        ensures { result.keyless ≡ keyless }
    {
        Keys {
            first: key,
            second: key,
            first_byte: Spread::of(key.byte),
            second_byte: Spread::of(key.byte),
            keyless,
        }
    }

    // Keys that tell nothing.
    fn of_none() -> Keys
        ensures { (grammar : Grammar) → NeedsOne result grammar }
    {
        Keys::of_one(Key { place: 0, byte: 0 }, ALL)
    }

    /// Whether some date may have none of them.
    pub(crate) fn are_few(&self) -> bool {
        self.keyless != 0
    }

    // With one key more: none where there is no room for it.
    fn with(self, key: Key) -> Keys
        requires { key.place ≤ 4 }
        ensures others { (grammar : Grammar) → NeedsOne self grammar → NeedsOne result grammar }
        ensures key { (grammar : Grammar) → NeedsKey key grammar → NeedsOne result grammar }
    {
        if key.is(self.first) || key.is(self.second) {
            return self;
        }
        if !self.first.is(self.second) {
            return Keys::of_none();
        }
        Keys {
            first: self.first,
            second: key,
            first_byte: self.first_byte,
            second_byte: Spread::of(key.byte),
            keyless: self.keyless,
        }
    }

    // With the key of one source more: none where that has none.
    fn with_source(self, source: &Source<'_>) -> Keys
        ensures others { (grammar : Grammar) → NeedsOne self grammar → NeedsOne result grammar }
        ensures source { NeedsOne result (grammar_of source.now) }
    {
        match key_of(source) {
            Some(key) => self.with(key),
            None => Keys::of_none(),
        }
    }

    // The key of the first source, if it has one.
    fn of_first(sources: &[Source<'_>]) -> Keys {
        let key = sources.first().and_then(key_of);
        match key {
            Some(key) => Keys::of_one(key, 0),
            None => Keys::of_none(),
        }
    }

    /// The keys of these sources.
    pub(crate) fn of(sources: &[Source<'_>]) -> Keys
        ensures { AreKeys (map grammar_of sources.now) result }
    {
        let mut keys = Keys::of_first(sources);
        for number in 0..sources.len() {
            keys = keys.with_source(&sources[number]);
        }
        keys
    }

    /// A line from where each key stands, which is found once for all its places.
    #[inline(always)]
    #[tactic(auto, using(std::proofs::lemmas::List::take_rest))]
    pub(crate) fn over<'l>(&self, line: &'l [u8]) -> KeyedLine<'l>
        requires { REACH ≤ length line.now }
        ensures { IsKeyedBy self.now line.now result }
    {
        KeyedLine {
            first: &line[self.first.place..],
            second: &line[self.second.place..],
        }
    }

    /// A bit for each of the 16 places from one on, which is 0 only where neither key stands after it and each date has one.
    #[inline(always)]
    pub(crate) fn bits(&self, _line: &[u8], keyed: &KeyedLine<'_>, at: usize) -> u64
        requires within { at + REACH ≤ length _line.now }
        requires keyed { IsKeyedBy self.now _line.now keyed.now }
        ensures { (k : ℕ) → k < LANES → bit_at result k ≡ 0 →
            LacksKeys self.now _line.now (at + k) }
    {
        let first = bits_of_byte(load(keyed.first, at), &self.first_byte);
        let second = bits_of_byte(load(keyed.second, at), &self.second_byte);
        first | second | self.keyless
    }
}

//! The answer to one line, in storage of fixed size.

ghost use Rattle.std.specs.Prelude.{◌≡◌, ◌+◌, ◌-◌, ◌≤◌, [], ◌∷◌, ◌++◌, length, take, drop, replicate};
ghost use Rattle.instants_answers.specs.Line.{HoldsLine};

use std::marker::Model;

/// The bytes of an answer, at most 64 of them.
#[derive(Clone, Copy, Debug, PartialEq, Eq)]
pub struct Answer {
    bytes: [u8; 64],
    len: usize,
}

// Clauses see the bytes. Those of the storage that are not in use are zero, so that equal answers
// are equal fields.
impl Model for Answer {
    ghost use Rattle.std.specs.Prelude.{ℕ, List, length, take};
    ghost use Rattle.instants_answers.specs.Padded.{IsPadded, padded, padded-take};

    ghost Value = { List ℕ };

    ghost view = { λ a. take a.len a.bytes };

    ghost invariant = { λ a. IsPadded a.len a.bytes };

    ghost inverse = { λ v. record { bytes = padded v; len = length v } };

    ghost use Rattle.std.proofs.Common.{ap₂};

    ghost inverse_ok = { λ a h. ap₂ (λ (b : List ℕ) (n : ℕ). record { bytes = b; len = n })
        (padded-take a.len a.bytes h).1 (padded-take a.len a.bytes h).0 };
}

impl Answer {
    /// No bytes yet.
    #[inline(always)]
    pub fn new() -> Self
        ensures { result ≡ [] }
    {
        Answer {
            bytes: [0; 64],
            len: 0,
        }
    }

    /// Takes all bytes away.
    #[inline(always)]
    pub fn clear(&mut self)
        ensures { self.new ≡ [] }
    {
        *self = Answer::new();
    }

    /// The bytes.
    #[inline(always)]
    pub fn as_bytes(&self) -> &[u8]
        ensures bytes { result.now ≡ self.now }
        ensures most { length self.now ≤ 64 }
    {
        &self.bytes[..self.len]
    }

    /// All 64 bytes of the storage, those of the answer first, and how many these are.
    #[inline(always)]
    pub fn padded(&self) -> (&[u8; 64], usize)
        ensures prefix { take result.1 result.0.now ≡ self.now }
        ensures len { result.1 ≡ length self.now }
    {
        (&self.bytes, self.len)
    }

    /// Adds a byte.
    #[inline(always)]
    pub fn push(&mut self, byte: u8)
        requires { length self.old + 1 ≤ 64 }
        ensures { self.new ≡ self.old ++ byte ∷ [] }
    {
        let len = self.len;
        self.bytes[len] = byte;
        self.len = len + 1;
    }

    /// Adds bytes.
    #[inline(always)]
    pub fn push_bytes(&mut self, bytes: &[u8])
        requires { length self.old + length bytes.now ≤ 64 }
        ensures { self.new ≡ self.old ++ bytes.now }
    {
        let end = self.len + bytes.len();
        self.bytes[self.len..end].copy_from_slice(bytes);
        self.len = end;
    }

    /// Writes the answer and a line feed at the start of a room of at least 64 bytes, and says how many bytes they are. What
    /// stood in the room is lost.
    #[inline(always)]
    pub fn fill_line(&self, room: &mut [u8]) -> usize
        requires room { 64 ≤ length room.old }
        requires short { length self.now ≤ 63 }
        ensures line { HoldsLine self.now result room.new }
        ensures size { length room.new ≡ length room.old }
    {
        let len = self.len;
        room[..64].copy_from_slice(&self.bytes);
        room[len] = b'\n';
        len + 1
    }

    // Adds the first of these bytes, of which the others are zero.
    #[inline(always)]
    pub(crate) fn push_prefix(&mut self, bytes: &[u8], count: usize)
        requires room { length self.old + length bytes.now ≤ 64 }
        requires few { count ≤ length bytes.now }
        requires zeros { drop count bytes.now ≡ replicate (length bytes.now - count) 0 }
        ensures { self.new ≡ self.old ++ take count bytes.now }
    {
        let len = self.len;
        self.bytes[len..len + bytes.len()].copy_from_slice(bytes);
        self.len = len + count;
    }
}

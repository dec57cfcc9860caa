//! A byte by which dates are looked for.
ghost use Rattle.std.specs.Prelude.{◌≡◌, true};

/// A byte that stands at one place of each date of a source, so many bytes after where the date begins.
#[derive(Clone, Copy)]
pub(crate) struct Key {
    pub(crate) place: usize,
    pub(crate) byte: u8,
}

impl Key {
    /// Whether both are the same.
    pub(crate) fn is(self, other: Key) -> bool
        ensures place { result ≡ true → self.place ≡ other.place }
        ensures byte { result ≡ true → self.byte ≡ other.byte }
    {
        self.place == other.place && self.byte == other.byte
    }
}

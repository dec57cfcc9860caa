//! What a description passes over.
ghost use Rattle.std.specs.Prelude.{◌≡◌, ◌<◌, IfSome};

/// A number of bytes that are passed over unread, at least one: `[ignore count:3]`. In version 3 they end where a
/// character of UTF-8 does.
#[derive(Clone, Copy, Debug, PartialEq, Eq)]
pub struct Ignore {
    /// The number of bytes.
    pub count: u16,
    pub ghost some: { 0 < count },
}

impl Ignore {
    ghost use Rattle.description_modifiers.specs.Ignored.{ignored};

    /// So many bytes, or `None` where that is 0.
    pub fn count(count: u16) -> Option<Ignore>
        ensures value { result ≡ ignored count }
        ensures some { IfSome result (λ made. 0 < made.count) }
    {
        if count == 0 {
            None
        } else {
            Some(Ignore { count })
        }
    }

    /// The same with so many bytes, or `None` where that is 0.
    pub fn with_count(self, count: u16) -> Option<Ignore>
        ensures value { result ≡ ignored count }
        ensures some { IfSome result (λ made. 0 < made.count) }
    {
        Ignore::count(count)
    }
}

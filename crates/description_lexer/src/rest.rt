//! What is left of a text.

ghost use Rattle.std.specs.Prelude.{◌+◌, ◌<◌, ◌^◌, length};

/// What is left of a text, or a part cut off it, and where it begins in the whole text.
#[derive(Clone, Copy)]
pub struct Rest<'a> {
    /// The bytes of the whole text before it.
    pub index: usize,
    /// Its text.
    pub text: &'a str,
    ghost fits: { index + length text.now < 2 ^ 64 },
}

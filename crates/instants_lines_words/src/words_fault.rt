//! Why nothing is asked.
ghost use Rattle.std.specs.Prelude.{◌≡◌};

use crate::wrong_words::WrongWords;
use std::alloc::AllocError;

/// Why the words ask for nothing.
#[derive(Clone, Copy, Debug, PartialEq, Eq)]
pub enum ModeWordsFault<'a> {
    /// They are wrong.
    Wrong(WrongWords<'a>),
    /// They are right, and there is no memory for a list of them.
    Memory,
}

impl<'a> From<WrongWords<'a>> for ModeWordsFault<'a> {
    ghost use Rattle.std.specs.Prelude.{◌≡◌};
    ghost use Rattle.instants_lines_words.specs.declared.words_fault.ModeWordsFault.TheVariants as fault;

    ghost from_gives = { λ wrong e. e ≡ fault.Wrong wrong };

    fn from(wrong: WrongWords<'a>) -> Self {
        ModeWordsFault::Wrong(wrong)
    }
}

impl From<AllocError> for ModeWordsFault<'_> {
    ghost use Rattle.std.specs.Prelude.{◌≡◌};
    ghost use Rattle.instants_lines_words.specs.declared.words_fault.ModeWordsFault.TheVariants as fault;

    ghost from_gives = { λ _ e. e ≡ fault.Memory };

    fn from(_fault: AllocError) -> Self {
        ModeWordsFault::Memory
    }
}

//! What is written for a line.
ghost use Rattle.std.specs.Prelude.{◌≡◌};
ghost use Rattle.instants_lines_words.specs.Modes.{mode_said};

/// What is written for a line.
#[derive(Clone, Copy, Debug, PartialEq, Eq)]
pub enum Mode {
    /// The line after the key of its date: the date-time at the target, and a tab.
    Key,
    /// The same, but a line without a date takes the key of the last line above that has one.
    Carry,
    /// The line with the date-time in place of its date.
    Replace,
    /// What the sources say of the line, each of which reads it as a whole: the number of the first that names a moment and
    /// its answer, and where none does each number with its fault.
    Explain,
    /// Where the date of the line begins and ends, by the number of which source, and its key; or why it is in doubt.
    Locate,
}

/// The mode of this name.
pub fn mode_named(word: &str) -> Option<Mode>
    ensures { result ≡ mode_said word.now }
{
    match word {
        "key" => Some(Mode::Key),
        "carry" => Some(Mode::Carry),
        "replace" => Some(Mode::Replace),
        "explain" => Some(Mode::Explain),
        "locate" => Some(Mode::Locate),
        _ => None,
    }
}

//! The options before the mode.

use crate::counting::Asked;

/// What the options say.
#[derive(Clone, Copy)]
pub struct Options {
    /// `-q`: no warnings.
    pub is_quiet: bool,
    /// `--count`: how many lines are dated, and from when to when, on standard error at the end.
    pub counts: bool,
}

impl Options {
    /// The options at the front of these words, up to `--`, and the words after them.
    pub fn read<'a>(words: &'a [&'a str]) -> (Options, &'a [&'a str]) {
        let mut options = Options {
            is_quiet: false,
            counts: false,
        };
        let mut rest = words;
        while let [first, others @ ..] = rest {
            match *first {
                "-q" => options.is_quiet = true,
                "--count" => options.counts = true,
                "--" => return (options, others),
                _ => break,
            }
            rest = others;
        }
        (options, rest)
    }

    /// What is to be asked of the keys of the lines that are written, where they have any.
    pub fn asked(&self, have_keys: bool) -> Asked {
        match (have_keys, self.counts, self.is_quiet) {
            (true, true, _) => Asked::Counts,
            (true, false, false) => Asked::WhetherDated,
            _ => Asked::Nothing,
        }
    }
}

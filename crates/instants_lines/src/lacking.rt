//! A source that can name no moment.
ghost use Rattle.std.specs.Prelude.{◌≡◌, Some};
ghost use Rattle.instants_lines.specs.ProgramText.{lack_word};

use instants_prefixes::Lack;
use std::fmt;

/// The first source that can name no moment, whatever a line has. `Display` gives the sentence after the program's name,
/// without a line feed.
#[derive(Clone, Copy, Debug, PartialEq, Eq)]
pub struct Lacking {
    /// Its place among the sources, counted from 1.
    pub place: usize,
    /// What it lacks, and nobody gives.
    pub lack: Lack,
}

// What a source lacks, as a word.
fn lack_word(lack: Lack) -> &'static str
    ensures { result.now ≡ lack_word lack }
{
    match lack {
        Lack::Year => "year",
        Lack::Day => "day",
        Lack::Time => "time of day",
        Lack::Offset => "offset",
    }
}

impl fmt::Display for Lacking {
    ghost use Rattle.std.specs.Prelude.{Some};
    ghost use Rattle.instants_lines.specs.ProgramText.{lacking_text};

    ghost output = { λ lacking. Some (lacking_text lacking) };

    fn fmt<W: fmt::Write>(&self, f: &mut fmt::Formatter<W>) -> fmt::Result {
        let (place, lack) = (self.place, lack_word(self.lack));
        write!(f, "source {place} names no moment: it has no {lack}")
    }
}

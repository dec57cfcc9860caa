//! What can be wrong with the words.
ghost use Rattle.std.specs.Prelude.{◌≡◌};
ghost use Rattle.instants_lines_words.specs.Wrong.{wrong_of};
ghost use Rattle.instants_lines_words.specs.WrongText.{no_such_source, said_of};

use crate::file_name::is_file_name;
use std::fmt;

/// The first thing that is wrong with the words. `Display` gives the sentence after the program's name, without a line feed.
#[derive(Clone, Copy, Debug, PartialEq, Eq)]
pub enum WrongWords<'a> {
    /// There are none.
    NoMode,
    /// The first is no mode.
    UnknownMode(&'a str),
    /// No source stands after the mode, the offsets and the limit.
    NoSource,
    /// The target is no offset.
    Target(&'a str),
    /// What is to be assumed is no offset, not `-`, and no zone.
    Assumed(&'a str),
    /// The limit is not a number from 1 to 1048576, in one to seven digits.
    Limit(&'a str),
    /// The zone has a name that no zone can have.
    Zone(&'a str),
    /// The word after `year` is not four digits.
    Year(&'a str),
    /// The word after `time` is not a time of day from 00:00 to 23:59.
    Time(&'a str),
    /// A field is named, and the mode finds no dates.
    Field(&'a str),
    /// The word after `column` is not a number from 1 to 1048576, in one to seven digits, or a field is named too, or the mode
    /// finds no dates.
    Column(&'a str),
    /// The word after `separator` is neither one byte that may stand between columns nor `tab`, or no column is asked for.
    Separator(&'a str),
    /// The word after `label` has a tab or a line feed, or the mode writes no label.
    Label(&'a str),
    /// The source in this place, counted from 1, is not known.
    Source { place: usize, word: &'a str },
    /// The first source is not known, and an offset or the limit is left out: the word may be one that is misspelt.
    FirstSource(&'a str),
    /// The source in this place, counted from 1, is a language, and the last word.
    NoDescription { place: usize, language: &'a str },
}

impl fmt::Display for WrongWords<'_> {
    ghost use Rattle.std.specs.Prelude.{Some};
    ghost use Rattle.instants_lines_words.specs.WrongText.{wrong_text};

    ghost output = { λ wrong. Some (wrong_text (wrong_of wrong)) };

    fn fmt<W: fmt::Write>(&self, f: &mut fmt::Formatter<W>) -> fmt::Result {
        let said = said(self);
        match self {
            WrongWords::NoMode | WrongWords::NoSource => f.write_str(said),
            WrongWords::UnknownMode(word)
            | WrongWords::Target(word)
            | WrongWords::Assumed(word)
            | WrongWords::Limit(word)
            | WrongWords::Zone(word)
            | WrongWords::Year(word)
            | WrongWords::Time(word)
            | WrongWords::Field(word)
            | WrongWords::Column(word)
            | WrongWords::Separator(word)
            | WrongWords::Label(word) => write!(f, "\"{word}\": {said}"),
            WrongWords::Source { place, word } => {
                write!(f, "source {place}: \"{word}\": {said}")
            }
            WrongWords::FirstSource(word) => write!(f, "source 1: \"{word}\": {said}"),
            WrongWords::NoDescription { place, language } => {
                write!(f, "source {place}: \"{language}\" {said}")
            }
        }
    }
}

// What is said of the word that is wrong, or of there being none.
fn said(wrong: &WrongWords<'_>) -> &'static str
    ensures { result.now ≡ said_of (wrong_of wrong.now) }
{
    match wrong {
        WrongWords::NoMode => {
            "usage: instants-lines MODE [TARGET [ASSUMED [LIMIT]]] [year N] [time HH:MM] \
             [field NAME | column N [separator S]] [label TEXT] SOURCE..."
        }
        WrongWords::UnknownMode(_) =>
            "no such mode; there are key, carry, replace, explain, locate",
        WrongWords::NoSource => {
            "no source is named; there are rfc3339, rfc2822, iso8601, v1, v2, v3, strftime, and the names of --help"
        }
        WrongWords::Target(_) => "no target offset; it must be +HH:MM, -HH:MM, Z or UTC",
        WrongWords::Assumed(_) => {
            "no assumed offset; it must be +HH:MM, -HH:MM, Z, UTC or -, or a zone, as +02:00 or Europe/Berlin"
        }
        WrongWords::Limit(_) => "no limit; it must be a number from 1 to 1048576",
        WrongWords::Zone(_) => {
            "no zone; modes key, carry, replace and locate take one by its name, as Europe/Berlin or :CET"
        }
        WrongWords::Year(_) => "no year; it must be four digits, as 2024",
        WrongWords::Time(_) => "no time of day; it must be HH:MM",
        WrongWords::Field(_) => "no field; modes key, carry, replace and locate take one",
        WrongWords::Column(_) => {
            "no column; modes key, carry, replace and locate take one from 1 to 1048576, \
             where no field is named"
        }
        WrongWords::Separator(_) => {
            "no separator; after a column it must be one byte and no quotation mark, or tab"
        }
        WrongWords::Label(_) => {
            "no label; modes key and carry take one, without tabs and line feeds"
        }
        WrongWords::Source { word, .. } => no_such_source(false, word),
        WrongWords::FirstSource(word) => no_such_source(true, word),
        WrongWords::NoDescription { .. } => "needs a description in the next argument",
    }
}

// What is said of a word that is no source; where it is the first one, it may be an offset that is misspelt.
fn no_such_source(is_first: bool, word: &str) -> &'static str
    ensures { result.now ≡ no_such_source is_first word.now }
{
    if is_file_name(word) {
        "no such source; files are read from standard input: instants-lines .. < FILE"
    } else if is_first {
        "no such source; there are rfc3339, rfc2822, iso8601, v1, v2, v3, strftime, and the names of --help; \
         an offset before the sources is +HH:MM, -HH:MM, Z or UTC"
    } else {
        "no such source; there are rfc3339, rfc2822, iso8601, v1, v2, v3, strftime, and the names of --help"
    }
}

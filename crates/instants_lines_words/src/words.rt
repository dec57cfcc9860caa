//! The words of the program, as those of `instants` after a mode.
ghost use Rattle.std.specs.Prelude.{◌≡◌, map, option_map, Ok, IfOk, IfErr};
ghost use Rattle.std.specs.Result.{result_err};
ghost use Rattle.instants_words.specs.Words.{words_said};
ghost use Rattle.instants_words.specs.declared.words.Words.{Words};
ghost use Rattle.instants_lines_words.specs.Asked.{asking_of};
ghost use Rattle.instants_lines_words.specs.Read.{IsRefusedAs};
ghost use Rattle.instants_lines_words.specs.Words.{first_wrong, mode_words_said, settings_said};
ghost use Rattle.instants_lines_words.specs.Wrong.{wrong_of};

use crate::asked::Asked;
use crate::asked_words::read_asked;
use crate::filled::{Parted, fill, part};
use crate::mode::mode_named;
use crate::words_fault::ModeWordsFault;
use crate::wrong_source::wrong_source;
use crate::wrong_words::WrongWords;
use instants_words::pieces;
use std::alloc::Global;

// What is wrong first with the target, the assumed offset and the limit.
fn wrong_setting<'a>(parted: &Parted<'a, '_>) -> Option<WrongWords<'a>>
    ensures { option_map wrong_of result ≡ result_err (settings_said
        parted.now.target.now parted.now.assumed.now parted.now.limit.now) }
{
    let Some(_) = pieces::offset(parted.target.as_bytes()) else {
        return Some(WrongWords::Target(parted.target));
    };
    let Some(_) = pieces::assumed(parted.assumed) else {
        return Some(WrongWords::Assumed(parted.assumed));
    };
    match pieces::limit(parted.limit.as_bytes()) {
        Some(_) => None,
        None => Some(WrongWords::Limit(parted.limit)),
    }
}

// What is wrong with the sources; where a word before them is left out, the first of them may be one that is misspelt.
fn first_wrong(is_whole: bool, wrong: WrongWords<'_>) -> WrongWords<'_>
    ensures { wrong_of result ≡ first_wrong is_whole (wrong_of wrong.entry) }
{
    match wrong {
        WrongWords::Source { place: 1, word } if !is_whole => WrongWords::FirstSource(word),
        other => other,
    }
}

/// What is asked, and the words of `instants` after the mode: those that are left out are filled in, and names of formats are
/// spelled out. Words that are wrong are refused before memory is taken.
#[tactic(auto, unfolding(crate::specs::Words::mode_words_said, crate::specs::Words::others_said))]
pub fn read_mode_words<'a>(
    alloc: Global,
    words: &[&'a str],
) -> Result<(Asked<'a>, Vec<&'a str>), ModeWordsFault<'a>>
    ensures ok { IfOk result (λ read. (said : Words)
        × (words_said (map (λ word. word.now) read.1.items) ≡ Ok said)
        × (mode_words_said (map (λ word. word.now) words.now) ≡ Ok (asking_of read.0, said))) }
    ensures err { IfErr result (IsRefusedAs (map (λ word. word.now) words.now)) }
{
    let Some((word, others)) = words.split_first() else {
        return Err(ModeWordsFault::Wrong(WrongWords::NoMode));
    };
    let Some(mode) = mode_named(word) else {
        return Err(ModeWordsFault::Wrong(WrongWords::UnknownMode(word)));
    };
    let parted = part(others);
    if parted.sources.is_empty() {
        return Err(ModeWordsFault::Wrong(WrongWords::NoSource));
    }
    if let Some(wrong) = wrong_setting(&parted) {
        return Err(ModeWordsFault::Wrong(wrong));
    }
    let asked = match read_asked(mode, &parted) {
        Ok(asked) => asked,
        Err(wrong) => return Err(ModeWordsFault::Wrong(wrong)),
    };
    if let Some(wrong) = wrong_source(None, 1, parted.sources) {
        return Err(ModeWordsFault::Wrong(first_wrong(parted.is_whole, wrong)));
    }
    match fill(alloc, &parted) {
        Ok(filled) => Ok((asked, filled)),
        Err(_) => Err(ModeWordsFault::Memory),
    }
}

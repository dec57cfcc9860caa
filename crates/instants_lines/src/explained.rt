//! What the sources say of a line, each of which reads it as a whole. A call for the sources after the first one is the last thing
//! that a call does.
ghost use Rattle.std.specs.Prelude.{◌≡◌, ◌<◌, ◌+◌, ◌^◌, [], ◌∷◌, ◌++◌, length, map, false, decimal, option_map};
ghost use Rattle.base.specs.Bytes.{tab};
ghost use Rattle.instants_prefixes.specs.DateSource.{grammar_in};
ghost use Rattle.instants_lines.specs.Showing.{setting_in};
ghost use Rattle.instants_lines.specs.Explained.{text_by, first_answer, parted, all_said, explained};
ghost use Rattle.instants_lines.specs.Wrote.{Wrote};

use crate::date_sources::DateSources;
use crate::decimals::numbered;
use crate::parts::{write_both, write_three};
use instants_answers::Answer;
use instants_prefixes::DateSource;
use instants_stream::{ByteWriter, DeviceFailed};
use instants_timeline::answer_by;

// What stands before a number.
fn before(number: usize) -> &'static [u8]
    ensures { result.now ≡ parted number }
{
    if number == 1 { b"" } else { b"\t" }
}

// The answer of a source to a line, or its fault.
#[tactic(auto, unfolding(crate::specs::Explained::text_by))]
fn text_by(dates: &DateSources<'_>, source: &DateSource<'_>, line: &[u8]) -> Answer
    ensures { result ≡ text_by (setting_in dates.now) line.now (grammar_in source.now) }
{
    match answer_by(source.source(), line, dates.assumed, dates.target) {
        Ok(answer) => answer,
        Err(fault) => fault,
    }
}

// The answer of the first source that names a moment, and its number; the sources are numbered from here on.
#[tactic(auto, unfolding(crate::specs::Explained::text_by, crate::specs::Explained::said_by, crate::specs::Explained::first_answer))]
fn first_answer(
    dates: &DateSources<'_>,
    sources: &[DateSource<'_>],
    number: usize,
    line: &[u8],
) -> Option<(usize, Answer)>
    requires { number + length sources.now < 2 ^ 64 }
    ensures { option_map (λ x. (decimal x.0 ++ tab ∷ []) ++ x.1) result ≡ first_answer
        (setting_in dates.now) line.now number (map grammar_in sources.now) }
{
    let (source, others) = sources.split_first()?;
    match answer_by(source.source(), line, dates.assumed, dates.target) {
        Ok(answer) => Some((number, answer)),
        Err(_) => first_answer(dates, others, number + 1, line),
    }
}

// Writes what all sources say, one after another; they are numbered from here on.
#[tactic(auto, using(crate::proofs::Turns::in_turn), unfolding(crate::specs::Explained::said_by, crate::specs::Explained::all_said))]
fn write_all_said<W: ByteWriter>(
    dates: &DateSources<'_>,
    sources: &[DateSource<'_>],
    number: usize,
    line: &[u8],
    writer: &mut W,
) -> Result<(), DeviceFailed>
    requires works { W.failed writer.old ≡ false }
    requires few { number + length sources.now < 2 ^ 64 }
    ensures { Wrote W.ByteWriter writer.old writer.new result
        (all_said (setting_in dates.now) line.now number (map grammar_in sources.now)) }
{
    let Some((source, others)) = sources.split_first() else {
        return Ok(());
    };
    let text = text_by(dates, source, line);
    let said = numbered(number);
    write_three(writer, before(number), said.as_bytes(), text.as_bytes())?;
    write_all_said(dates, others, number + 1, line, writer)
}

/// Writes what the sources say of a line.
#[tactic(auto, unfolding(crate::specs::Explained::explained))]
pub(crate) fn write_explained<W: ByteWriter>(
    dates: &DateSources<'_>,
    line: &[u8],
    writer: &mut W,
) -> Result<(), DeviceFailed>
    requires { W.failed writer.old ≡ false }
    ensures { Wrote W.ByteWriter writer.old writer.new result
        (explained (setting_in dates.now) line.now) }
{
    let sources = dates.finder.sources();
    if let Some((number, answer)) = first_answer(dates, sources, 1, line) {
        return write_both(writer, numbered(number).as_bytes(), answer.as_bytes());
    }
    write_all_said(dates, sources, 1, line, writer)
}

//! Where the date of a line is, and by which source, or why it is in doubt.
ghost use Rattle.std.specs.Prelude.{◌≡◌, ◌<◌, ◌≤◌, ◌+◌, ◌^◌, ◌++◌, length, map, false, IfSome};
ghost use Rattle.instants_prefixes.specs.DateSource.{grammar_in};
ghost use Rattle.instants_found.specs.Doubts.{doubt_of};
ghost use Rattle.instants_found.specs.Found.{looked_at};
ghost use Rattle.instants_found.specs.Within.{IsWithin};
ghost use Rattle.instants_lines.specs.Showing.{search_in, setting_in};
ghost use Rattle.instants_lines.specs.Located.{again, doubt_text, doubts_from, escaped_text, finding_text, part_text, read_text, reason};
ghost use Rattle.instants_lines_words.specs.Part.{part_of};
ghost use Rattle.instants_lines.specs.Wrote.{Wrote};

use crate::date_sources::DateSources;
use crate::decimals::push_decimal;
use crate::line_part::has_escape;
use crate::parts::{write_both, write_three};
use instants_answers::Answer;
use instants_fields::Member;
use instants_found::{Doubt, Finding, Found};
use instants_lines_words::LinePart;
use instants_prefixes::{DateSource, Given};
use instants_stream::{ByteWriter, DeviceFailed};
use instants_timeline::answer_named;

// What a source of this number has read: its number, counted from 1, and the first byte and the last, counted from 1.
#[tactic(auto, using(crate::proofs::Digits::decimal_steps))]
fn read_text(number: usize, start: usize, end: usize) -> Answer
    requires number { number + 1 < 2 ^ 64 }
    requires start { start + 1 < 2 ^ 64 }
    ensures { result ≡ read_text number start end }
{
    let mut answer = Answer::new();
    answer.push(b'\t');
    push_decimal(&mut answer, number + 1);
    answer.push(b'\t');
    push_decimal(&mut answer, start + 1);
    answer.push(b'-');
    push_decimal(&mut answer, end);
    answer
}

// Why a date does not stand whole.
fn reason(doubt: Doubt) -> &'static [u8]
    ensures { result.now ≡ reason doubt }
{
    match doubt {
        Doubt::After => b"goes on",
        Doubt::ClockBefore => b"clock in front",
        Doubt::Skipped => b"skipped by the clock",
        Doubt::Repeated => b"twice by the clock",
        Doubt::AnotherOffset => b"another offset",
        Doubt::AnotherTime => b"another time",
        Doubt::AnotherYear => b"another year",
    }
}

// Writes what a source has read at a place that is in doubt, and why.
fn write_doubt<W: ByteWriter>(
    dates: &DateSources<'_>,
    given: &Given,
    at: usize,
    text: &[u8],
    place: usize,
    number: usize,
    writer: &mut W,
) -> Result<(), DeviceFailed>
    requires works { W.failed writer.old ≡ false }
    requires number { number + 1 < 2 ^ 64 }
    requires place { place < length (looked_at (search_in dates.now given.now).limit text.now) }
    requires room { at + length text.now + 1 < 2 ^ 64 }
    ensures { Wrote W.ByteWriter writer.old writer.new result
        (doubt_text at number (doubt_of (search_in dates.now given.now).limit given.now
        (search_in dates.now given.now).setting.sources text.now place number)) }
{
    match dates.finder.doubt_of(given, text, place, number) {
        Some(one) => {
            let read = read_text(number, at + one.start, at + one.end);
            write_three(writer, read.as_bytes(), b"\t", reason(one.doubt))
        }
        None => Ok(()),
    }
}

// Writes the same of each of these sources, which are numbered from here on. The call for those after the first one is the last
// thing that a call does.
#[tactic(auto, using(crate::proofs::Turns::in_turn), unfolding(crate::specs::Located::doubts_from))]
fn write_doubts<W: ByteWriter>(
    dates: &DateSources<'_>,
    sources: &[DateSource<'_>],
    given: &Given,
    at: usize,
    text: &[u8],
    place: usize,
    number: usize,
    writer: &mut W,
) -> Result<(), DeviceFailed>
    requires works { W.failed writer.old ≡ false }
    requires number { number + length sources.now < 2 ^ 64 }
    requires place { place < length (looked_at (search_in dates.now given.now).limit text.now) }
    requires room { at + length text.now + 1 < 2 ^ 64 }
    ensures { Wrote W.ByteWriter writer.old writer.new result
        (doubts_from (search_in dates.now given.now) at text.now place number (map grammar_in sources.now)) }
{
    let Some((_, others)) = sources.split_first() else {
        return Ok(());
    };
    write_doubt(dates, given, at, text, place, number, writer)?;
    write_doubts(dates, others, given, at, text, place, number + 1, writer)
}

/// Writes the key of a line by what is found in a text, which begins at a place of the line, and what has read it.
#[tactic(auto, using(crate::proofs::Turns::in_turn), unfolding(crate::specs::Dates::place_of_date))]
pub(crate) fn write_finding<W: ByteWriter>(
    dates: &DateSources<'_>,
    given: &Given,
    at: usize,
    text: &[u8],
    finding: &Option<Finding>,
    writer: &mut W,
) -> Result<(), DeviceFailed>
    requires works { W.failed writer.old ≡ false }
    requires within { IfSome finding.now
        (IsWithin (search_in dates.now given.now).limit text.now (length (setting_in dates.now).sources)) }
    requires room { at + length text.now + 1 < 2 ^ 64 }
    ensures { Wrote W.ByteWriter writer.old writer.new result
        (finding_text (search_in dates.now given.now) at text.now finding.now) }
{
    match finding {
        Some(Finding::There(date)) => {
            let key = answer_named(dates.target, &date.moment);
            let read = read_text(date.source, at + date.start, at + date.end);
            write_both(writer, key.as_bytes(), read.as_bytes())
        }
        Some(Finding::Doubtful(place)) => {
            writer.write_all(b"! doubt")?;
            write_doubts(
                dates,
                dates.finder.sources(),
                given,
                at,
                text,
                *place,
                0,
                writer,
            )
        }
        None => writer.write_all(b"! none"),
    }
}

// Writes the key of a line whose date has an escape in it or near behind it, and what has read it.
fn write_escaped<W: ByteWriter>(at: usize, date: &Found, writer: &mut W) -> Result<(), DeviceFailed>
    requires works { W.failed writer.old ≡ false }
    requires start { at + date.now.start + 1 < 2 ^ 64 }
    requires end { at + date.now.end < 2 ^ 64 }
    requires source { date.now.source + 1 < 2 ^ 64 }
    ensures { Wrote W.ByteWriter writer.old writer.new result (escaped_text at date.now) }
{
    let read = read_text(date.source, at + date.start, at + date.end);
    write_three(writer, b"! doubt", read.as_bytes(), b"\tescape")
}

// Writes the key of a line by what is found in the text of a part, and what has read it.
fn write_part_finding<W: ByteWriter>(
    dates: &DateSources<'_>,
    given: &Given,
    part: &LinePart<'_>,
    at: usize,
    text: &[u8],
    found: &Option<Finding>,
    writer: &mut W,
) -> Result<(), DeviceFailed>
    requires works { W.failed writer.old ≡ false }
    requires within { IfSome found.now
        (IsWithin (search_in dates.now given.now).limit text.now (length (setting_in dates.now).sources)) }
    requires room { at + length text.now + 1 < 2 ^ 64 }
    ensures { Wrote W.ByteWriter writer.old writer.new result
        (part_text (search_in dates.now given.now) (part_of part.now) at text.now found.now) }
{
    if let Some(Finding::There(date)) = found {
        if has_escape(part, text, date) {
            return write_escaped(at, date, writer);
        }
    }
    write_finding(dates, given, at, text, found, writer)
}

// Writes that another member of a name follows, where one does.
fn write_again<W: ByteWriter>(repeats: bool, writer: &mut W) -> Result<(), DeviceFailed>
    requires { W.failed writer.old ≡ false }
    ensures { Wrote W.ByteWriter writer.old writer.new result (again repeats) }
{
    if repeats {
        writer.write_all(b"\tfirst of several")
    } else {
        Ok(())
    }
}

/// Writes the key of a line by what is found in the text of a part, what has read it, and whether another member of the name
/// follows.
#[tactic(auto, using(crate::proofs::Turns::in_turn))]
pub(crate) fn write_part<W: ByteWriter>(
    dates: &DateSources<'_>,
    given: &Given,
    part: &LinePart<'_>,
    place: &Member,
    text: &[u8],
    found: &Option<Finding>,
    writer: &mut W,
) -> Result<(), DeviceFailed>
    requires works { W.failed writer.old ≡ false }
    requires within { IfSome found.now
        (IsWithin (search_in dates.now given.now).limit text.now (length (setting_in dates.now).sources)) }
    requires room { place.now.start + length text.now + 1 < 2 ^ 64 }
    ensures { Wrote W.ByteWriter writer.old writer.new result
        (part_text (search_in dates.now given.now) (part_of part.now) place.now.start text.now found.now
        ++ again place.now.repeats) }
{
    write_part_finding(dates, given, part, place.start, text, found, writer)?;
    write_again(place.repeats, writer)
}

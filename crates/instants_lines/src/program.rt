//! The program between its words and its end.
ghost use Rattle.std.specs.Prelude.{◌≡◌, false, map, None, Some, Ok, Err, IsOk, IfSome, IfErr};
ghost use Rattle.std.specs.Io.KnownBytes.{Keeps};
ghost use Rattle.instants_stream.specs.Ran.{RanAndFlushed};
ghost use Rattle.instants_words.specs.declared.words.Words.{Words};
ghost use Rattle.instants_timeline.specs.Sources.{IsRefusal};
ghost use Rattle.instants_faults.specs.declared.new_fault.NewFault.{NewFault};
ghost use Rattle.instants_faults.specs.declared.program_fault.ProgramFault.{ProgramFault};
ghost use Rattle.instants_lines_words.specs.Asked.{Asking};
ghost use Rattle.instants_lines_words.specs.Words.{mode_words_said};
ghost use Rattle.instants_lines_words.specs.Wrong.{Wrong};
ghost use Rattle.instants_lines.specs.Asked.{zone_lacking};
ghost use Rattle.instants_lines.specs.Going.{Going};
ghost use Rattle.instants_lines.specs.Lacking.{lacking_in};
ghost use Rattle.instants_lines.specs.Program.{AsksFor, IsBeforeRun, IsMemory, IsOfWords, IsReportedAs, run_of, writing, wrong_in};
ghost use Rattle.instants_lines.specs.declared.lacking.Lacking.{Lacking};

use crate::lines_fault::LinesFault;
use crate::open_lines::OpenLines;
use instants_stream::write_lines;
use instants_timeline::{ByteReader, ByteWriter, RunFault, RunsLines, run_program};
use std::alloc::Global;
use zones_clock::Zone;

// What writes for the lines of a stream as words ask, with a zone.
#[derive(Drop)]
struct LinesAsked<'o, 'a> {
    lines: &'o OpenLines<'a>,
    zone: Option<&'o Zone>,
}

impl RunsLines for LinesAsked<'_, '_> {
    ghost use Rattle.instants_lines.specs.Writing.{writing_for};

    ghost writing = { λ asked limit. writing_for asked limit };

    // A function of its own, in which the reader, the writer and the buffer are known to lie apart.
    #[inline(never)]
    fn run<R: ByteReader, W: ByteWriter>(
        &self,
        limit: usize,
        buffer: &mut [u8],
        reader: &mut R,
        writer: &mut W,
    ) -> Result<(), RunFault> {
        let mut lines = self.lines.writer(self.zone);
        let near = self.lines.reach(limit);
        write_lines(&mut lines, near, buffer, reader, writer)
    }
}

/// Writes for each line that the reader gives what the words say, hands it on before each read, and flushes the writer at
/// the end.
///
/// The words are `MODE [TARGET [ASSUMED [LIMIT]]] [year N] [time HH:MM] [field NAME | column N [separator S]] [label TEXT] SOURCE...`,
/// where `MODE` is `key`, `carry`, `replace`, `explain` or `locate`, and the others are those of `instants`. `TARGET`, `ASSUMED` and
/// `LIMIT` begin with a sign or a digit, or are `Z` or `UTC`, which say `+00:00`; those that are left out are `+00:00`, `-` and
/// `1048576`. `year` gives the year, 0 to 9999, of the first date of lines that say none, and `time` the time of day, 00:00 to 23:59,
/// of dates without one. `field` names the member of a line that is an object in JSON, and `column` gives the number of a column,
/// from 1, in whose bytes alone the date of a line is looked for; `separator` gives the byte between columns, or `tab`, and is a comma
/// where it is left out. `label` gives a text that stands between the key of a line and the line, in modes `key` and `carry`. The name
/// of a format is a source too, and says its language and its description. `ASSUMED` may also name a zone, as `Europe/Berlin` or
/// `:CET`: then `zone` is its clock, on which each date is that says no offset. All words are looked at, and all memory is taken,
/// before anything is read. The first device that fails ends the run; after a failed read what was written is flushed.
pub fn run_words<'a, R: ByteReader, W: ByteWriter>(
    alloc: Global,
    words: &[&'a str],
    zone: Option<&Zone>,
    reader: &mut R,
    writer: &mut W,
) -> Result<(), LinesFault<'a>>
    requires reader { R.failed reader.old ≡ false }
    requires writer { W.failed writer.old ≡ false }
    // What the words ask for was written, as far as the run came.
    ensures ran { IfSome (run_of result) (λ ended. (going : Going)
        × AsksFor (map (λ word. word.now) words.now) zone.entry going
        × RanAndFlushed (writing going)
        R.ByteReader reader.old reader.new W.ByteWriter writer.old writer.new ended) }
    // Where a run is begun each source can name a moment.
    ensures names { IfSome (run_of result) (λ ended. (going : Going)
        × AsksFor (map (λ word. word.now) words.now) zone.entry going × (lacking_in going.search ≡ None)) }
    // The first source that can name none is refused with what it lacks.
    ensures lacks { (lacking : Lacking) → result ≡ Err (LinesFault.Lacks lacking)
        → (going : Going) × AsksFor (map (λ word. word.now) words.now) zone.entry going
        × (lacking_in going.search ≡ Some lacking) }
    // A zone that the words name is wanted.
    ensures zone { (name : _) → result ≡ Err (LinesFault.Zone name)
        → (asked : Asking) × (said : Words)
        × (mode_words_said (map (λ word. word.now) words.now) ≡ Ok (asked, said))
        × (zone_lacking asked.zone zone.entry ≡ Some name.now) }
    // Words that are wrong are refused, whatever the devices have.
    ensures refused { (wrong : Wrong)
        → mode_words_said (map (λ word. word.now) words.now) ≡ Err wrong
        → wrong_in result ≡ Some wrong }
    // No others are refused as wrong.
    ensures only_wrong { IfErr result (λ fault. IsOfWords fault
        → IsReportedAs (map (λ word. word.now) words.now) fault) }
    // A source that is no description is refused by its place and its fault; it is the first such one.
    ensures new { (fault : NewFault) → result ≡ Err (LinesFault.Program (ProgramFault.New fault))
        → (asked : Asking) × (said : Words)
        × (mode_words_said (map (λ word. word.now) words.now) ≡ Ok (asked, said))
        × IsRefusal said.sources fault }
    ensures memory { IfErr result (λ fault.
        IsMemory fault → IsOk (mode_words_said (map (λ word. word.now) words.now))) }
    ensures before { IfErr result (λ fault.
        IsBeforeRun fault → (reader.new ≡ reader.old) × (writer.new ≡ writer.old)) }
    // After a read that failed nothing is held back.
    ensures handed_on { IfSome (run_of result) (λ ended. ended ≡ Err RunFault.Read
        → W.failed writer.new ≡ false → Keeps (W.held writer.new) (W.handed_on writer.new)) }
{
    let lines = OpenLines::of_words(alloc, words, zone)?;
    let most = lines.most();
    let asked = LinesAsked {
        lines: &lines,
        zone,
    };
    run_program(&asked, alloc, most, reader, writer)?;
    Ok(())
}

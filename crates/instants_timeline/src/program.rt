//! The program between its words and its end.
ghost use Rattle.std.specs.Prelude.{◌≡◌, ◌<◌, ◌≤◌, ◌+◌, ◌^◌, ℕ, false, length, map, Err, IsOk, IfSome, IfOk, IfErr};
ghost use Rattle.std.specs.Io.KnownBytes.{Keeps};
ghost use Rattle.instants_stream.specs.Answers.{by_answers};
ghost use Rattle.instants_stream.specs.Ran.{Ran, RanAndFlushed};
ghost use Rattle.instants_stream.specs.Writing.{Writing};
ghost use Rattle.instants_words.specs.declared.fault.WordsFault.{WordsFault};
ghost use Rattle.instants_words.specs.Words.{words_said};
ghost use Rattle.instants_timeline.specs.Place.{Setting, answer_to};
ghost use Rattle.instants_timeline.specs.Program.{AsksFor, block, ended_of, IsBeforeRun, IsMemory, IsRefusedAs, run_of};
ghost use Rattle.instants_timeline.specs.Settings.{setting_of};

use crate::runs::answer_lines;
use crate::timeline::Timeline;
use instants_faults::{ProgramFault, RunsFault};
use instants_stream::{ByteReader, ByteWriter, RunFault};
use instants_words::read_words;
use std::alloc::Global;

// Bytes that are read at once where they are there, beside those of a line.
const BLOCK: usize = 65_536;

/// What writes for each line of a stream, and is ready to: all other memory that it needs it has.
pub trait RunsLines {
    /// What there is to write, where a line with more bytes than a limit is too long.
    ghost writing: { Self → ℕ → Writing };

    /// Writes it for each line that the reader gives, and hands it on before each read. The buffer has a block more than the limit.
    /// The writer is flushed once, before `Ok`; a reader or a writer that failed isn't tried again.
    fn run<R: ByteReader, W: ByteWriter>(
        &self,
        limit: usize,
        buffer: &mut [u8],
        reader: &mut R,
        writer: &mut W,
    ) -> Result<(), RunFault>
        requires room { limit + block ≤ length buffer.old }
        requires reader { R.failed reader.old ≡ false }
        requires writer { W.failed writer.old ≡ false }
        ensures ran { Ran (writing self.now limit)
            R.ByteReader reader.old reader.new W.ByteWriter writer.old writer.new result }
        // Before the read that failed all was handed on.
        ensures handed_on { result ≡ Err RunFault.Read
            → Keeps (W.held writer.new) (W.handed_on writer.new) };
}

// Writes the answer to each line.
impl RunsLines for Timeline<'_> {
    ghost use Rattle.instants_stream.specs.Answers.{by_answers};
    ghost use Rattle.instants_timeline.specs.Place.{answer_to};
    ghost use Rattle.instants_timeline.specs.Settings.{setting_of};

    ghost writing = { λ timeline limit. by_answers (answer_to (setting_of timeline)) limit };

    fn run<R: ByteReader, W: ByteWriter>(
        &self,
        limit: usize,
        buffer: &mut [u8],
        reader: &mut R,
        writer: &mut W,
    ) -> Result<(), RunFault> {
        answer_lines(self, limit, buffer, reader, writer)
    }
}

/// Answers each line that the reader gives as the words say, each answer followed by a line feed, hands the answers on
/// before each read, and flushes the writer at the end.
///
/// The words are `TARGET ASSUMED LIMIT SOURCE...`. They are all looked at, and all memory is taken, before anything is
/// read. The first device that fails ends the run; after a failed read what was answered is flushed.
pub fn run_words<'a, R: ByteReader, W: ByteWriter>(
    alloc: Global,
    words: &[&'a str],
    reader: &mut R,
    writer: &mut W,
) -> Result<(), ProgramFault<'a>>
    requires reader { R.failed reader.old ≡ false }
    requires writer { W.failed writer.old ≡ false }
    // What the words ask for was written, as far as the run came.
    ensures ran { IfSome (run_of result) (λ ended. (setting : Setting) × (limit : ℕ)
        × AsksFor (map (λ word. word.now) words.now) setting limit
        × RanAndFlushed (by_answers (answer_to setting) limit)
        R.ByteReader reader.old reader.new W.ByteWriter writer.old writer.new ended) }
    // Words that are wrong are refused, whatever the devices have.
    ensures refused { (fault : WordsFault)
        → words_said (map (λ word. word.now) words.now) ≡ Err fault
        → result ≡ Err (ProgramFault.Words fault) }
    // No others are refused, and what is refused before the run leaves the devices as they were.
    ensures before { IfErr result (λ fault. IsBeforeRun fault
        → IsRefusedAs (map (λ word. word.now) words.now) fault
        × (reader.new ≡ reader.old) × (writer.new ≡ writer.old)) }
    ensures memory { IfErr result (λ fault.
        IsMemory fault → IsOk (words_said (map (λ word. word.now) words.now))) }
    // After a read that failed nothing is held back.
    ensures handed_on { IfSome (run_of result) (λ ended. ended ≡ Err RunFault.Read
        → W.failed writer.new ≡ false → Keeps (W.held writer.new) (W.handed_on writer.new)) }
{
    let asked = asked_timeline(alloc, words)?;
    run_program(&asked.0, alloc, asked.1, reader, writer)?;
    Ok(())
}

/// The timeline that words ask for, and the greatest length of a line.
///
/// The words are `TARGET ASSUMED LIMIT SOURCE...`. The first that is wrong is the error, before memory is taken, and after
/// that the first source that is no description.
pub fn asked_timeline<'a>(
    alloc: Global,
    words: &[&'a str],
) -> Result<(Timeline<'a>, usize), ProgramFault<'a>>
    ensures asks { IfOk result
        (λ x. AsksFor (map (λ word. word.now) words.now) (setting_of x.0) x.1) }
    ensures limit { IfOk result (λ x. x.1 ≤ 1_048_576) }
    ensures refused { (fault : WordsFault)
        → words_said (map (λ word. word.now) words.now) ≡ Err fault
        → result ≡ Err (ProgramFault.Words fault) }
    ensures only { IfErr result (IsRefusedAs (map (λ word. word.now) words.now)) }
    ensures memory { IfErr result (λ fault.
        IsMemory fault → IsOk (words_said (map (λ word. word.now) words.now))) }
{
    let said = read_words(alloc, words)?;
    let timeline = Timeline::new(alloc, said.sources.as_slice(), said.target, said.assumed)?;
    Ok((timeline, said.limit))
}

/// Writes for each line that the reader gives, hands it on before each read where the program does, and flushes the writer at
/// the end, and also after a read that failed. Memory is taken before anything is read: a buffer of the limit and a block.
pub fn run_program<P: RunsLines, R: ByteReader, W: ByteWriter>(
    program: &P,
    alloc: Global,
    limit: usize,
    reader: &mut R,
    writer: &mut W,
) -> Result<(), RunsFault>
    requires room { limit + block < 2 ^ 64 }
    requires reader { R.failed reader.old ≡ false }
    requires writer { W.failed writer.old ≡ false }
    ensures ran { IfSome (ended_of result) (λ ended. RanAndFlushed (P.writing program.now limit)
        R.ByteReader reader.old reader.new W.ByteWriter writer.old writer.new ended) }
    ensures memory { result ≡ Err RunsFault.Memory
        → (reader.new ≡ reader.old) × (writer.new ≡ writer.old) }
    // After a read that failed nothing is held back.
    ensures handed_on { IfSome (ended_of result) (λ ended. ended ≡ Err RunFault.Read
        → W.failed writer.new ≡ false → Keeps (W.held writer.new) (W.handed_on writer.new)) }
{
    let mut buffer = vec![in alloc; 0; limit + BLOCK]?;
    run_and_flush(program, limit, buffer.as_mut_slice(), reader, writer)?;
    Ok(())
}

// Writes for each line, and flushes what was written also where a read failed.
fn run_and_flush<P: RunsLines, R: ByteReader, W: ByteWriter>(
    program: &P,
    limit: usize,
    buffer: &mut [u8],
    reader: &mut R,
    writer: &mut W,
) -> Result<(), RunFault>
    requires room { limit + block ≤ length buffer.old }
    requires reader { R.failed reader.old ≡ false }
    requires writer { W.failed writer.old ≡ false }
    ensures ran { RanAndFlushed (P.writing program.now limit)
        R.ByteReader reader.old reader.new W.ByteWriter writer.old writer.new result }
    ensures handed_on { result ≡ Err RunFault.Read
        → W.failed writer.new ≡ false → Keeps (W.held writer.new) (W.handed_on writer.new) }
{
    let ended = program.run(limit, buffer, reader, writer);
    if ended == Err(RunFault::Read) && !writer.has_failed() {
        // The read stays the fault.
        let _ = writer.flush();
    }
    ended
}

//! The answers to lines that stand in memory.
ghost use Rattle.std.specs.Prelude.{◌≡◌, ◌≢◌, ◌<◌, ◌≤◌, ◌*◌, ◌++◌, List, ℕ, map, length, take, drop, Err, IsOk, IfOk, IfErr};
ghost use Rattle.instants_stream.specs.Lines.{lines};
ghost use Rattle.instants_stream.specs.declared.run.RunFault.{RunFault};
ghost use Rattle.instants_words.specs.declared.fault.WordsFault.{WordsFault};
ghost use Rattle.instants_words.specs.Words.{words_said};
ghost use Rattle.instants_timeline.specs.Program.{IsBeforeRun, IsMemory, IsRefusedAs};
ghost use Rattle.instants_memory.specs.OutputFor.{IsOutputFor};

use instants_timeline::{ProgramFault, RunFault, Timeline, TooLittleRoom, read_words, run_over};
use std::alloc::Global;

/// Room that always suffices for a line's answer and the line feed after it.
pub const LINE_ROOM: usize = 36;

/// Answers each line of the input as the program's words say, each answer followed by a line feed, into the start of the
/// output. How many bytes the answers have.
///
/// The words are those of `run_words`: `TARGET ASSUMED LIMIT SOURCE...`. Where the answers are longer than the output, its
/// bytes are their beginning, and the fault is `Write`. All memory that is taken is given back.
pub fn answer_lines<'a>(
    alloc: Global,
    words: &[&'a str],
    input: &[u8],
    output: &mut [u8],
) -> Result<usize, ProgramFault<'a>>
    // Exactly the output that the words ask for is written, and what lies after it stays.
    ensures ok { IfOk result (λ len. (bytes : List ℕ)
        × IsOutputFor (map (λ word. word.now) words.now) input.now bytes
        × (len ≡ length bytes) × (output.new ≡ bytes ++ drop len output.old)) }
    // It is longer than the room, which holds its beginning.
    ensures write { result ≡ Err (ProgramFault.Run RunFault.Write) → (bytes : List ℕ)
        × IsOutputFor (map (λ word. word.now) words.now) input.now bytes
        × (length output.old < length bytes) × (output.new ≡ take (length output.old) bytes) }
    // So it does not come where there is room for `LINE_ROOM` bytes a line, or a byte of the input.
    ensures line_room { LINE_ROOM * length (lines input.now) ≤ length output.old
        → result ≢ Err (ProgramFault.Run RunFault.Write) }
    ensures byte_room { LINE_ROOM * length input.now ≤ length output.old
        → result ≢ Err (ProgramFault.Run RunFault.Write) }
    // No read fails.
    ensures read { result ≢ Err (ProgramFault.Run RunFault.Read) }
    // Words that are wrong are refused, whatever the input.
    ensures refused { (fault : WordsFault)
        → words_said (map (λ word. word.now) words.now) ≡ Err fault
        → result ≡ Err (ProgramFault.Words fault) }
    // No others are refused, and what is refused before the first line leaves the output as it was.
    ensures before { IfErr result (λ fault. IsBeforeRun fault
        → IsRefusedAs (map (λ word. word.now) words.now) fault × (output.new ≡ output.old)) }
    ensures memory { IfErr result (λ fault.
        IsMemory fault → IsOk (words_said (map (λ word. word.now) words.now))) }
{
    let said = read_words(alloc, words)?;
    let timeline = Timeline::new(alloc, said.sources.as_slice(), said.target, said.assumed)?;
    match run_over(&timeline, said.limit, input, output) {
        Ok(len) => Ok(len),
        Err(TooLittleRoom) => Err(ProgramFault::Run(RunFault::Write)),
    }
}

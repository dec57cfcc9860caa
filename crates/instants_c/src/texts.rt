//! Words that stand in one text.
ghost use Rattle.std.specs.Prelude.{◌≡◌, ◌≢◌, ◌<◌, ◌≤◌, ◌*◌, ◌++◌, ℕ, List, map, length, take, drop, Err, IsOk, IfOk, IfErr};
ghost use Rattle.std.specs.Str.{IsUtf8};
ghost use Rattle.instants_stream.specs.Lines.{lines, parts};
ghost use Rattle.instants_stream.specs.declared.run.RunFault.{RunFault};
ghost use Rattle.instants_words.specs.declared.fault.WordsFault.{WordsFault};
ghost use Rattle.instants_words.specs.Words.{words_said};
ghost use Rattle.instants_timeline.specs.Program.{IsBeforeRun, IsRefusedAs};
ghost use Rattle.instants_memory.specs.OutputFor.{IsOutputFor};

use instants_memory::LINE_ROOM;
use instants_timeline::ProgramFault;
use instants_words::fault_in_text;
use std::alloc::{AllocError, Global};

// The words between line feeds.
fn words_of(alloc: Global, text: &str) -> Result<Vec<&str>, AllocError>
    ensures { IfOk result (λ words. map (λ word. word.now) words.items ≡ parts text.now) }
{
    text.split('\n').collect(alloc)
}

/// A list of the words with a line feed between them. Words that are not UTF-8 are not to be had, as for the program.
pub(crate) fn list_in<'a>(alloc: Global, words: &'a [u8]) -> Result<Vec<&'a str>, AllocError>
    ensures { IfOk result (λ list. map (λ word. word.now) list.items ≡ parts words.now) }
{
    match str::from_utf8(words) {
        Ok(text) => words_of(alloc, text),
        Err(_) => Err(AllocError),
    }
}

/// A list of the words with a line feed between them, which are looked at first. Words that are not UTF-8 are not to be had,
/// as for the program.
pub(crate) fn words_in<'a>(alloc: Global, words: &'a [u8]) -> Result<Vec<&'a str>, ProgramFault<'a>>
    ensures ok { IfOk result (λ list. map (λ word. word.now) list.items ≡ parts words.now) }
    ensures accepted { IfOk result (λ _. IsOk (words_said (parts words.now))) }
    ensures refused { IfErr result (IsRefusedAs (parts words.now)) }
    // Wrong words are refused so, also where there is no memory for a list of them.
    ensures wrong { IsUtf8 words.now → (fault : WordsFault)
        → words_said (parts words.now) ≡ Err fault
        → (result ≡ Err (ProgramFault.Words fault)) × (fault ≢ WordsFault.Memory) }
{
    let Ok(text) = str::from_utf8(words) else {
        return Err(ProgramFault::Memory);
    };
    if let Some(fault) = fault_in_text(text) {
        return Err(ProgramFault::Words(fault));
    }
    let list = words_of(alloc, text)?;
    Ok(list)
}

/// Answers lines as `instants_memory::answer_lines` does, by words with a line feed between them.
pub(crate) fn answer_lines<'a>(
    alloc: Global,
    words: &'a [u8],
    input: &[u8],
    output: &mut [u8],
) -> Result<usize, ProgramFault<'a>>
    ensures ok { IfOk result (λ len. (bytes : List ℕ) × IsOutputFor (parts words.now) input.now bytes
        × (len ≡ length bytes) × (output.new ≡ bytes ++ drop len output.old)) }
    ensures write { result ≡ Err (ProgramFault.Run RunFault.Write) → (bytes : List ℕ)
        × IsOutputFor (parts words.now) input.now bytes
        × (length output.old < length bytes) × (output.new ≡ take (length output.old) bytes) }
    ensures line_room { LINE_ROOM * length (lines input.now) ≤ length output.old
        → result ≢ Err (ProgramFault.Run RunFault.Write) }
    ensures read { result ≢ Err (ProgramFault.Run RunFault.Read) }
    ensures refused { IfErr result (λ fault. IsBeforeRun fault
        → IsRefusedAs (parts words.now) fault × (output.new ≡ output.old)) }
    // Wrong words are refused so, also where there is no memory for a list of them.
    ensures wrong { IsUtf8 words.now → (fault : WordsFault)
        → words_said (parts words.now) ≡ Err fault
        → (result ≡ Err (ProgramFault.Words fault)) × (fault ≢ WordsFault.Memory) }
{
    let words = words_in(alloc, words)?;
    instants_memory::answer_lines(alloc, words.as_slice(), input, output)
}

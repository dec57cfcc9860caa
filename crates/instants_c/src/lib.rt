//! The programs `instants` and `instants-lines` for C: a static library. `include/instants.h` declares its calls, and says what a caller keeps to.
//!
//! Words stand in one text, with a line feed between them. All memory that a call takes, from the C library, is given back
//! before it ends; what an open handle keeps is given back as it is closed, and nothing else is kept from call to call.
#![tactic(auto)]

ghost use Rattle.std.specs.Prelude.{◌≡◌, ◌≢◌, ◌≤◌, ◌+◌, ◌*◌, ◌++◌, ◌==◌, ◌⊎◌, ℕ, List, None, Some, Err, length, take, drop, count_by};
ghost use Rattle.std.specs.Borrow.{sem};
ghost use Rattle.std.specs.Box.Ownership.{box_owns};
ghost use Rattle.std.specs.Str.{IsUtf8};
ghost use Rattle.std.specs.contracts.impls.GlobalAllocator.TheImpl.{ghosts};
ghost use base.Fml.{Lft, Share, fsep, flft};
ghost use denote.Struct.Lending.{lent_at};
ghost use Rattle.base.specs.Bytes.{line_feed};
ghost use Rattle.instants_stream.specs.Lines.{lines, parts};
ghost use Rattle.instants_stream.specs.declared.run.RunFault.{RunFault};
ghost use Rattle.instants_words.specs.declared.fault.WordsFault.{WordsFault};
ghost use Rattle.instants_words.specs.Words.{words_said};
ghost use Rattle.instants_timeline.specs.Place.{Setting};
ghost use Rattle.instants_timeline.specs.Program.{AsksFor, IsBeforeRun, IsRefusedAs};
ghost use Rattle.instants_faults.specs.ProgramText.{sentence, status_of};
ghost use Rattle.instants_timeline.specs.Settings.{setting_of};
ghost use Rattle.instants_faults.specs.declared.program_fault.ProgramFault.{ProgramFault};
ghost use Rattle.instants_memory.specs.OutputFor.{IsOutputFor};
ghost use Rattle.instants_c.specs.contracts.kept.Kept.{the_row as kept_row};
ghost use Rattle.instants_c.specs.declared.kept.Kept.{Kept};
ghost use Rattle.instants_c.specs.Answered.{IsAnswered, IsNumbered};
ghost use Rattle.instants_c.specs.Refused.{IsCutShort, IsPut};

mod handle;
mod kept;
mod line_calls;
mod lines_handle;
mod lines_kept;
mod parts;
mod sentences;
mod texts;

pub use handle::Handle;
use instants_memory::{LINE_ROOM, Moment};
use instants_timeline::ProgramFault;
pub use kept::Kept;
pub use line_calls::{
    instants_lines_close, instants_lines_dates, instants_lines_keys, instants_lines_open,
    instants_lines_sentence,
};
pub use lines_handle::LinesHandle;
pub use lines_kept::KeptLines;
use parts::Parts;
use std::alloc::Global;
use std::mem;

// Major, minor and patch, two digits each.
const VERSION: u32 = 100;

/// Answers each line of the input as the words say, each answer followed by a line feed, into the start of the output. The
/// result is the program's status, and `written` has how many bytes were written.
#[unsafe(no_mangle)]
#[tactic(auto, using(crate::proofs::Feeds::lines_by_feeds))]
pub extern "C" fn instants_answer_lines(
    alloc: Global,
    words: &[u8],
    input: &[u8],
    output: &mut [u8],
    written: &mut usize,
) -> u8
    ensures status { result ≤ 2 }
    // Exactly the output that the words ask for is written, and what lies after it stays.
    ensures ok { result ≡ 0 → (bytes : List ℕ) × IsOutputFor (parts words.now) input.now bytes
        × (written.new ≡ length bytes) × (output.new ≡ bytes ++ drop (length bytes) output.old) }
    // Else nothing is written, or the answers are longer than the output, which is full of their beginning.
    ensures failed { result ≡ 1 → ((written.new ≡ 0) × (output.new ≡ output.old))
        ⊎ IsCutShort (parts words.now) input.now output.old output.new written.new }
    // The words are wrong, or the first source that is no description is refused.
    ensures wrong { result ≡ 2 → (fault : ProgramFault) × IsRefusedAs (parts words.now) fault
        × (status_of fault ≡ 2) × (written.new ≡ 0) × (output.new ≡ output.old) }
    // Wrong words are told so, whatever memory there is.
    ensures refused { IsUtf8 words.now → (fault : WordsFault)
        → words_said (parts words.now) ≡ Err fault → result ≡ 2 }
    // `LINE_ROOM` bytes a line are room enough.
    ensures line_room { LINE_ROOM * length (lines input.now) ≤ length output.old
        → result ≢ 0 → (written.new ≡ 0) × (output.new ≡ output.old) }
    // So are as many for each line feed, and once more.
    ensures feed_room { LINE_ROOM * (count_by (λ b. b == line_feed) input.now + 1) ≤ length output.old
        → result ≢ 0 → (written.new ≡ 0) × (output.new ≡ output.old) }
{
    match texts::answer_lines(alloc, words, input, output) {
        Ok(len) => {
            *written = len;
            0
        }
        Err(fault) => {
            *written = written_before(&fault, output.len());
            fault.status()
        }
    }
}

// How many bytes are written where a fault ends a call: the whole room, where it ends the run.
fn written_before(fault: &ProgramFault, room: usize) -> usize
    ensures run { (ended : RunFault) → fault.now ≡ ProgramFault.Run ended → result ≡ room }
    ensures before { IsBeforeRun fault.now → result ≡ 0 }
{
    match fault {
        ProgramFault::Run(_) => room,
        _ => 0,
    }
}

/// Opens a handle on what the words ask for: a call on it looks at no words and takes no memory. The result is the program's
/// status.
///
/// The text of the words stays as it is until the handle is closed.
#[unsafe(no_mangle)]
pub extern "C" fn instants_open(alloc: Global, words: &'static [u8], handle: &mut Handle) -> u8
    // What an open handle keeps would be lost.
    requires closed { handle.old.kept ≡ None }
    ensures status { result ≤ 2 }
    // It keeps what the words ask for.
    ensures ok { result ≡ 0 → (kept : Kept) × (handle.new.kept ≡ Some kept)
        × AsksFor (parts words.now) (setting_of kept.timeline) kept.limit }
    // Else it stays closed, and nothing is kept.
    ensures failed { result ≢ 0 → handle.new ≡ handle.old }
    // The words are wrong, or the first source that is no description is refused.
    ensures wrong { result ≡ 2 → (fault : ProgramFault)
        × IsRefusedAs (parts words.now) fault × (status_of fault ≡ 2) }
    // Wrong words are told so, whatever memory there is.
    ensures refused { IsUtf8 words.now → (fault : WordsFault)
        → words_said (parts words.now) ≡ Err fault → result ≡ 2 }
{
    match kept::keep(alloc, words) {
        Ok(kept) => {
            mem::replace(handle, Handle::of(Parts::of(kept))).forget();
            0
        }
        Err(fault) => fault.status(),
    }
}

/// Answers each line of the input by what an open handle keeps, as `instants_answer_lines` does by words. The result is the
/// program's status, and `written` has how many bytes were written. It takes no memory, and several threads may call at once.
#[unsafe(no_mangle)]
pub unsafe extern "C" fn instants_answer(
    at: *const u8,
    input: &[u8],
    output: &mut [u8],
    written: &mut usize,
) -> u8
    ghost g: { (Lft × Share) × Kept }
    // What the handle keeps is lent for the call, and can be lent to others at once.
    requires* open { sem 𝓛 (fsep (lent_at kept_row at g.1 g.0.0) (flft g.0.0 g.0.1)) }
    ensures* lent { sem 𝓛 (flft g.0.0 g.0.1) }
    ensures answered { IsAnswered g.1 input.now result written.new output.old output.new }
{
    kept::answer(&*(at as *const Kept), input, output, written)
}

/// Writes what each line of the input names, by what an open handle keeps: one entry a line, its moment as numbers, or the number
/// of its fault. The result is the program's status, and `written` has how many entries were written. It takes no memory, and
/// several threads may call at once.
#[unsafe(no_mangle)]
pub unsafe extern "C" fn instants_answer_moments(
    at: *const u8,
    input: &[u8],
    moments: &mut [Moment],
    written: &mut usize,
) -> u8
    ghost g: { (Lft × Share) × Kept }
    // What the handle keeps is lent for the call, and can be lent to others at once.
    requires* open { sem 𝓛 (fsep (lent_at kept_row at g.1 g.0.0) (flft g.0.0 g.0.1)) }
    ensures* lent { sem 𝓛 (flft g.0.0 g.0.1) }
    ensures numbered { IsNumbered g.1 input.now result written.new moments.old moments.new }
{
    kept::number(&*(at as *const Kept), input, moments, written)
}

/// Closes an open handle, and gives back all memory that it keeps.
#[unsafe(no_mangle)]
pub unsafe extern "C" fn instants_close(alloc: Global, at: *mut u8)
    ghost value: { Kept }
    // What the handle keeps, and the right to free it.
    requires* open { sem 𝓛 (box_owns (ghosts.dealloc_token alloc) kept_row at value) }
{
    kept::close(Parts {
        ptr: at as *mut Kept,
        alloc,
    });
}

/// Looks at the words as a call that answers lines does before the first one, and writes the sentence of what is refused, as
/// much as there is room for. The result is the program's status, and `length` has how many bytes the whole sentence has.
#[unsafe(no_mangle)]
pub extern "C" fn instants_sentence(
    alloc: Global,
    words: &[u8],
    output: &mut [u8],
    len: &mut usize,
) -> u8
    // The words are accepted, and nothing is said.
    ensures accepted { result ≡ 0 → (setting : Setting) × (limit : ℕ)
        × AsksFor (parts words.now) setting limit × (len.new ≡ 0) × (output.new ≡ output.old) }
    ensures refused { result ≢ 0 → (fault : ProgramFault) × IsRefusedAs (parts words.now) fault
        × (result ≡ status_of fault) × (len.new ≡ length (sentence fault))
        × (output.new ≡ take (length output.old) (sentence fault)
        ++ drop (length (sentence fault)) output.old) }
    // Wrong words have their own sentence, whatever memory there is.
    ensures wrong { IsUtf8 words.now → (fault : WordsFault)
        → words_said (parts words.now) ≡ Err fault
        → (result ≡ 2) × IsPut (sentence (ProgramFault.Words fault)) output.old output.new len.new }
{
    match texts::answer_lines(alloc, words, &[], &mut []) {
        Ok(_) => {
            *len = 0;
            0
        }
        Err(fault) => sentences::write(alloc, fault, output, len),
    }
}

/// The version: ten thousand times the major one, a hundred times the minor one, and the patch.
#[unsafe(no_mangle)]
pub extern "C" fn instants_version() -> u32
    ensures { result ≡ 100 }
{
    VERSION
}

//! What a handle keeps.
ghost use Rattle.std.specs.Prelude.{◌≡◌, ◌≢◌, Err, IfOk, IfErr};
ghost use Rattle.std.specs.Str.{IsUtf8};
ghost use Rattle.instants_stream.specs.Lines.{parts};
ghost use Rattle.instants_words.specs.declared.fault.WordsFault.{WordsFault};
ghost use Rattle.instants_words.specs.Words.{words_said};
ghost use Rattle.instants_timeline.specs.Program.{AsksFor, IsRefusedAs};
ghost use Rattle.instants_timeline.specs.Settings.{setting_of};
ghost use Rattle.instants_c.specs.Answered.{IsAnswered, IsNumbered};

use crate::parts::Parts;
use crate::texts::words_in;
use instants_memory::{Moment, moments_over};
use instants_timeline::{ProgramFault, Timeline, TooLittleRoom, read_words, run_over};
use std::alloc::{AllocError, Global};

/// The timeline and the limit that words ask for.
#[derive(Drop)]
pub struct Kept {
    pub timeline: Timeline<'static>,
    pub limit: usize,
}

/// Keeps what the words ask for.
pub(crate) fn keep(alloc: Global, words: &'static [u8]) -> Result<Box<Kept>, ProgramFault<'static>>
    ensures ok { IfOk result (λ kept.
        AsksFor (parts words.now) (setting_of kept.value.timeline) kept.value.limit) }
    ensures refused { IfErr result (IsRefusedAs (parts words.now)) }
    // Wrong words are refused so, also where there is no memory for a list of them.
    ensures wrong { IsUtf8 words.now → (fault : WordsFault)
        → words_said (parts words.now) ≡ Err fault
        → (result ≡ Err (ProgramFault.Words fault)) × (fault ≢ WordsFault.Memory) }
{
    let words = words_in(alloc, words)?;
    let said = read_words(alloc, words.as_slice())?;
    let timeline = Timeline::new(alloc, said.sources.as_slice(), said.target, said.assumed)?;
    let limit = said.limit;
    Ok(Box::new(alloc, Kept { timeline, limit }).map_err(AllocError::from)?)
}

/// Answers each line of the input.
pub(crate) fn answer(kept: &Kept, input: &[u8], output: &mut [u8], written: &mut usize) -> u8
    ensures { IsAnswered kept.now input.now result written.new output.old output.new }
{
    match run_over(&kept.timeline, kept.limit, input, output) {
        Ok(len) => {
            *written = len;
            0
        }
        Err(TooLittleRoom) => {
            *written = output.len();
            1
        }
    }
}

/// Writes what each line of the input names, as numbers.
#[tactic(auto, using(crate::proofs::Feeds::lines_by_feeds))]
pub(crate) fn number(kept: &Kept, input: &[u8], moments: &mut [Moment], written: &mut usize) -> u8
    ensures { IsNumbered kept.now input.now result written.new moments.old moments.new }
{
    match moments_over(&kept.timeline, kept.limit, input, moments) {
        Ok(count) => {
            *written = count;
            0
        }
        Err(TooLittleRoom) => {
            *written = moments.len();
            1
        }
    }
}

/// Frees what is kept.
pub(crate) fn close(kept: Parts<Kept, Global>) {
    drop(kept.into_box());
}

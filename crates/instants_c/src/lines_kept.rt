//! What a handle for lines keeps.
ghost use Rattle.std.specs.Prelude.{◌≡◌, IfOk, IfErr};
ghost use Rattle.instants_stream.specs.Lines.{parts};
ghost use Rattle.instants_lines_memory.specs.Zoned.{IsAskedBy, IsRefused};
ghost use Rattle.instants_c.specs.LinesPut.{AreDatesPut, AreKeysPut};

use crate::parts::Parts;
use crate::texts::list_in;
use instants_lines_memory::{Above, LineDate, OpenFault, TooLittleRoom, ZonedLines};
use std::alloc::{AllocError, Global};

/// All that words and a zone ask of lines.
#[derive(Drop)]
pub struct KeptLines {
    pub zoned: ZonedLines<'static>,
}

/// What the words and the bytes of a zone's file ask for.
pub(crate) fn opened<'a>(
    alloc: Global,
    words: &'a [u8],
    zone: &[u8],
) -> Result<ZonedLines<'a>, OpenFault<'a>>
    ensures ok { IfOk result (IsAskedBy (parts words.now) zone.now) }
    ensures refused { IfErr result (IsRefused (parts words.now) zone.now) }
{
    let list = list_in(alloc, words)?;
    ZonedLines::of_words(alloc, list.as_slice(), zone)
}

/// Keeps what the words and the bytes of a zone's file ask for.
pub(crate) fn keep(
    alloc: Global,
    words: &'static [u8],
    zone: &[u8],
) -> Result<Box<KeptLines>, OpenFault<'static>>
    ensures ok { IfOk result (λ kept. IsAskedBy (parts words.now) zone.now kept.value.zoned) }
    ensures refused { IfErr result (IsRefused (parts words.now) zone.now) }
{
    let zoned = opened(alloc, words, zone)?;
    Ok(Box::new(alloc, KeptLines { zoned }).map_err(AllocError::from)?)
}

/// Writes each line of the input after its key.
pub(crate) fn write_keys(
    kept: &KeptLines,
    input: &[u8],
    output: &mut [u8],
    written: &mut usize,
    above: &mut Above,
) -> u8
    ensures { AreKeysPut kept.now above.old input.now result written.new output.old above.new output.new }
{
    match kept.zoned.keys_over(above, input, output) {
        Ok(len) => {
            *written = len;
            0
        }
        Err(TooLittleRoom) => {
            *written = output.len();
            1
        }
    }
}

/// Writes the date of each line of the input, as numbers.
pub(crate) fn write_dates(
    kept: &KeptLines,
    input: &[u8],
    dates: &mut [LineDate],
    written: &mut usize,
) -> u8
    ensures { AreDatesPut kept.now input.now result written.new dates.old dates.new }
{
    match kept.zoned.dates_over(input, dates) {
        Ok(count) => {
            *written = count;
            0
        }
        Err(TooLittleRoom) => {
            *written = dates.len();
            1
        }
    }
}

/// Frees what is kept.
pub(crate) fn close(kept: Parts<KeptLines, Global>) {
    drop(kept.into_box());
}

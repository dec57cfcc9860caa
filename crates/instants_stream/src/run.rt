//! The run over a stream, whole lines lent out of one buffer.
ghost use Rattle.std.specs.Prelude.{◌≡◌, ◌<◌, false, length, Err};
ghost use Rattle.std.specs.Io.KnownBytes.{Keeps};
ghost use Rattle.instants_stream.specs.Ran.{Ran};
ghost use Rattle.instants_stream.specs.Steps.{by_steps};

use crate::came::{write_came, write_end};
use crate::devices::{ByteReader, ByteWriter, DeviceFailed};
use crate::writes_lines::WritesLines;

/// Which device ended a run.
#[derive(Clone, Copy, Debug, PartialEq, Eq)]
pub enum RunFault {
    /// A read failed.
    Read,
    /// A write or the flush failed.
    Write,
}

/// Writes for each line that the reader gives.
///
/// A line with more bytes than the limit is written for in parts, as it comes. The buffer is longer than the limit. What is
/// written is handed on before each read, and the writer is flushed once, before `Ok`. A reader or a writer that failed isn't
/// tried again.
// Its caller is to be a function of its own, in which the reader, the writer and the buffer are known to lie apart.
#[inline(always)]
pub fn write_lines<S: WritesLines, R: ByteReader, W: ByteWriter>(
    steps: &mut S,
    limit: usize,
    buffer: &mut [u8],
    reader: &mut R,
    writer: &mut W,
) -> Result<(), RunFault>
    requires room { limit < length buffer.old }
    requires reader { R.failed reader.old ≡ false }
    requires writer { W.failed writer.old ≡ false }
    ensures ran { Ran (by_steps S.steps (S.state steps.old) limit)
        R.ByteReader reader.old reader.new W.ByteWriter writer.old writer.new result }
    // Before the read that failed all was handed on.
    ensures handed_on { result ≡ Err RunFault.Read
        → Keeps (W.held writer.new) (W.handed_on writer.new) }
{
    // The unfinished line stands from start to filled. Nothing of it is kept once it is begun.
    let mut start = 0;
    let mut filled = 0;
    let mut is_begun = false;
    loop {
        // Who waits for what was written before writing on is not kept waiting.
        if writer.hand_on().is_err() {
            return Err(RunFault::Write);
        }
        let Ok(count) = reader.read(&mut buffer[filled..]) else {
            return Err(RunFault::Read);
        };
        if count == 0 {
            break;
        }
        let searched = filled - start;
        filled += count;
        let pending = &buffer[start..filled];
        let Ok(left) = write_came(steps, limit, pending, searched, is_begun, writer) else {
            return Err(RunFault::Write);
        };
        start += left.start;
        is_begun = left.is_begun;
        if start == filled {
            start = 0;
            filled = 0;
        } else if filled == buffer.len() {
            buffer.copy_within(start.., 0);
            filled -= start;
            start = 0;
        }
    }
    if write_end(steps, &buffer[start..filled], is_begun, writer).is_err() {
        return Err(RunFault::Write);
    }
    if writer.flush().is_err() {
        return Err(RunFault::Write);
    }
    Ok(())
}

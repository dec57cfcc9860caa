//! Which formats date the lines of a stream.
ghost use Rattle.std.specs.Prelude.{◌≡◌, ◌≤◌, length, true, false, Err, IfOk, IfSome, OnOk, OnErr};
ghost use Rattle.std.specs.Io.KnownBytes.{Appends};
ghost use Rattle.instants_stream.specs.Known.{AppendsPrefix};
ghost use Rattle.instants_timeline.specs.Program.{ended_of};
ghost use Rattle.instants_guess.specs.Ran.{Ran};
ghost use Rattle.instants_guess.specs.Tallies.{most};

use crate::candidate::{Candidate, MOST};
use crate::formats::candidates;
use crate::line::whole_lines;
use crate::rank::put_in_order;
use crate::sample::read_sample;
use crate::text::Guess;
use instants_stream::{ByteReader, ByteWriter, DeviceFailed, RunFault};
use instants_timeline::RunsFault;
use std::alloc::{AllocError, Global};
use std::fmt::InlineText;

// No line has more than 256 bytes, and there are fewer than 64 formats.
const ROOM: usize = 16_384;

/// Writes which formats date the lines of a stream, and by which words, from the best to the worst.
///
/// The first 1048576 bytes of the stream are read and no more; a line that they cut is not counted. Each of rfc3339, rfc2822,
/// iso8601 and the formats that have a name is tried on each line by itself, wherever in the line its date begins. What the lines
/// of a format do not say is given: the offset +00:00, the year 2024, the time 00:00; where it is the user's to say a word in
/// capital letters stands for it. A format that dates no line is left out; where all are, those whose dates are in doubt are
/// written with the reason of the first.
///
/// All memory is taken before anything is read, and nothing is written before all is read. The writer is flushed at the end. A
/// device that failed ends it, and isn't tried again.
pub fn guess<R: ByteReader, W: ByteWriter>(
    alloc: Global,
    reader: &mut R,
    writer: &mut W,
) -> Result<(), RunsFault>
    requires reader { R.failed reader.old ≡ false }
    requires writer { W.failed writer.old ≡ false }
    // The first bytes were read, and some text was written, as far as the devices worked.
    ensures ran { IfSome (ended_of result)
        (Ran R.ByteReader reader.old reader.new W.ByteWriter writer.old writer.new) }
    // Where memory runs out the devices are as they were.
    ensures memory { result ≡ Err RunsFault.Memory
        → (reader.new ≡ reader.old) × (writer.new ≡ writer.old) }
{
    let Ok((mut formats, mut buffer)) = prepared(alloc) else {
        return Err(RunsFault::Memory);
    };
    run(
        formats.as_mut_slice(),
        buffer.as_mut_slice(),
        reader,
        writer,
    )?;
    Ok(())
}

// All formats that are tried, and room for the first bytes of a stream.
fn prepared(alloc: Global) -> Result<(Vec<Candidate>, Vec<u8>), AllocError>
    ensures { IfOk result (λ x. length x.1.items ≡ most) }
{
    let formats = candidates(alloc)?;
    let buffer = vec![in alloc; 0; MOST]?;
    Ok((formats, buffer))
}

// What is written for the lines of a text.
fn guessed(formats: &mut [Candidate], text: &[u8]) -> InlineText<ROOM>
    requires { length text.now ≤ most }
{
    for format in formats.iter_mut() {
        let found = format.tally(text);
        format.found = found;
    }
    put_in_order(formats);
    InlineText::of(Guess { formats, text })
}

// Writes a text, and flushes.
fn write_flushed<W: ByteWriter>(writer: &mut W, text: &[u8]) -> Result<(), DeviceFailed>
    requires { W.failed writer.old ≡ false }
    ensures written { OnOk result (Appends (W.held writer.old) (W.held writer.new) text.now) }
    ensures flushed { OnOk result (W.flushed writer.new ≡ true) }
    ensures ok { OnOk result (W.failed writer.new ≡ false) }
    ensures prefix { OnErr result
        (AppendsPrefix (W.held writer.old) (W.held writer.new) text.now) }
    ensures err { OnErr result (W.failed writer.new ≡ true) }
{
    writer.write_all(text)?;
    writer.flush()?;
    Ok(())
}

// Reads, counts and writes. A function of its own, in which the devices and the buffer are known to lie apart.
#[inline(never)]
fn run<R: ByteReader, W: ByteWriter>(
    formats: &mut [Candidate],
    buffer: &mut [u8],
    reader: &mut R,
    writer: &mut W,
) -> Result<(), RunFault>
    requires buffer { length buffer.old ≡ most }
    requires reader { R.failed reader.old ≡ false }
    requires writer { W.failed writer.old ≡ false }
    ensures { Ran R.ByteReader reader.old reader.new W.ByteWriter writer.old writer.new result }
{
    let Ok(len) = read_sample(reader, buffer) else {
        return Err(RunFault::Read);
    };
    let text = guessed(formats, whole_lines(&buffer[..len]));
    match write_flushed(writer, text.as_str().as_bytes()) {
        Ok(()) => Ok(()),
        Err(_) => Err(RunFault::Write),
    }
}

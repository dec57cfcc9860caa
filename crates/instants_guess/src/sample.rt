//! The first bytes of a stream.
ghost use Rattle.std.specs.Prelude.{◌≡◌, ◌<◌, ◌≤◌, ℕ, List, true, false, length, take, IfOk, OnOk, OnErr};
ghost use Rattle.std.specs.Io.KnownBytes.{Consumes, IsAtEnd};
ghost use Rattle.instants_stream.specs.Known.{ConsumesOrUnknown};

use instants_stream::{ByteReader, DeviceFailed};

/// Fills a buffer up to its end or that of the stream. How many bytes were read.
pub(crate) fn read_sample<R: ByteReader>(
    reader: &mut R,
    buffer: &mut [u8],
) -> Result<usize, DeviceFailed>
    requires { R.failed reader.old ≡ false }
    ensures within { IfOk result (λ count. count ≤ length buffer.new) }
    ensures read { IfOk result (λ count.
        Consumes (R.left reader.old) (R.left reader.new) (take count buffer.new)) }
    ensures whole { IfOk result (λ count.
        count < length buffer.new → IsAtEnd (R.left reader.new)) }
    ensures ok { OnOk result (R.failed reader.new ≡ false) }
    ensures err { OnErr result (R.failed reader.new ≡ true) }
    ensures consumed { OnErr result ((bytes : List ℕ) × (length bytes ≤ length buffer.old)
        × ConsumesOrUnknown (R.left reader.old) (R.left reader.new) bytes) }
{
    let mut filled = 0;
    while filled < buffer.len() {
        let count = reader.read(&mut buffer[filled..])?;
        if count == 0 {
            break;
        }
        filled += count;
    }
    Ok(filled)
}

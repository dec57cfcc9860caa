//! What writes for lines.
ghost use Rattle.std.specs.Prelude.{◌≡◌, true, false, OnOk, OnErr};
ghost use Rattle.std.specs.Io.KnownBytes.{Appends};
ghost use Rattle.instants_stream.specs.Known.{AppendsPrefix};
ghost use Rattle.instants_stream.specs.Steps.{Steps};

use crate::devices::{ByteWriter, DeviceFailed};

/// What writes for each line of a stream, and may keep something of it for the lines below.
///
/// A line with more bytes than the limit of the run is written for in parts: `begin_line` is called with its first bytes, one
/// more than the limit; the rest is handed on as it comes, or dropped; `end_line` or `end_last_line` is called at its end.
/// After a failed write nothing is said of the state.
pub trait WritesLines {
    /// What is kept of the lines above.
    ghost State: { Type 0 };

    ghost state: { Self → State };

    /// What is written for a line, its line feed included, and what is kept of it.
    ghost steps: { Steps State };

    /// Writes what there is to write for a line. None that is called with is longer than the limit of the run.
    fn write_line<W: ByteWriter>(&mut self, line: &[u8], writer: &mut W) -> Result<(), DeviceFailed>
        requires { W.failed writer.old ≡ false }
        ensures written { OnOk result (Appends (W.held writer.old) (W.held writer.new)
            (steps.said (state self.old) line.now)) }
        ensures next { OnOk result (state self.new ≡ steps.next (state self.old) line.now) }
        ensures ok { OnOk result (W.failed writer.new ≡ W.failed writer.old) }
        ensures prefix { OnErr result (AppendsPrefix (W.held writer.old) (W.held writer.new)
            (steps.said (state self.old) line.now)) }
        ensures err { OnErr result (W.failed writer.new ≡ true) };

    /// Writes what is due for a last line, which no line feed ends: nothing is kept of it.
    fn write_last_line<W: ByteWriter>(
        &mut self,
        line: &[u8],
        writer: &mut W,
    ) -> Result<(), DeviceFailed>
        requires { W.failed writer.old ≡ false }
        ensures written { OnOk result (Appends (W.held writer.old) (W.held writer.new)
            (steps.last_said (state self.old) line.now)) }
        ensures ok { OnOk result (W.failed writer.new ≡ W.failed writer.old) }
        ensures prefix { OnErr result (AppendsPrefix (W.held writer.old) (W.held writer.new)
            (steps.last_said (state self.old) line.now)) }
        ensures err { OnErr result (W.failed writer.new ≡ true) };

    /// Writes what there is to write for the first bytes of a longer line, and keeps what there is to keep of it.
    fn begin_line<W: ByteWriter>(
        &mut self,
        prefix: &[u8],
        writer: &mut W,
    ) -> Result<(), DeviceFailed>
        requires { W.failed writer.old ≡ false }
        ensures written { OnOk result (Appends (W.held writer.old) (W.held writer.new)
            (steps.begun (state self.old) prefix.now)) }
        ensures within { OnOk result (state self.new ≡ steps.within (state self.old) prefix.now) }
        ensures ok { OnOk result (W.failed writer.new ≡ W.failed writer.old) }
        ensures prefix { OnErr result (AppendsPrefix (W.held writer.old) (W.held writer.new)
            (steps.begun (state self.old) prefix.now)) }
        ensures err { OnErr result (W.failed writer.new ≡ true) };

    /// Learns how many bytes were searched for a line feed just now. A run searches each byte of a stream once, which no clause
    /// says: what counts the bytes can see it.
    #[inline(always)]
    fn note_searched(&self, _count: usize) {}

    /// Whether the bytes after those first ones are handed on.
    fn hands_on(&self) -> bool
        ensures { result ≡ steps.hands_on (state self.now) };

    /// Writes what there is to write at the end of a longer line, its line feed included.
    fn end_line<W: ByteWriter>(&self, writer: &mut W) -> Result<(), DeviceFailed>
        requires { W.failed writer.old ≡ false }
        ensures written { OnOk result (Appends (W.held writer.old) (W.held writer.new)
            (steps.ended (state self.now))) }
        ensures ok { OnOk result (W.failed writer.new ≡ W.failed writer.old) }
        ensures prefix { OnErr result (AppendsPrefix (W.held writer.old) (W.held writer.new)
            (steps.ended (state self.now))) }
        ensures err { OnErr result (W.failed writer.new ≡ true) };

    /// Writes what ends a longer last line, which no line feed ends.
    fn end_last_line<W: ByteWriter>(&self, writer: &mut W) -> Result<(), DeviceFailed>
        requires { W.failed writer.old ≡ false }
        ensures written { OnOk result (Appends (W.held writer.old) (W.held writer.new)
            (steps.last_ended (state self.now))) }
        ensures ok { OnOk result (W.failed writer.new ≡ W.failed writer.old) }
        ensures prefix { OnErr result (AppendsPrefix (W.held writer.old) (W.held writer.new)
            (steps.last_ended (state self.now))) }
        ensures err { OnErr result (W.failed writer.new ≡ true) };
}

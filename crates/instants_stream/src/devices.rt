//! The traits of devices.

ghost use Rattle.std.specs.Prelude.{◌≡◌, ◌<◌, ◌≤◌, ℕ, Bool, true, false, List, [], ◌∷◌, ◌++◌, length, take, Option, IfOk, OnOk, OnErr};
ghost use Rattle.std.specs.Io.KnownBytes.{Consumes, Appends, Keeps, IsAtEnd};
ghost use Rattle.base.specs.Bytes.{line_feed};
ghost use Rattle.instants_stream.specs.Known.{StaysOrUnknown, AppendsPrefix};

use crate::answers_lines::AnswersLines;
use crate::search::LINE_FEED;

/// A device failed.
#[derive(Clone, Copy, Debug, PartialEq, Eq)]
pub struct DeviceFailed;

/// What bytes are read from.
///
/// A read that failed is the last: what has failed can't be read again.
pub trait ByteReader {
    /// The bytes that reads will give from here on, where the reader tells them.
    ghost left: { Self → Option (List ℕ) };

    /// Whether a read has failed.
    ghost failed: { Self → Bool };

    /// A number that each read which gives bytes lowers.
    ghost reads_left: { Self → ℕ };

    /// Moves bytes to the start of `into`, and says how many: none only into an empty slice or at
    /// the end.
    fn read(&mut self, into: &mut [u8]) -> Result<usize, DeviceFailed>
        requires { failed self.old ≡ false }
        ensures within { IfOk result (λ count. count ≤ length into.new) }
        ensures moved { IfOk result (λ count.
            Consumes (left self.old) (left self.new) (take count into.new)) }
        ensures none { IfOk result (λ count.
            count ≡ 0 → 0 < length into.new → IsAtEnd (left self.new)) }
        ensures ends { IfOk result (λ count.
            0 < count → reads_left self.new < reads_left self.old) }
        ensures ok { OnOk result (failed self.new ≡ failed self.old) }

        ensures err { OnErr result (failed self.new ≡ true) }
        ensures kept { OnErr result (StaysOrUnknown (left self.old) (left self.new)) };

    /// Whether a read has failed.
    fn has_failed(&self) -> bool
        ensures { result ≡ failed self.now };
}

/// What bytes are written to.
///
/// A write or a flush that failed is the last: what has failed can't be written to again.
pub trait ByteWriter {
    /// The bytes that the writer holds, where it tells them.
    ghost held: { Self → Option (List ℕ) };

    /// Whether a write or a flush has failed.
    ghost failed: { Self → Bool };

    /// Whether there was no write since the last flush.
    ghost flushed: { Self → Bool };

    /// Of the bytes that the writer holds those that it has handed on, where it tells them: all, but for a writer that
    /// gathers bytes.
    ghost handed_on: { Self → Option (List ℕ) };

    /// Takes bytes from the start of `from`, and says how many: none only from an empty slice.
    fn write(&mut self, from: &[u8]) -> Result<usize, DeviceFailed>
        requires { failed self.old ≡ false }
        ensures within { IfOk result (λ count. count ≤ length from.now) }
        ensures moved { IfOk result (λ count.
            Appends (held self.old) (held self.new) (take count from.now)) }
        ensures unflushed { flushed self.new ≡ false }
        ensures none { IfOk result (λ count. 0 < length from.now → 0 < count) }
        ensures ok { OnOk result (failed self.new ≡ failed self.old) }

        ensures err { OnErr result (failed self.new ≡ true) }
        ensures kept { OnErr result (StaysOrUnknown (held self.old) (held self.new)) };

    /// Flushes what was written, here and below.
    fn flush(&mut self) -> Result<(), DeviceFailed>
        requires { failed self.old ≡ false }
        ensures moved { OnOk result (Keeps (held self.old) (held self.new)) }
        ensures flushed { OnOk result (flushed self.new ≡ true) }
        // Nothing is held back.
        ensures all { OnOk result (Keeps (held self.new) (handed_on self.new)) }
        ensures ok { OnOk result (failed self.new ≡ failed self.old) }

        ensures err { OnErr result (failed self.new ≡ true) }
        ensures kept { OnErr result (StaysOrUnknown (held self.old) (held self.new)) };

    /// Whether there was no write since the last flush.
    fn is_flushed(&self) -> bool
        ensures { result ≡ flushed self.now };

    /// Whether a write or a flush has failed.
    fn has_failed(&self) -> bool
        ensures { result ≡ failed self.now };

    /// Hands on to the writer below what this one holds back, so that it need not wait for more bytes or a flush.
    ///
    /// A writer that holds nothing back does nothing. This is no flush, and its failure is that of a write.
    fn hand_on(&mut self) -> Result<(), DeviceFailed>
        requires { failed self.old ≡ false }
        ensures held { OnOk result (Keeps (held self.old) (held self.new)) }
        // Nothing is held back.
        ensures all { OnOk result (Keeps (held self.new) (handed_on self.new)) }
        ensures flushed { OnOk result (flushed self.new ≡ flushed self.old) }
        ensures ok { OnOk result (failed self.new ≡ failed self.old) }

        ensures err { OnErr result (failed self.new ≡ true) }
        ensures kept { OnErr result (StaysOrUnknown (held self.old) (held self.new)) };

    /// Writes all of the bytes. The first write that fails ends it, and a prefix of them is written.
    #[inline(always)]
    fn write_all(&mut self, bytes: &[u8]) -> Result<(), DeviceFailed>
        requires { failed self.old ≡ false }
        ensures written { OnOk result (Appends (held self.old) (held self.new) bytes.now) }
        ensures ok { OnOk result (failed self.new ≡ failed self.old) }
        ensures unflushed { OnOk result (0 < length bytes.now → flushed self.new ≡ false) }

        ensures prefix { OnErr result (AppendsPrefix (held self.old) (held self.new) bytes.now) }
        ensures err { OnErr result (failed self.new ≡ true) }
    {
        let mut rest = bytes;
        while !rest.is_empty() {
            let count = self.write(rest)?;
            rest = &rest[count..];
        }
        Ok(())
    }

    /// Writes one byte.
    #[inline(always)]
    fn write_byte(&mut self, byte: u8) -> Result<(), DeviceFailed>
        requires { failed self.old ≡ false }
        ensures written { OnOk result (Appends (held self.old) (held self.new) (byte ∷ [])) }
        ensures ok { OnOk result (failed self.new ≡ failed self.old) }
        ensures unflushed { OnOk result (flushed self.new ≡ false) }

        ensures prefix { OnErr result (AppendsPrefix (held self.old) (held self.new) (byte ∷ [])) }
        ensures err { OnErr result (failed self.new ≡ true) }
    {
        self.write_all(&[byte])
    }

    /// Writes all of the first `len` bytes. The first write that fails ends it, and a prefix of them is written.
    ///
    /// A writer into memory can copy all 64 bytes, whatever the length is, which takes fewer instructions.
    fn write_prefix(&mut self, bytes: &[u8; 64], len: usize) -> Result<(), DeviceFailed>
        requires works { failed self.old ≡ false }
        requires within { len ≤ 64 }
        ensures written { OnOk result
            (Appends (held self.old) (held self.new) (take len bytes.now)) }
        ensures ok { OnOk result (failed self.new ≡ failed self.old) }
        ensures unflushed { OnOk result (0 < len → flushed self.new ≡ false) }

        ensures prefix { OnErr result
            (AppendsPrefix (held self.old) (held self.new) (take len bytes.now)) }
        ensures err { OnErr result (failed self.new ≡ true) }
    {
        self.write_all(&bytes[..len])
    }

    /// Writes the answer to a line, and a line feed. The first write that fails ends it, and a prefix of them is written.
    ///
    /// A writer that gathers bytes has the answer written where it is to lie.
    fn write_answer<A: AnswersLines>(
        &mut self,
        answers: &A,
        line: &[u8],
    ) -> Result<(), DeviceFailed>
        requires { failed self.old ≡ false }
        ensures written { OnOk result (Appends (held self.old) (held self.new)
            (A.answer answers.now line.now ++ line_feed ∷ [])) }
        ensures ok { OnOk result (failed self.new ≡ failed self.old) }
        ensures unflushed { OnOk result (flushed self.new ≡ false) }

        ensures prefix { OnErr result (AppendsPrefix (held self.old) (held self.new)
            (A.answer answers.now line.now ++ line_feed ∷ [])) }
        ensures err { OnErr result (failed self.new ≡ true) }
    {
        let mut answer = answers.answer_line(line);
        answer.push(LINE_FEED);
        self.write_all(answer.as_bytes())
    }
}

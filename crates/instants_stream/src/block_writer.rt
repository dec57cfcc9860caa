//! A writer that gathers bytes in a block, and hands whole blocks on.
ghost use Rattle.std.specs.Prelude.{◌≡◌, ◌&&◌, ◌+◌, ◌<◌, ◌≤◌, [], ◌∷◌, ◌++◌, false, true, take, length, vec_len, IfOk, OnOk, OnErr};
ghost use Rattle.std.specs.Io.KnownBytes.{Appends, Keeps};
ghost use Rattle.base.specs.Bytes.{line_feed};
ghost use Rattle.instants_stream.specs.Known.{StaysOrUnknown, AppendsPrefix};

use crate::answers_lines::AnswersLines;
use crate::devices::{ByteWriter, DeviceFailed};
use crate::search::LINE_FEED;
use std::simd::prelude::*;

/// Writes to another writer, a block at a time.
///
/// It holds what the other writer holds, and after that the bytes that were gathered. After a failure it makes no
/// call any more, and dropping it makes none: what was not handed on then is lost, and `write` has said so.
#[derive(Drop)]
pub struct BlockWriter<W> {
    inner: W,
    block: Vec<u8>,
    start: usize,
    end: usize,
    is_flushed: bool,
    ghost ordered: { start ≤ end },
    ghost within: { end ≤ vec_len block },
    ghost some: { 0 < vec_len block },
    ghost unwritten: { is_flushed ≡ true → end ≡ 0 },
}

// Puts bytes into the block, after as many as stand before the place.
#[inline(always)]
fn put(block: &mut Vec<u8>, at: usize, bytes: &[u8])
    requires { at + length bytes.now ≤ vec_len block.old }
    ensures prefix { take (at + length bytes.now) block.new.items
        ≡ take at block.old.items ++ bytes.now }
    ensures len { vec_len block.new ≡ vec_len block.old }
{
    block[at..at + bytes.len()].copy_from_slice(bytes);
}

// Puts 64 bytes into the block, all read before one is written: nothing asks whether they lie apart from the block.
#[inline(always)]
fn put_lanes(block: &mut [u8], at: usize, bytes: &[u8; 64])
    requires { at + 64 ≤ length block.old }
    ensures prefix { take (at + length bytes.now) block.new ≡ take at block.old ++ bytes.now }
    ensures len { length block.new ≡ length block.old }
{
    u8x64::from_slice(bytes).copy_to_slice(&mut block[at..]);
}

// Has the answer to a line written into the block, after as many bytes as stand before the place, and tells how many it is
// with its line feed.
#[inline(always)]
fn fill_at<A: AnswersLines>(block: &mut [u8], at: usize, answers: &A, line: &[u8]) -> usize
    requires { at + 64 ≤ length block.old }
    ensures prefix { take (at + result) block.new
        ≡ take at block.old ++ (A.answer answers.now line.now ++ line_feed ∷ []) }
    ensures most { result ≤ 64 }
    ensures len { length block.new ≡ length block.old }
{
    answers.fill_answer(line, &mut block[at..])
}

// The same in a vector.
#[inline(always)]
fn put_answer<A: AnswersLines>(block: &mut Vec<u8>, at: usize, answers: &A, line: &[u8]) -> usize
    requires { at + 64 ≤ vec_len block.old }
    ensures prefix { take (at + result) block.new.items
        ≡ take at block.old.items ++ (A.answer answers.now line.now ++ line_feed ∷ []) }
    ensures most { result ≤ 64 }
    ensures len { vec_len block.new ≡ vec_len block.old }
{
    fill_at(block, at, answers, line)
}

// Puts 64 bytes into the block.
#[inline(always)]
fn put_all(block: &mut Vec<u8>, at: usize, bytes: &[u8; 64])
    requires { at + 64 ≤ vec_len block.old }
    ensures prefix { take (at + length bytes.now) block.new.items
        ≡ take at block.old.items ++ bytes.now }
    ensures len { vec_len block.new ≡ vec_len block.old }
{
    put_lanes(block, at, bytes);
}

impl<W: ByteWriter> BlockWriter<W> {
    ghost use Rattle.instants_stream.specs.Gathering.{held_by};

    /// Gathers bytes in the block, all of which it may use. What is gathered is written to the other writer where the
    /// block is full, by `hand_on`, and by `flush`.
    pub fn new(block: Vec<u8>, inner: W) -> Self
        requires { 0 < vec_len block }
        ensures held { Keeps (W.held inner) (⟦<BlockWriter<W> as ByteWriter>⟧.held result) }
        ensures failed { ⟦<BlockWriter<W> as ByteWriter>⟧.failed result ≡ W.failed inner }
        ensures flushed { ⟦<BlockWriter<W> as ByteWriter>⟧.flushed result ≡ false }
    {
        BlockWriter {
            inner,
            block,
            start: 0,
            end: 0,
            is_flushed: false,
        }
    }

    // Writes all that was gathered to the other writer.
    #[inline(never)]
    fn write_block(&mut self) -> Result<(), DeviceFailed>
        requires { W.failed self.old.inner ≡ false }
        ensures held { OnOk result (Keeps (held_by W.held self.old) (W.held self.new.inner)) }
        ensures empty { OnOk result (self.new.end ≡ 0) }
        ensures ok { OnOk result (W.failed self.new.inner ≡ W.failed self.old.inner) }
        ensures kept { OnErr result
            (StaysOrUnknown (held_by W.held self.old) (held_by W.held self.new)) }
        ensures err { OnErr result (W.failed self.new.inner ≡ true) }
        ensures flushed { self.new.is_flushed ≡ self.old.is_flushed }
    {
        while self.start < self.end {
            let count = self.inner.write(&self.block[self.start..self.end])?;
            self.start += count;
        }
        self.start = 0;
        self.end = 0;
        Ok(())
    }

    // Puts bytes into the block, which has room for them.
    #[inline(always)]
    fn gather(&mut self, from: &[u8])
        requires room { self.old.end + length from.now ≤ vec_len self.old.block }
        requires unflushed { self.old.is_flushed ≡ false }
        ensures moved { Appends (held_by W.held self.old) (held_by W.held self.new) from.now }
        ensures inner { self.new.inner ≡ self.old.inner }
        ensures flushed { self.new.is_flushed ≡ self.old.is_flushed }
    {
        put(&mut self.block, self.end, from);
        self.end += from.len();
    }

    // Makes room, and puts as many of the bytes into the block as it takes.
    #[cold]
    #[inline(never)]
    fn write_past_end(&mut self, from: &[u8]) -> Result<usize, DeviceFailed>
        requires works { W.failed self.old.inner ≡ false }
        requires unflushed { self.old.is_flushed ≡ false }
        ensures within { IfOk result (λ count. count ≤ length from.now) }
        ensures moved { IfOk result (λ count.
            Appends (held_by W.held self.old) (held_by W.held self.new)
            (take count from.now)) }
        ensures none { IfOk result (λ count. 0 < length from.now → 0 < count) }
        ensures ok { OnOk result (W.failed self.new.inner ≡ W.failed self.old.inner) }
        ensures kept { OnErr result
            (StaysOrUnknown (held_by W.held self.old) (held_by W.held self.new)) }
        ensures err { OnErr result (W.failed self.new.inner ≡ true) }
        ensures flushed { self.new.is_flushed ≡ self.old.is_flushed }
    {
        self.write_block()?;
        let count = from.len().min(self.block.len());
        self.gather(&from[..count]);
        Ok(count)
    }

    // Writes the first bytes where the block has no room for all 64. They go by the block, however short it is: if their
    // address got to a device, the compiler would no longer know that they lie apart from the block, at six instructions
    // more a line.
    #[cold]
    #[inline(never)]
    fn write_prefix_past_end(&mut self, bytes: &[u8; 64], len: usize) -> Result<(), DeviceFailed>
        requires works { W.failed self.old.inner ≡ false }
        requires within { len ≤ 64 }
        ensures written { OnOk result (Appends
            (held_by W.held self.old) (held_by W.held self.new) (take len bytes.now)) }
        ensures ok { OnOk result (W.failed self.new.inner ≡ W.failed self.old.inner) }
        ensures unflushed { OnOk result (0 < len →
            ⟦<BlockWriter<W> as ByteWriter>⟧.flushed self.new ≡ false) }
        ensures prefix { OnErr result (AppendsPrefix
            (held_by W.held self.old) (held_by W.held self.new) (take len bytes.now)) }
        ensures err { OnErr result (W.failed self.new.inner ≡ true) }
    {
        self.write_all(&bytes[..len])
    }

    // Writes one byte where the block has no room for it.
    #[cold]
    #[inline(never)]
    fn write_byte_past_end(&mut self, byte: u8) -> Result<(), DeviceFailed>
        requires { W.failed self.old.inner ≡ false }
        ensures written { OnOk result
            (Appends (held_by W.held self.old) (held_by W.held self.new) (byte ∷ [])) }
        ensures ok { OnOk result (W.failed self.new.inner ≡ W.failed self.old.inner) }
        ensures unflushed { OnOk result
            (⟦<BlockWriter<W> as ByteWriter>⟧.flushed self.new ≡ false) }
        ensures prefix { OnErr result
            (AppendsPrefix (held_by W.held self.old) (held_by W.held self.new) (byte ∷ [])) }
        ensures err { OnErr result (W.failed self.new.inner ≡ true) }
    {
        self.write_all(&[byte])
    }

    // Writes the answer to a line, and a line feed, where the block has no room for 64 bytes.
    #[cold]
    #[inline(never)]
    fn write_answer_past_end<A: AnswersLines>(
        &mut self,
        answers: &A,
        line: &[u8],
    ) -> Result<(), DeviceFailed>
        requires { W.failed self.old.inner ≡ false }
        ensures written { OnOk result (Appends (held_by W.held self.old) (held_by W.held self.new)
            (A.answer answers.now line.now ++ line_feed ∷ [])) }
        ensures ok { OnOk result (W.failed self.new.inner ≡ W.failed self.old.inner) }
        ensures unflushed { OnOk result
            (⟦<BlockWriter<W> as ByteWriter>⟧.flushed self.new ≡ false) }
        ensures prefix { OnErr result (AppendsPrefix
            (held_by W.held self.old) (held_by W.held self.new)
            (A.answer answers.now line.now ++ line_feed ∷ [])) }
        ensures err { OnErr result (W.failed self.new.inner ≡ true) }
    {
        let mut answer = answers.answer_line(line);
        answer.push(LINE_FEED);
        self.write_all(answer.as_bytes())
    }
}

impl<W: ByteWriter> ByteWriter for BlockWriter<W> {
    ghost use Rattle.instants_stream.specs.Gathering.{held_by, held_below};

    ghost held = { λ s. held_by W.held s };

    ghost failed = { λ s. W.failed s.inner };

    ghost flushed = { λ s. s.is_flushed && W.flushed s.inner };

    ghost handed_on = { λ s. W.handed_on s.inner };

    #[inline(always)]
    fn write(&mut self, from: &[u8]) -> Result<usize, DeviceFailed> {
        self.is_flushed = false;
        if self.block.len() - self.end < from.len() {
            return self.write_past_end(from);
        }
        self.gather(from);
        Ok(from.len())
    }

    fn flush(&mut self) -> Result<(), DeviceFailed> {
        self.write_block()?;
        self.inner.flush()?;
        self.is_flushed = true;
        Ok(())
    }

    fn is_flushed(&self) -> bool {
        self.is_flushed && self.inner.is_flushed()
    }

    fn has_failed(&self) -> bool {
        self.inner.has_failed()
    }

    // (a call before each read leaves the loop over lines its registers)
    #[inline(never)]
    fn hand_on(&mut self) -> Result<(), DeviceFailed>
        requires { W.failed self.old.inner ≡ false }
        ensures held { OnOk result (Keeps (held_by W.held self.old) (held_by W.held self.new)) }
        // Nothing is held back, here and below.
        ensures below { OnOk result (Keeps (held_by W.held self.old) (held_below W.held self.new)) }
        ensures all { OnOk result (Keeps (held_by W.held self.new)
            (⟦<BlockWriter<W> as ByteWriter>⟧.handed_on self.new)) }
        ensures flushed { OnOk result (⟦<BlockWriter<W> as ByteWriter>⟧.flushed self.new
            ≡ ⟦<BlockWriter<W> as ByteWriter>⟧.flushed self.old) }
        ensures ok { OnOk result (W.failed self.new.inner ≡ W.failed self.old.inner) }

        ensures err { OnErr result (W.failed self.new.inner ≡ true) }
        ensures kept { OnErr result
            (StaysOrUnknown (held_by W.held self.old) (held_by W.held self.new)) }
    {
        if self.end > 0 {
            self.write_block()?;
        }
        self.inner.hand_on()
    }

    #[inline(always)]
    fn write_byte(&mut self, byte: u8) -> Result<(), DeviceFailed> {
        if self.end == self.block.len() {
            self.write_byte_past_end(byte)?;
            return Ok(());
        }
        self.is_flushed = false;
        self.gather(&[byte]);
        Ok(())
    }

    // All 64 bytes are put into the block, which needs no test of how many they are.
    #[inline(always)]
    fn write_prefix(&mut self, bytes: &[u8; 64], len: usize) -> Result<(), DeviceFailed> {
        if self.block.len() - self.end < 64 {
            self.write_prefix_past_end(bytes, len)?;
            return Ok(());
        }
        self.is_flushed = false;
        put_all(&mut self.block, self.end, bytes);
        self.end += len;
        Ok(())
    }

    // The answer is written where it is to lie: bytes that are written in small pieces and read in large ones at once wait for
    // one another.
    #[inline(always)]
    fn write_answer<A: AnswersLines>(
        &mut self,
        answers: &A,
        line: &[u8],
    ) -> Result<(), DeviceFailed> {
        if self.block.len() - self.end < 64 {
            self.write_answer_past_end(answers, line)?;
            return Ok(());
        }
        self.is_flushed = false;
        let count = put_answer(&mut self.block, self.end, answers, line);
        self.end += count;
        Ok(())
    }
}

//! The run where each line is answered by itself.
ghost use Rattle.std.specs.Prelude.{◌≡◌, ◌<◌, false, [], ◌∷◌, ◌++◌, codes, length, Err};
ghost use Rattle.std.specs.Io.KnownBytes.{Keeps};
ghost use Rattle.base.specs.Bytes.{line_feed};
ghost use Rattle.instants_stream.specs.Ran.{Ran};
ghost use Rattle.instants_stream.specs.Answers.{by_answers};
ghost use Rattle.instants_stream.specs.Wrote.{Wrote};

use crate::answers_lines::AnswersLines;
use crate::devices::{ByteReader, ByteWriter, DeviceFailed};
use crate::run::{RunFault, write_lines};
use crate::search::LINE_FEED;
use crate::writes_lines::WritesLines;

// Writes the answer to a last line, which no line feed ends.
#[cold]
#[inline(never)]
fn write_last_answer<A: AnswersLines, W: ByteWriter>(
    answers: &A,
    line: &[u8],
    writer: &mut W,
) -> Result<(), DeviceFailed>
    requires { W.failed writer.old ≡ false }
    ensures { Wrote W.ByteWriter writer.old writer.new result
        (A.answer answers.now line.now ++ line_feed ∷ []) }
{
    let mut answer = answers.answer_line(line);
    answer.push(LINE_FEED);
    writer.write_all(answer.as_bytes())
}

// Writes that a line is too long, and a line feed.
#[cold]
#[inline(never)]
fn write_long<W: ByteWriter>(writer: &mut W) -> Result<(), DeviceFailed>
    requires { W.failed writer.old ≡ false }
    ensures { Wrote W.ByteWriter writer.old writer.new result
        (codes "! long" ++ line_feed ∷ []) }
{
    writer.write_all(b"! long\n")
}

// What answers lines.
#[derive(Drop)]
struct Answering<'a, A> {
    answers: &'a A,
}

impl<'a, A: AnswersLines> Answering<'a, A> {
    #[inline(always)]
    fn new(answers: &'a A) -> Answering<'a, A>
        ensures { result.answers.now ≡ answers.now }
    {
        Answering { answers }
    }
}

impl<A: AnswersLines> WritesLines for Answering<'_, A> {
    ghost use Rattle.std.specs.Prelude.{ℕ, List};
    ghost use Rattle.instants_stream.specs.Answering.{answering};

    ghost State = { List ℕ → List ℕ };

    ghost state = { λ s. A.answer s.answers.now };

    ghost steps = { answering };

    #[inline(always)]
    fn write_line<W: ByteWriter>(
        &mut self,
        line: &[u8],
        writer: &mut W,
    ) -> Result<(), DeviceFailed> {
        writer.write_answer(self.answers, line)
    }

    #[inline(always)]
    fn write_last_line<W: ByteWriter>(
        &mut self,
        line: &[u8],
        writer: &mut W,
    ) -> Result<(), DeviceFailed> {
        write_last_answer(self.answers, line, writer)
    }

    // Nothing is written before the end of a line that is too long.
    #[inline(always)]
    fn begin_line<W: ByteWriter>(
        &mut self,
        _prefix: &[u8],
        _writer: &mut W,
    ) -> Result<(), DeviceFailed> {
        Ok(())
    }

    #[inline(always)]
    fn hands_on(&self) -> bool {
        false
    }

    #[inline(always)]
    fn end_line<W: ByteWriter>(&self, writer: &mut W) -> Result<(), DeviceFailed> {
        write_long(writer)
    }

    #[inline(always)]
    fn end_last_line<W: ByteWriter>(&self, writer: &mut W) -> Result<(), DeviceFailed> {
        write_long(writer)
    }
}

/// Writes the answer to each line that the reader gives, and a line feed after each answer.
///
/// A line with more bytes than the limit is answered `! long`. The buffer is longer than the limit.
/// What is answered is handed on before each read, and the writer is flushed once, before `Ok`. A reader or a writer
/// that failed isn't tried again.
// A function of its own, in which the reader, the writer and the buffer are known to lie apart.
#[inline(never)]
pub fn run_lines<A: AnswersLines, R: ByteReader, W: ByteWriter>(
    answers: &A,
    limit: usize,
    buffer: &mut [u8],
    reader: &mut R,
    writer: &mut W,
) -> Result<(), RunFault>
    requires room { limit < length buffer.old }
    requires reader { R.failed reader.old ≡ false }
    requires writer { W.failed writer.old ≡ false }
    ensures ran { Ran (by_answers (A.answer answers.now) limit)
        R.ByteReader reader.old reader.new W.ByteWriter writer.old writer.new result }
    // Before the read that failed all was handed on.
    ensures handed_on { result ≡ Err RunFault.Read
        → Keeps (W.held writer.new) (W.handed_on writer.new) }
{
    write_lines(&mut Answering::new(answers), limit, buffer, reader, writer)
}

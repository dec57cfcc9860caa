//! The lines of a stream, written one after another.
ghost use Rattle.std.specs.Prelude.{◌≡◌, ◌++◌, [], ◌∷◌, false, OnOk};
ghost use Rattle.base.specs.Bytes.{line_feed};
ghost use Rattle.instants_lines.specs.Going.{next_in, text_in};
ghost use Rattle.instants_lines.specs.Writing.{going_of};
ghost use Rattle.instants_lines.specs.Wrote.{Wrote};

use crate::explained::write_explained;
use crate::line_writer::LineWriter;
use instants_lines_words::Mode;
use instants_stream::{ByteWriter, DeviceFailed, WritesLines};

impl LineWriter<'_, '_> {
    // Writes the text for a line in any mode, without a line feed: a call beside the loop over lines, which has the modes with
    // keys of whole lines alone.
    #[cold]
    #[inline(never)]
    fn write_text<W: ByteWriter>(&mut self, line: &[u8], writer: &mut W) -> Result<(), DeviceFailed>
        requires { W.failed writer.old ≡ false }
        ensures wrote { Wrote W.ByteWriter writer.old writer.new result
            (text_in (going_of self.old).mode (going_of self.old) line.now) }
        ensures next { OnOk result (going_of self.new ≡ next_in (going_of self.old).mode (going_of self.old) line.now) }
    {
        match self.mode {
            Mode::Key | Mode::Carry => self.write_keyed_text(line, writer),
            Mode::Replace => self.write_replaced(line, writer),
            Mode::Explain => write_explained(self.dates, line, writer),
            Mode::Locate => self.write_located(line, writer),
        }
    }

    // The same with a line feed.
    #[cold]
    #[inline(never)]
    #[tactic(auto, using(crate::proofs::Turns::in_turn))]
    fn write_text_line<W: ByteWriter>(
        &mut self,
        line: &[u8],
        writer: &mut W,
    ) -> Result<(), DeviceFailed>
        requires { W.failed writer.old ≡ false }
        ensures wrote { Wrote W.ByteWriter writer.old writer.new result
            (text_in (going_of self.old).mode (going_of self.old) line.now ++ line_feed ∷ []) }
        ensures next { OnOk result (going_of self.new ≡ next_in (going_of self.old).mode (going_of self.old) line.now) }
    {
        self.write_text(line, writer)?;
        writer.write_all(b"\n")
    }
}

impl WritesLines for LineWriter<'_, '_> {
    ghost use Rattle.instants_lines.specs.Going.{Going, lines_steps};
    ghost use Rattle.instants_lines.specs.Writing.{going_of};

    ghost State = { Going };

    ghost state = { λ w. going_of w };

    ghost steps = { lines_steps };

    #[inline(always)]
    fn write_line<W: ByteWriter>(
        &mut self,
        line: &[u8],
        writer: &mut W,
    ) -> Result<(), DeviceFailed> {
        match (self.mode, &self.dates.part) {
            (Mode::Key | Mode::Carry, None) => self.write_keyed(line, writer),
            _ => self.write_text_line(line, writer),
        }
    }

    #[cold]
    #[inline(never)]
    fn write_last_line<W: ByteWriter>(
        &mut self,
        line: &[u8],
        writer: &mut W,
    ) -> Result<(), DeviceFailed> {
        match self.mode {
            Mode::Replace => self.write_text(line, writer),
            Mode::Key | Mode::Carry | Mode::Explain | Mode::Locate => {
                self.write_text_line(line, writer)
            }
        }
    }

    #[cold]
    #[inline(never)]
    fn begin_line<W: ByteWriter>(
        &mut self,
        prefix: &[u8],
        writer: &mut W,
    ) -> Result<(), DeviceFailed> {
        match self.mode {
            Mode::Explain => Ok(()),
            Mode::Key | Mode::Carry | Mode::Replace | Mode::Locate => {
                self.write_text(prefix, writer)
            }
        }
    }

    fn hands_on(&self) -> bool {
        match self.mode {
            Mode::Key | Mode::Carry | Mode::Replace => true,
            Mode::Explain | Mode::Locate => false,
        }
    }

    fn end_line<W: ByteWriter>(&self, writer: &mut W) -> Result<(), DeviceFailed> {
        match self.mode {
            Mode::Key | Mode::Carry | Mode::Replace | Mode::Locate => writer.write_all(b"\n"),
            Mode::Explain => writer.write_all(b"! long\n"),
        }
    }

    fn end_last_line<W: ByteWriter>(&self, writer: &mut W) -> Result<(), DeviceFailed> {
        match self.mode {
            Mode::Key | Mode::Carry | Mode::Locate => writer.write_all(b"\n"),
            Mode::Replace => Ok(()),
            Mode::Explain => writer.write_all(b"! long\n"),
        }
    }
}

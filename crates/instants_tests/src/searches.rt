//! How many bytes a run searches for line feeds: each once, however few bytes a read gives. No clause says so.

use instants_stream::{
    ByteWriter, CutReader, CutWriter, DeviceFailed, RunFault, WritesLines, write_lines,
};
use std::cell::Cell;
use std::test::Fail;

// A line of so many bytes, and a buffer that has room for it.
const LONG: usize = 65_536;

// Writes nothing, and counts the bytes that are searched.
#[derive(Drop)]
struct Counting {
    searched: Cell<usize>,
}

impl WritesLines for Counting {
    ghost use Rattle.std.specs.Prelude.{[], false};

    ghost State = { Unit {0} };

    ghost state = { λ _. tt };

    ghost steps = { record {
      said = λ _ _. [];
      next = λ state _. state;
      last_said = λ _ _. [];
      begun = λ _ _. [];
      within = λ state _. state;
      hands_on = λ _. false;
      ended = λ _. [];
      last_ended = λ _. [];
    } };

    fn write_line<W: ByteWriter>(
        &mut self,
        _line: &[u8],
        _writer: &mut W,
    ) -> Result<(), DeviceFailed> {
        Ok(())
    }

    fn write_last_line<W: ByteWriter>(
        &mut self,
        _line: &[u8],
        _writer: &mut W,
    ) -> Result<(), DeviceFailed> {
        Ok(())
    }

    fn begin_line<W: ByteWriter>(
        &mut self,
        _prefix: &[u8],
        _writer: &mut W,
    ) -> Result<(), DeviceFailed> {
        Ok(())
    }

    fn note_searched(&self, count: usize) {
        self.searched.set(self.searched.get().saturating_add(count));
    }

    fn hands_on(&self) -> bool {
        false
    }

    fn end_line<W: ByteWriter>(&self, _writer: &mut W) -> Result<(), DeviceFailed> {
        Ok(())
    }

    fn end_last_line<W: ByteWriter>(&self, _writer: &mut W) -> Result<(), DeviceFailed> {
        Ok(())
    }
}

// How a run over a stream ends whose reads give at most so many bytes, under a limit for which the buffer has room, and how many
// bytes it searches.
fn searched(
    stream: &[u8],
    most: usize,
    limit: usize,
    buffer: &mut [u8],
) -> Option<(Result<(), RunFault>, usize)> {
    if most == 0 || limit >= buffer.len() {
        return None;
    }
    let mut counting = Counting {
        searched: Cell::new(0),
    };
    let mut reader = CutReader::new(stream, most, None);
    let mut writer = CutWriter::new(&mut [], 1, None);
    let ended = write_lines(&mut counting, limit, buffer, &mut reader, &mut writer);
    Some((ended, counting.searched.get()))
}

// A long line, a short one and an empty one, one byte a read and many, in a buffer for the whole line and in one that is soon full.
#[test]
fn each_byte_is_searched_once(rt: HostRuntime) -> Result<(), Fail> {
    let mut stream = vec![in rt.alloc(); b'x'; LONG]?;
    for byte in b"\nxy\n\nxyz" {
        stream.push(*byte)?;
    }
    let mut buffer = vec![in rt.alloc(); 0; LONG + 1]?;
    for (most, limit) in [(1, LONG), (7, LONG), (5000, LONG), (1, 100), (300, 100)] {
        let counted = searched(stream.as_slice(), most, limit, buffer.as_mut_slice());
        assert!(rt; counted == Some((Ok(()), LONG + 5)));
    }
    Ok(())
}

//! Devices of std that fail once and work again: how often they are called, by our devices and by runs.

ghost use Rattle.std.specs.Prelude.{◌<◌, vec_len};

use crate::streams::{ByLength, STREAM};
use instants_stream::{
    BlockWriter, ByteReader, ByteWriter, CutReader, CutWriter, DeviceFailed, RunFault, StdReader,
    StdWriter, run_lines,
};
use std::alloc::Global;
use std::io::{Error, ErrorKind, Read, Result as IoResult, Write};

// A device of std whose call at one place fails once. It gives and takes so many bytes a call.
#[derive(Drop)]
struct Counted<'a> {
    calls: &'a mut u8,
    fails_at: u8,
    moves: usize,
}

impl Counted<'_> {
    fn answer(&mut self) -> IoResult<()> {
        let at = *self.calls;
        *self.calls = at.saturating_add(1);
        if at == self.fails_at {
            return Err(Error::from(ErrorKind::Other));
        }
        Ok(())
    }
}

impl Read for Counted<'_> {
    ghost use Rattle.std.specs.Prelude.{None};

    ghost remaining = { λ _. None };

    fn read(&mut self, into: &mut [u8]) -> IoResult<usize> {
        self.answer()?;
        Ok(into.len().min(self.moves))
    }
}

impl Write for Counted<'_> {
    ghost use Rattle.std.specs.Prelude.{None};

    ghost contents = { λ _. None };

    fn write(&mut self, from: &[u8]) -> IoResult<usize> {
        self.answer()?;
        Ok(from.len().min(self.moves))
    }

    fn flush(&mut self) -> IoResult<()> {
        self.answer()
    }
}

// Whether so many reads give as much as is moved, and the next one fails. How many calls all were, also of those that gave
// nothing.
fn reads_work(works: u8, moves: usize) -> (bool, u8) {
    let mut calls = 0;
    let mut is_working = true;
    {
        let mut into = [0; 4];
        let mut reader = StdReader::new(Counted {
            calls: &mut calls,
            fails_at: works,
            moves,
        });
        for _ in 0..works {
            is_working &= !reader.has_failed() && reader.read(&mut into) == Ok(moves.min(4));
        }
        is_working &= !reader.has_failed() && reader.read(&mut into) == Err(DeviceFailed);
        is_working &= reader.has_failed();
    }
    (is_working, calls)
}

fn reads_are_counted() -> bool {
    for works in [0u8, 1, 10, 11, 12, 100] {
        let wanted = (true, works.saturating_add(1));
        if reads_work(works, 0) != wanted || reads_work(works, 1) != wanted {
            return false;
        }
    }
    true
}

// How so many writes end that are followed by a flush: whether the writer is flushed, and how many calls all were.
fn writes_end(writes: u8, fails_at: u8) -> (bool, u8) {
    let mut calls = 0;
    let is_flushed;
    {
        let mut writer = StdWriter::new(Counted {
            calls: &mut calls,
            fails_at,
            moves: 1,
        });
        for _ in 0..writes {
            if !writer.has_failed() {
                let _ = writer.write(b"ab");
            }
        }
        if !writer.has_failed() && writer.hand_on().is_ok() {
            let _ = writer.flush();
        }
        is_flushed = writer.is_flushed() && !writer.has_failed();
    }
    (is_flushed, calls)
}

// How many writes are followed by a flush, which call fails, and how many calls all are.
static WRITES: [(u8, u8, u8); 7] = [
    (0, 0, 1),
    (0, 9, 1),
    (3, 0, 1),
    (3, 2, 3),
    (3, 3, 4),
    (12, 11, 12),
    (12, 20, 13),
];

// A write or a flush that fails is one call, and handing on is none.
fn writes_are_counted() -> bool {
    for row in &WRITES {
        let (writes, fails_at, calls) = *row;
        if writes_end(writes, fails_at) != (fails_at > writes, calls) {
            return false;
        }
    }
    true
}

// How a run ends that gathers in a block what the device takes, a byte a call, and how often that is called.
fn run_of_writes(block: Vec<u8>, fails_at: u8) -> (Result<(), RunFault>, u8)
    requires { 0 < vec_len block }
{
    let mut calls = 0;
    let answer;
    {
        let mut buffer = [0; 101];
        let mut reader = CutReader::new(STREAM, 26, None);
        let device = Counted {
            calls: &mut calls,
            fails_at,
            moves: 1,
        };
        let mut writer = BlockWriter::new(block, StdWriter::new(device));
        answer = run_lines(&ByLength, 100, &mut buffer, &mut reader, &mut writer);
    }
    (answer, calls)
}

// Whichever of the 48 writes and the flush fails, no call follows it, also where the block ends. That memory runs out fails
// the test.
fn runs_write(alloc: Global, size: usize) -> bool
    requires { 0 < size }
{
    for at in 0..50 {
        let Ok(block) = vec![in alloc; 0; size] else {
            return false;
        };
        let wanted = if at < 49 {
            (Err(RunFault::Write), at + 1)
        } else {
            (Ok(()), 49)
        };
        if run_of_writes(block, at) != wanted {
            return false;
        }
    }
    true
}

// How a run over a device ends that gives so many bytes a call, and how often that is called.
fn run_of_reads(fails_at: u8, moves: usize) -> (Result<(), RunFault>, u8) {
    let mut calls = 0;
    let answer;
    {
        let mut buffer = [0; 101];
        let mut space = [0; 100];
        let mut writer = CutWriter::new(&mut space, 100, None);
        let mut reader = StdReader::new(Counted {
            calls: &mut calls,
            fails_at,
            moves,
        });
        answer = run_lines(&ByLength, 100, &mut buffer, &mut reader, &mut writer);
    }
    (answer, calls)
}

// Nothing is read after the end of the bytes, or after a read that failed.
fn runs_read() -> bool {
    run_of_reads(9, 0) == (Ok(()), 1) && run_of_reads(9, 1) == (Err(RunFault::Read), 10)
}

#[test]
fn calls_of_devices(rt: HostRuntime) {
    let alloc = rt.alloc();
    assert!(rt; reads_are_counted() && writes_are_counted() && runs_read());
    assert!(rt; runs_write(alloc, 1) && runs_write(alloc, 7) && runs_write(alloc, 64));
}

//! The devices at work: what they move, and when they fail.

ghost use Rattle.std.specs.Prelude.{◌<◌, vec_len};

use instants_stream::{
    BlockWriter, ByteReader, ByteWriter, CutReader, CutWriter, DeviceFailed, StdReader,
};
use std::alloc::Global;

// How many bytes reads of four give in all until one gives none or fails, and whether the reader has failed.
fn read(most: usize, fail_after: Option<usize>) -> (usize, bool) {
    let mut reader = CutReader::new(b"abcdefgh", most.max(1), fail_after);
    let mut total: usize = 0;
    for _ in 0..8 {
        let mut into = [0; 4];
        if reader.has_failed() {
            break;
        }
        total = total.saturating_add(reader.read(&mut into).unwrap_or(0));
    }
    (total, reader.has_failed())
}

// At most how many bytes a read gives, after how many bytes reads fail, and how many they give.
static READS: [(usize, Option<usize>, usize); 4] = [
    (3, None, 8),
    (9, None, 8),
    (3, Some(4), 4),
    (8, Some(8), 8),
];

fn cut_readers_read() -> bool {
    for row in &READS {
        if read(row.0, row.1) != (row.2, row.1.is_some()) {
            return false;
        }
    }
    true
}

// What stands in six bytes of space after a try to write bytes, hand them on and flush them, and how often they are flushed.
fn written(bytes: &[u8], fail_after: Option<usize>) -> ([u8; 6], usize) {
    let mut space = [0; 6];
    let flushes;
    {
        let mut writer = CutWriter::new(&mut space, 4, fail_after);
        if writer.write_all(bytes).is_ok() && writer.hand_on().is_ok() {
            let _ = writer.flush();
        }
        flushes = writer.flushes();
    }
    (space, flushes)
}

// Bytes, after how many of them writes fail, and what is written and how often it is flushed.
static WRITES: [(&[u8], Option<usize>, ([u8; 6], usize)); 4] = [
    (b"abcdef", None, (*b"abcdef", 1)),
    (b"abcdefg", None, (*b"abcdef", 0)),
    (b"abcdef", Some(3), (*b"abc\0\0\0", 0)),
    (b"abc", Some(3), (*b"abc\0\0\0", 0)),
];

fn cut_writers_write() -> bool {
    for row in &WRITES {
        if written(row.0, row.1) != row.2 {
            return false;
        }
    }
    true
}

// What stands in six bytes of space after bytes are written one by one, by way of a block.
fn written_one_by_one(block: Vec<u8>, bytes: &[u8]) -> [u8; 6]
    requires { 0 < vec_len block }
{
    let mut space = [0; 6];
    {
        let mut writer = BlockWriter::new(block, CutWriter::new(&mut space, 4, None));
        for byte in bytes {
            if !writer.has_failed() {
                let _ = writer.write_byte(*byte);
            }
        }
        if !writer.has_failed() {
            let _ = writer.flush();
        }
    }
    space
}

// That memory runs out fails the test.
fn block_writers_write(alloc: Global) -> bool {
    for size in [1, 2, 9] {
        let Ok(block) = vec![in alloc; 0; size] else {
            return false;
        };
        if written_one_by_one(block, b"abcde") != *b"abcde\0" {
            return false;
        }
    }
    true
}

// What a read gives of more bytes than it takes.
fn std_read() -> (Result<usize, DeviceFailed>, [u8; 3]) {
    let mut reader = StdReader::new(b"abcde".as_slice());
    let mut into = [0; 3];
    let count = reader.read(&mut into);
    (count, into)
}

#[test]
fn devices(rt: HostRuntime) {
    assert!(rt;
        cut_readers_read()
            && cut_writers_write()
            && block_writers_write(rt.alloc())
            && std_read() == (Ok(3), *b"abc")
    );
}

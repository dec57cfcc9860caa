//! A reader of std, as a device.

ghost use Rattle.std.specs.Prelude.{◌≡◌, ◌+◌, ◌-◌, ◌^◌, ◌<◌, ◌≤◌, None, true, false, length, take, IfOk, OnOk, OnErr, if◌then◌else◌};
ghost use Rattle.std.specs.Io.KnownBytes.{Consumes, IsAtEnd};
ghost use Rattle.instants_stream.specs.Known.{StaysOrUnknown};

use crate::devices::{ByteReader, DeviceFailed};
use std::io::Read;

/// Reads from a reader of std.
///
/// It fails where that reader's `read` does, which it does not make again where a signal interrupted it, and at the
/// read after the first `2^64 - 1`. A failure leaves its bytes untold.
#[derive(Drop)]
pub struct StdReader<R> {
    inner: R,
    has_failed: bool,
    reads_left: u64,
}

impl<R: Read> StdReader<R> {
    /// A reader that has not failed.
    pub fn new(inner: R) -> Self
        ensures left { ⟦<StdReader<R> as ByteReader>⟧.left result ≡ R.remaining inner }
        ensures reads { ⟦<StdReader<R> as ByteReader>⟧.reads_left result ≡ 2 ^ 64 - 1 }
        ensures works { ⟦<StdReader<R> as ByteReader>⟧.failed result ≡ false }
    {
        StdReader {
            inner,
            has_failed: false,
            reads_left: u64::MAX,
        }
    }
}

impl<R: Read> ByteReader for StdReader<R> {
    ghost left = { λ s. if s.has_failed then None else R.remaining s.inner };

    ghost failed = { λ s. s.has_failed };

    ghost reads_left = { λ s. s.reads_left };

    fn read(&mut self, into: &mut [u8]) -> Result<usize, DeviceFailed>
        requires { ⟦<StdReader<R> as ByteReader>⟧.failed self.old ≡ false }
        ensures within { IfOk result (λ count. count ≤ length into.new) }
        ensures moved { IfOk result (λ count.
            Consumes (⟦<StdReader<R> as ByteReader>⟧.left self.old)
            (⟦<StdReader<R> as ByteReader>⟧.left self.new) (take count into.new)) }
        ensures none { IfOk result (λ count.
            count ≡ 0 → 0 < length into.new
            → IsAtEnd (⟦<StdReader<R> as ByteReader>⟧.left self.new)) }
        ensures ends { IfOk result (λ count. 0 < count
            → ⟦<StdReader<R> as ByteReader>⟧.reads_left self.new
            < ⟦<StdReader<R> as ByteReader>⟧.reads_left self.old) }
        // Each read that succeeds is one of those that are left.
        ensures counted { OnOk result (⟦<StdReader<R> as ByteReader>⟧.reads_left self.new + 1
            ≡ ⟦<StdReader<R> as ByteReader>⟧.reads_left self.old) }
        ensures ok { OnOk result (⟦<StdReader<R> as ByteReader>⟧.failed self.new
            ≡ ⟦<StdReader<R> as ByteReader>⟧.failed self.old) }
        ensures err { OnErr result (⟦<StdReader<R> as ByteReader>⟧.failed self.new ≡ true) }
        ensures kept { OnErr result (StaysOrUnknown
            (⟦<StdReader<R> as ByteReader>⟧.left self.old)
            (⟦<StdReader<R> as ByteReader>⟧.left self.new)) }
    {
        if self.reads_left > 0 {
            self.reads_left -= 1;
            if let Ok(count) = self.inner.read(into) {
                return Ok(count);
            }
        }
        self.has_failed = true;
        Err(DeviceFailed)
    }

    fn has_failed(&self) -> bool {
        self.has_failed
    }
}

//! A writer of std, as a device.

ghost use Rattle.std.specs.Prelude.{◌≡◌, None, true, false, IsOk, if◌then◌else◌};

use crate::devices::{ByteWriter, DeviceFailed};
use std::io::Write;

/// Writes to a writer of std.
///
/// It fails where that writer's `write` or `flush` does, and where a `write` takes no byte of some.
/// A failure leaves its bytes untold. What a buffered writer of std holds back stays there until `flush`: a
/// `BlockWriter` over one without a buffer hands on.
#[derive(Drop)]
pub struct StdWriter<W> {
    inner: W,
    has_failed: bool,
    is_flushed: bool,
}

impl<W: Write> StdWriter<W> {
    /// A writer that has not failed.
    pub fn new(inner: W) -> Self
        ensures held { ⟦<StdWriter<W> as ByteWriter>⟧.held result ≡ W.contents inner }
        ensures works { ⟦<StdWriter<W> as ByteWriter>⟧.failed result ≡ false }
        ensures flushed { ⟦<StdWriter<W> as ByteWriter>⟧.flushed result ≡ true }
    {
        StdWriter {
            inner,
            has_failed: false,
            is_flushed: true,
        }
    }
}

impl<W: Write> ByteWriter for StdWriter<W> {
    ghost held = { λ s. if s.has_failed then None else W.contents s.inner };

    ghost failed = { λ s. s.has_failed };

    ghost flushed = { λ s. s.is_flushed };

    ghost handed_on = { λ s. if s.has_failed then None else W.contents s.inner };

    #[inline(always)]
    fn write(&mut self, from: &[u8]) -> Result<usize, DeviceFailed> {
        self.is_flushed = false;
        match self.inner.write(from) {
            Ok(count) if count > 0 || from.is_empty() => Ok(count),
            _ => {
                self.has_failed = true;
                Err(DeviceFailed)
            }
        }
    }

    fn flush(&mut self) -> Result<(), DeviceFailed> {
        if self.inner.flush().is_err() {
            self.has_failed = true;
            return Err(DeviceFailed);
        }
        self.is_flushed = true;
        Ok(())
    }

    fn is_flushed(&self) -> bool {
        self.is_flushed
    }

    fn has_failed(&self) -> bool {
        self.has_failed
    }

    // It holds nothing back, and what its writer holds back stays there.
    fn hand_on(&mut self) -> Result<(), DeviceFailed>
        ensures ok { IsOk result }
        ensures stays { self.new ≡ self.old }
    {
        Ok(())
    }
}

//! A writer into lent memory, which takes few bytes at a time and fails when it is told to.

ghost use Rattle.std.specs.Prelude.{◌≡◌, ◌+◌, ◌-◌, ◌^◌, ◌<◌, ◌≤◌, ◌↔◌, [], Some, length, take, true, false, min, IsOk, IsErr, IfOk, OnOk, OnErr};
ghost use Rattle.std.specs.Io.KnownBytes.{Appends, Keeps};
ghost use Rattle.instants_stream.specs.CutDevices.{CutWriting, taken, left_until_failure};

use crate::devices::{ByteWriter, DeviceFailed};
use std::marker::Model;

/// Writes into lent memory.
#[derive(Drop)]
pub struct CutWriter<'a> {
    space: &'a mut [u8],
    len: usize,
    most: usize,
    until_failure: Option<usize>,
    has_failed: bool,
    is_flushed: bool,
    flushes: usize,
}

impl<'a> Model for CutWriter<'a> {
    ghost use Rattle.std.specs.Prelude.{◌-◌, ◌<◌, ◌≤◌, length, take};
    ghost use Rattle.instants_stream.specs.CutDevices.{CutWriting};

    ghost Value = { CutWriting };

    ghost view = { λ w. record {
      held = take w.len w.space.now;
      room = length w.space.now - w.len;
      most = w.most;
      until_failure = w.until_failure;
      has_failed = w.has_failed;
      is_flushed = w.is_flushed;
      flushes = w.flushes;
    } };

    ghost invariant = { λ w. (0 < w.most) × (w.len ≤ length w.space.now) };
}

impl<'a> CutWriter<'a> {
    /// Takes at most `most` bytes a write, and fails once `fail_after` bytes were written, or at a
    /// write of some bytes where the space is full.
    pub fn new(space: &'a mut [u8], most: usize, fail_after: Option<usize>) -> Self
        requires { 0 < most }
        ensures { result ≡ record {
          held = [];
          room = length space.old;
          most = most;
          until_failure = fail_after;
          has_failed = false;
          is_flushed = true;
          flushes = 0;
        } }
    {
        CutWriter {
            space,
            len: 0,
            most,
            until_failure: fail_after,
            has_failed: false,
            is_flushed: true,
            flushes: 0,
        }
    }

    /// The bytes written.
    pub fn written(&self) -> &[u8]
        ensures { result.now ≡ self.now.held }
    {
        &self.space[..self.len]
    }

    /// How many flushes succeeded. It stays at `usize::MAX`.
    pub fn flushes(&self) -> usize
        ensures { result ≡ self.now.flushes }
    {
        self.flushes
    }
}

impl<'a> ByteWriter for CutWriter<'a> {
    ghost held = { λ s. Some s.held };

    ghost failed = { λ s. s.has_failed };

    ghost flushed = { λ s. s.is_flushed };

    ghost handed_on = { λ s. Some s.held };

    fn write(&mut self, from: &[u8]) -> Result<usize, DeviceFailed>
        ensures within { IfOk result (λ count. count ≤ length from.now) }
        ensures moved { IfOk result (λ count.
            Appends (Some self.old.held) (Some self.new.held) (take count from.now)) }
        ensures unflushed { self.new.is_flushed ≡ false }
        ensures none { IfOk result (λ count. 0 < length from.now → 0 < count) }
        ensures ok { OnOk result (self.new.has_failed ≡ self.old.has_failed) }
        ensures err { OnErr result (self.new.has_failed ≡ true) }
        ensures kept { OnErr result (self.new.held ≡ self.old.held) }

        ensures count { result ≡ taken self.old (length from.now) }
        ensures until { IfOk result (λ count.
            self.new.until_failure ≡ left_until_failure self.old.until_failure count) }
        ensures room { IfOk result (λ count. self.new.room ≡ self.old.room - count) }
        ensures stays { OnErr result
            (self.new ≡ record self.old { has_failed = true; is_flushed = false }) }
        ensures flushes { self.new.flushes ≡ self.old.flushes }
        ensures most { self.new.most ≡ self.old.most }
    {
        self.is_flushed = false;
        let room = self.space.len() - self.len;
        if room == 0 && !from.is_empty() {
            self.has_failed = true;
            return Err(DeviceFailed);
        }
        let mut count = self.most.min(from.len()).min(room);
        if let Some(until_failure) = self.until_failure {
            if until_failure == 0 {
                self.has_failed = true;
                return Err(DeviceFailed);
            }
            count = count.min(until_failure);
            self.until_failure = Some(until_failure - count);
        }
        let end = self.len + count;
        self.space[self.len..end].copy_from_slice(&from[..count]);
        self.len = end;
        Ok(count)
    }

    fn flush(&mut self) -> Result<(), DeviceFailed>
        ensures moved { OnOk result (Keeps (Some self.old.held) (Some self.new.held)) }
        ensures flushed { OnOk result (self.new.is_flushed ≡ true) }
        ensures all { OnOk result (Keeps (Some self.new.held) (Some self.new.held)) }
        ensures ok { OnOk result (self.new.has_failed ≡ self.old.has_failed) }
        ensures err { OnErr result (self.new.has_failed ≡ true) }
        ensures kept { OnErr result (self.new.held ≡ self.old.held) }

        ensures fails { IsErr result ↔ (self.old.until_failure ≡ Some 0) }
        ensures counted { OnOk result (self.new ≡ record self.old {
          is_flushed = true;
          flushes = min (self.old.flushes + 1) (2 ^ 64 - 1);
        }) }
        ensures stays { OnErr result (self.new ≡ record self.old { has_failed = true }) }
    {
        if self.until_failure == Some(0) {
            self.has_failed = true;
            return Err(DeviceFailed);
        }
        self.is_flushed = true;
        self.flushes = self.flushes.saturating_add(1);
        Ok(())
    }

    fn is_flushed(&self) -> bool {
        self.is_flushed
    }

    fn has_failed(&self) -> bool {
        self.has_failed
    }

    // It holds nothing back.
    fn hand_on(&mut self) -> Result<(), DeviceFailed>
        ensures held { OnOk result (Keeps (Some self.old.held) (Some self.new.held)) }
        ensures all { OnOk result (Keeps (Some self.new.held) (Some self.new.held)) }
        ensures flushed { OnOk result (self.new.is_flushed ≡ self.old.is_flushed) }
        ensures ok { OnOk result (self.new.has_failed ≡ self.old.has_failed) }
        ensures err { OnErr result (self.new.has_failed ≡ true) }
        ensures kept { OnErr result (self.new.held ≡ self.old.held) }

        ensures succeeds { IsOk result }
        ensures stays { self.new ≡ self.old }
    {
        Ok(())
    }
}

//! A reader over lent bytes, which gives few of them at a time and fails when it is told to.

ghost use Rattle.std.specs.Prelude.{◌≡◌, ◌<◌, ◌≤◌, Some, length, take, true, false, min, IfOk, OnOk, OnErr};
ghost use Rattle.std.specs.Io.KnownBytes.{Consumes, IsAtEnd};
ghost use Rattle.instants_stream.specs.CutDevices.{CutReading, moved, left_until_failure};

use crate::devices::{ByteReader, DeviceFailed};
use std::marker::Model;

/// Reads lent bytes.
#[derive(Drop)]
pub struct CutReader<'a> {
    rest: &'a [u8],
    most: usize,
    until_failure: Option<usize>,
    has_failed: bool,
}

impl<'a> Model for CutReader<'a> {
    ghost use Rattle.std.specs.Prelude.{◌<◌};
    ghost use Rattle.instants_stream.specs.CutDevices.{CutReading};

    ghost Value = { CutReading };

    ghost view = { λ r. record {
      left = r.rest.now;
      most = r.most;
      until_failure = r.until_failure;
      has_failed = r.has_failed;
    } };

    ghost invariant = { λ r. 0 < r.most };
}

impl<'a> CutReader<'a> {
    /// Gives at most `most` bytes a read, and fails once `fail_after` bytes were read.
    pub fn new(bytes: &'a [u8], most: usize, fail_after: Option<usize>) -> Self
        requires { 0 < most }
        ensures { result ≡ record {
          left = bytes.now;
          most = most;
          until_failure = fail_after;
          has_failed = false;
        } }
    {
        CutReader {
            rest: bytes,
            most,
            until_failure: fail_after,
            has_failed: false,
        }
    }
}

impl<'a> ByteReader for CutReader<'a> {
    ghost left = { λ s. Some s.left };

    ghost failed = { λ s. s.has_failed };

    ghost reads_left = { λ s. length s.left };

    fn read(&mut self, into: &mut [u8]) -> Result<usize, DeviceFailed>
        ensures within { IfOk result (λ count. count ≤ length into.new) }
        ensures moved { IfOk result (λ count.
            Consumes (Some self.old.left) (Some self.new.left) (take count into.new)) }
        ensures none { IfOk result (λ count.
            count ≡ 0 → 0 < length into.new → IsAtEnd (Some self.new.left)) }
        ensures ends { IfOk result (λ count.
            0 < count → length self.new.left < length self.old.left) }
        ensures ok { OnOk result (self.new.has_failed ≡ self.old.has_failed) }
        ensures err { OnErr result (self.new.has_failed ≡ true) }
        ensures kept { OnErr result (self.new.left ≡ self.old.left) }

        ensures count { let most = min self.old.most (length into.old)
            in result ≡ moved (min most (length self.old.left)) self.old.until_failure }
        ensures until { IfOk result (λ count.
            self.new.until_failure ≡ left_until_failure self.old.until_failure count) }
        ensures stays { OnErr result (self.new ≡ record self.old { has_failed = true }) }
        ensures most { self.new.most ≡ self.old.most }
    {
        let mut count = self.most.min(into.len()).min(self.rest.len());
        if let Some(until_failure) = self.until_failure {
            if until_failure == 0 {
                self.has_failed = true;
                return Err(DeviceFailed);
            }
            count = count.min(until_failure);
            self.until_failure = Some(until_failure - count);
        }
        let (prefix, rest) = self.rest.split_at(count);
        into[..count].copy_from_slice(prefix);
        self.rest = rest;
        Ok(count)
    }

    fn has_failed(&self) -> bool {
        self.has_failed
    }
}

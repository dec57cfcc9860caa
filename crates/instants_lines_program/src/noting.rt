//! A reader or a writer that notes why it failed.

use std::io::{self, ErrorKind, Read, Write};

/// Reads from another reader, or writes to another writer, and keeps of what kind its last failure was.
#[derive(Drop)]
pub struct Noting<T> {
    inner: T,
    failure: Option<ErrorKind>,
}

impl<T> Noting<T> {
    /// No failure yet.
    pub fn new(inner: T) -> Self {
        Noting {
            inner,
            failure: None,
        }
    }

    /// What it reads from, or writes to.
    pub fn inner(&self) -> &T {
        &self.inner
    }

    /// Of what kind the last failure was.
    pub fn failure(&self) -> Option<ErrorKind> {
        self.failure
    }
}

impl<R: Read> Read for Noting<R> {
    fn read(&mut self, into: &mut [u8]) -> io::Result<usize> {
        let done = self.inner.read(into);
        if let Err(fault) = &done {
            self.failure = Some(fault.kind());
        }
        done
    }
}

impl<W: Write> Write for Noting<W> {
    fn write(&mut self, from: &[u8]) -> io::Result<usize> {
        let done = self.inner.write(from);
        if let Err(fault) = &done {
            self.failure = Some(fault.kind());
        }
        done
    }

    fn flush(&mut self) -> io::Result<()> {
        let done = self.inner.flush();
        if let Err(fault) = &done {
            self.failure = Some(fault.kind());
        }
        done
    }
}

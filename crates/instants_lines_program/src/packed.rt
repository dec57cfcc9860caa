//! Input that is packed, or in UTF-16: it has no lines with dates, as it stands.

use std::io::{self, Read};

/// Reads from another reader, and says on standard error once, after the first read, where what it gave is packed or in UTF-16.
#[derive(Drop)]
pub struct Looking<T> {
    rt: HostRuntime,
    inner: T,
    is_first: bool,
}

impl<T> Looking<T> {
    /// Nothing was read yet; where it is to be quiet nothing is said.
    pub fn new(rt: HostRuntime, inner: T, is_quiet: bool) -> Self {
        Looking {
            rt,
            inner,
            is_first: !is_quiet,
        }
    }
}

impl<R: Read> Read for Looking<R> {
    fn read(&mut self, into: &mut [u8]) -> io::Result<usize> {
        let count = self.inner.read(into)?;
        if self.is_first {
            self.is_first = false;
            warn_of_packed(&self.rt, &into[..count]);
        }
        Ok(count)
    }
}

// How input is kept that begins so, and the command that makes lines of it.
fn packing(first: &[u8]) -> Option<(&'static str, &'static str)> {
    match first {
        [0x1f, 0x8b, ..] => Some(("packed by gzip", "gunzip -c")),
        [0x28, 0xb5, 0x2f, 0xfd, ..] => Some(("packed by zstd", "zstd -dc")),
        [0xfd, b'7', b'z', b'X', b'Z', 0, ..] => Some(("packed by xz", "xz -dc")),
        [b'B', b'Z', b'h', ..] => Some(("packed by bzip2", "bunzip2 -c")),
        [0xff, 0xfe, ..] | [0xfe, 0xff, ..] => Some(("in UTF-16", "iconv -f UTF-16 -t UTF-8")),
        _ => None,
    }
}

// Where this can't be printed the run still goes on.
fn warn_of_packed(rt: &HostRuntime, first: &[u8]) {
    if let Some((how, command)) = packing(first) {
        let _ = eprintln!(rt;
            "instants-lines: warning: the input is {how}: {command} FILE | instants-lines .."
        );
    }
}

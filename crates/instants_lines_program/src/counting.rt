//! How many of the lines that are written are dated, and from when to when: what their keys say.

ghost use Rattle.std.specs.Prelude.{◌≤◌, length};

use instants_stream::line_len;
use std::fmt::{self, Display, Formatter};
use std::io::{self, Write};

// The bytes of the longest key: a date-time with nine digits of its second's fraction, and `+HH:MM`.
const KEY_BYTES: usize = 35;

// Those of one at +00:00, which ends in `Z`.
const UTC_BYTES: usize = 30;

// A key, filled up by zeros. Those of dates have one length in a run, so they compare as their bytes do.
#[derive(Clone, Copy, PartialEq, Eq, PartialOrd, Ord)]
struct Key([u8; KEY_BYTES]);

impl Key {
    // Fills up a key at +00:00, which ends before its tab.
    fn end_at_tab(&mut self) {
        if self.0[UTC_BYTES] == b'\t' {
            for place in UTC_BYTES..KEY_BYTES {
                self.0[place] = 0;
            }
        }
    }
}

impl Display for Key {
    fn fmt<F: fmt::Write>(&self, f: &mut Formatter<F>) -> fmt::Result {
        for byte in &self.0 {
            if *byte != 0 {
                f.write_char(*byte as char)?;
            }
        }
        Ok(())
    }
}

/// What is asked of the keys of the lines that are written.
#[derive(Clone, Copy, PartialEq, Eq)]
pub enum Asked {
    Nothing,
    /// Whether any line is dated: after the first such one no key is looked at.
    WhetherDated,
    /// How many lines are dated, and from when to when.
    Counts,
}

/// How many lines have which key, and the least and the greatest key of a date.
#[derive(Clone, Copy)]
pub struct Counts {
    dated: u64,
    none: u64,
    doubt: u64,
    year: u64,
    least: Key,
    greatest: Key,
}

impl Counts {
    fn new() -> Self {
        Counts {
            dated: 0,
            none: 0,
            doubt: 0,
            year: 0,
            least: Key([0xff; KEY_BYTES]),
            greatest: Key([0; KEY_BYTES]),
        }
    }

    // Counts a line by its key.
    fn add(&mut self, key: &Key) {
        if key.0[0] == b'!' {
            self.add_other(key.0[2]);
        } else {
            self.add_date(key);
        }
    }

    // Counts a line whose key is `! none`, `! doubt` or `! year`, by its third byte.
    fn add_other(&mut self, third: u8) {
        let count = match third {
            b'n' => &mut self.none,
            b'd' => &mut self.doubt,
            _ => &mut self.year,
        };
        *count = count.saturating_add(1);
    }

    fn add_date(&mut self, key: &Key) {
        self.dated = self.dated.saturating_add(1);
        if *key < self.least {
            self.least = *key;
        }
        if *key > self.greatest {
            self.greatest = *key;
        }
    }

    /// Whether a source found a date in some line.
    pub fn has_date(&self) -> bool {
        self.dated > 0 || self.year > 0
    }

    /// Whether there are lines, and no source found a date in any.
    pub fn is_undated(&self) -> bool {
        !self.has_date() && (self.none > 0 || self.doubt > 0)
    }
}

impl Display for Counts {
    fn fmt<F: fmt::Write>(&self, f: &mut Formatter<F>) -> fmt::Result {
        write!(
            f,
            "{} dated, {} none, {} doubt, {} year",
            self.dated, self.none, self.doubt, self.year
        )?;
        if self.dated > 0 {
            write!(f, ", {} to {}", self.least, self.greatest)?;
        }
        Ok(())
    }
}

/// Writes to another writer lines after their keys, and counts the keys.
#[derive(Drop)]
pub struct Counting<W> {
    inner: W,
    asked: Asked,
    key: Key,
    // How many bytes of the line's key came, and once its tab came, none until the line feed.
    place: Option<usize>,
    counts: Counts,
}

impl<W> Counting<W> {
    /// Nothing was written yet.
    pub fn new(inner: W, asked: Asked) -> Self {
        Counting {
            inner,
            asked,
            key: Key([0; KEY_BYTES]),
            place: Some(0),
            counts: Counts::new(),
        }
    }

    /// What was counted.
    pub fn counts(&self) -> &Counts {
        &self.counts
    }

    // Whether nothing more is asked.
    fn is_done(&self) -> bool {
        match self.asked {
            Asked::Nothing => true,
            Asked::WhetherDated => self.counts.has_date(),
            Asked::Counts => false,
        }
    }

    // Takes the next byte of a key, or what ends it: its tab, or its line's feed.
    #[inline(always)]
    fn take(&mut self, byte: u8) {
        match self.place {
            Some(_) if byte == b'\t' || byte == b'\n' => {
                self.counts.add(&self.key);
                self.place = None;
            }
            Some(place) if place < KEY_BYTES => {
                self.key.0[place] = byte;
                self.place = Some(place + 1);
            }
            _ => {}
        }
        if byte == b'\n' {
            self.place = Some(0);
        }
    }

    // The bytes from the next one on that is to be taken: after a key that is the line feed.
    #[inline(always)]
    fn next<'a>(&self, bytes: &'a [u8]) -> &'a [u8]
        ensures { length result.now ≤ length bytes.now }
    {
        if self.place.is_some() {
            return bytes;
        }
        match line_len(bytes, 0) {
            Some(len) => &bytes[len..],
            None => b"",
        }
    }

    // Takes the key of a date, of which all bytes are there, and returns what stands after its fraction.
    fn take_date<'a>(&mut self, byte: u8, others: &'a [u8]) -> &'a [u8]
        requires { 35 ≤ length others.now }
        ensures { length result.now ≤ length others.now }
    {
        self.key.0[0] = byte;
        for place in 1..KEY_BYTES {
            self.key.0[place] = others[place - 1];
        }
        self.key.end_at_tab();
        self.counts.add_date(&self.key);
        self.place = None;
        &others[UTC_BYTES - 1..]
    }

    // Takes the next byte; where it begins a key of which enough is there, the whole key. Returns what stands after that.
    #[inline(always)]
    fn take_front<'a>(&mut self, byte: u8, others: &'a [u8]) -> &'a [u8]
        ensures { length result.now ≤ length others.now }
    {
        match (self.place, byte, others) {
            (Some(0), b'!', [_, third, rest @ ..]) => {
                self.counts.add_other(*third);
                self.place = None;
                rest
            }
            (Some(0), _, _) if byte != b'!' && others.len() >= KEY_BYTES => {
                self.take_date(byte, others)
            }
            _ => {
                self.take(byte);
                others
            }
        }
    }

    fn look_at(&mut self, bytes: &[u8]) {
        let mut rest = bytes;
        while let Some((byte, others)) = rest.split_first() {
            if self.is_done() {
                return;
            }
            let after = self.take_front(*byte, others);
            rest = self.next(after);
        }
    }
}

impl<W: Write> Write for Counting<W> {
    fn write(&mut self, from: &[u8]) -> io::Result<usize> {
        let count = self.inner.write(from)?;
        if !self.is_done() {
            self.look_at(&from[..count]);
        }
        Ok(count)
    }

    fn flush(&mut self) -> io::Result<()> {
        self.inner.flush()
    }
}

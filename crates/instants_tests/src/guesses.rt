//! What the guess of a stream's format writes, over lent bytes.

ghost use Rattle.std.specs.Prelude.{◌≡◌, false};

use instants_guess::guess;
use instants_stream::{ByteReader, ByteWriter, CutReader, CutWriter, DeviceFailed, RunFault};
use instants_timeline::RunsFault;
use std::alloc::{AllocError, Global};
use std::test::Fail;

// A guess on these devices, whatever they are: what `guess` promises of them is not needed below.
fn guess_on<R: ByteReader, W: ByteWriter>(
    alloc: Global,
    reader: &mut R,
    writer: &mut W,
) -> Result<(), RunsFault>
    requires reader { R.failed reader.old ≡ false }
    requires writer { W.failed writer.old ≡ false }
{
    guess(alloc, reader, writer)
}

// How a guess over a stream ends, and whether this is what is written. Reads and writes are of at most seven bytes, and
// one that would pass so many bytes fails.
fn guessed(
    alloc: Global,
    stream: &[u8],
    read: Option<usize>,
    write: Option<usize>,
    text: &str,
) -> (Result<(), RunsFault>, bool) {
    let mut space = [0; 4096];
    let mut reader = CutReader::new(stream, 7, read);
    let mut writer = CutWriter::new(&mut space, 7, write);
    let ended = guess_on(alloc, &mut reader, &mut writer);
    (ended, writer.written() == text.as_bytes())
}

// A stream, and what is written for it.
static ROWS: [(&str, &str); 18] = [
    ("", "no known format dates any of 0 lines\n"),
    ("\n\nup", "no known format dates any of 3 lines\n"),
    (
        "::1 - - [10/Oct/2000:13:55:36 -0700] GET\nup\n::1 - - - [10/Oct/2000:13:55:37 -0700] GET\n",
        "2 of 3 lines, first 2000-10-10T20:55:36.000000000Z: +00:00 - access-log\n",
    ),
    // Words stand for what the lines do not say.
    (
        "Jan  2 03:04:05 host cron[1]: run\n",
        "1 of 1 lines, first YEAR-01-02T03:04:05.000000000OFFSET: +00:00 OFFSET year YEAR syslog\n",
    ),
    (
        "2021-01-02 opened\n",
        "1 of 1 lines, first 2021-01-02T00:00:00.000000000OFFSET: +00:00 OFFSET time 00:00 date\n",
    ),
    // Of those that date as many lines the one with the longest first date comes first.
    (
        "2021-01-02 03:04:05.5+01\n2021-01-02 03:04:05.25\n",
        "1 of 2 lines, first 2021-01-02T02:04:05.500000000Z: +00:00 - psql\n1 of 2 lines, 1 in doubt, first 2021-01-02T03:04:05.250000000OFFSET: +00:00 OFFSET postgres\n",
    ),
    // Of those that found as much the one that stands first in the table does.
    (
        "2021-01-02 03:04:05 up\n",
        "1 of 1 lines, first 2021-01-02T03:04:05.000000000OFFSET: +00:00 OFFSET mysql\n1 of 1 lines, first 2021-01-02T03:04:05.000000000OFFSET: +00:00 OFFSET mariadb\n",
    ),
    (
        "at 2021-01-02T03:04:05Z up\n",
        "1 of 1 lines, first 2021-01-02T03:04:05.000000000Z: +00:00 - rfc3339\n1 of 1 lines, first 2021-01-02T03:04:05.000000000Z: +00:00 - iso8601\n1 of 1 lines, first 2021-01-02T03:04:05.000000000OFFSET: +00:00 OFFSET iso8601\n",
    ),
    // More dated lines come first.
    (
        "2021-01-02 03:04:05,5 up\n2021-01-02 03:04:06 up\n2021-01-02 03:04:07,5 up\n",
        "3 of 3 lines, first 2021-01-02T03:04:05.000000000OFFSET: +00:00 OFFSET mysql\n3 of 3 lines, first 2021-01-02T03:04:05.000000000OFFSET: +00:00 OFFSET mariadb\n2 of 3 lines, first 2021-01-02T03:04:05.500000000OFFSET: +00:00 OFFSET python-logging\n",
    ),
    // A format without a time of day comes last.
    (
        "2021-01-02 opened\n2021-01-03 opened\n2021-01-04 03:04:05 up\n",
        "1 of 3 lines, first 2021-01-04T03:04:05.000000000OFFSET: +00:00 OFFSET mysql\n1 of 3 lines, first 2021-01-04T03:04:05.000000000OFFSET: +00:00 OFFSET mariadb\n2 of 3 lines, 1 in doubt, first 2021-01-02T00:00:00.000000000OFFSET: +00:00 OFFSET time 00:00 date\n",
    ),
    // The first date at the least place comes first (the text of the last one says UTC) ..
    (
        "{\"msg\":\"until 2027-01-01T00:00:00Z\",\"ts\":\"2021-01-02T03:04:05Z\"}\n",
        "1 of 1 lines, first 2027-01-01T00:00:00.000000000Z: +00:00 - rfc3339\n1 of 1 lines, first 2027-01-01T00:00:00.000000000Z: +00:00 - iso8601\n1 of 1 lines, first 2027-01-01T00:00:00.000000000OFFSET: +00:00 OFFSET iso8601\n1 of 1 lines, first 2021-01-02T03:04:05.000000000Z: +00:00 +00:00 json-time\n",
    ),
    // .. but after dates that ascend ..
    (
        "{\"msg\":\"until 2027-01-01T00:00:00Z\",\"ts\":\"2021-01-02T03:04:05Z\"}\n{\"msg\":\"until 2026-01-01T00:00:00Z\",\"ts\":\"2021-01-02T03:04:06Z\"}\n",
        "2 of 2 lines, first 2021-01-02T03:04:05.000000000Z: +00:00 +00:00 json-time\n2 of 2 lines, first 2027-01-01T00:00:00.000000000Z: +00:00 - rfc3339\n2 of 2 lines, first 2027-01-01T00:00:00.000000000Z: +00:00 - iso8601\n2 of 2 lines, first 2027-01-01T00:00:00.000000000OFFSET: +00:00 OFFSET iso8601\n",
    ),
    // .. and after those that stand at one place.
    (
        "2020-01-01T00:00:00Z [01/Jan/2021:00:00:00 +0000]\nat 2020-01-02T00:00:00Z\ntwenty bytes in here [01/Jan/2021:00:00:01 +0000]\n",
        "2 of 3 lines, first 2021-01-01T00:00:00.000000000Z: +00:00 - access-log\n2 of 3 lines, first 2020-01-01T00:00:00.000000000Z: +00:00 - rfc3339\n2 of 3 lines, first 2020-01-01T00:00:00.000000000Z: +00:00 - iso8601\n2 of 3 lines, first 2020-01-01T00:00:00.000000000OFFSET: +00:00 OFFSET iso8601\n",
    ),
    // Day and month are as good in each other's place ..
    (
        "01/02/2021 03:04:05 up\n02/02/2021 03:04:05 up\n",
        "2 of 2 lines, day and month are not sure, first 2021-02-01T03:04:05.000000000OFFSET: +00:00 OFFSET dmy\n2 of 2 lines, day and month are not sure, first 2021-01-02T03:04:05.000000000OFFSET: +00:00 OFFSET mdy\n",
    ),
    // .. but where the dates ascend in one way alone ..
    (
        "01/02/2021 03:04:05 up\n01/03/2021 03:04:05 up\n02/01/2021 03:04:05 up\n",
        "3 of 3 lines, first 2021-01-02T03:04:05.000000000OFFSET: +00:00 OFFSET mdy\n3 of 3 lines, first 2021-02-01T03:04:05.000000000OFFSET: +00:00 OFFSET dmy\n",
    ),
    // .. or some are dates in one way alone.
    (
        "01/02/2021 03:04:05 up\n01/13/2021 03:04:05 up\n",
        "2 of 2 lines, first 2021-01-02T03:04:05.000000000OFFSET: +00:00 OFFSET mdy\n1 of 2 lines, first 2021-02-01T03:04:05.000000000OFFSET: +00:00 OFFSET dmy\n",
    ),
    // A year before 0 is not written.
    (
        "0000-01-01T00:00:00+01:00 up\n2021-01-02T03:04:05Z up\n",
        "1 of 2 lines, 1 with a year that is not written, first 2021-01-02T03:04:05.000000000Z: +00:00 - rfc3339\n1 of 2 lines, 1 with a year that is not written, first 2021-01-02T03:04:05.000000000Z: +00:00 - iso8601\n1 of 2 lines, 1 with a year that is not written, first 2021-01-02T03:04:05.000000000OFFSET: +00:00 OFFSET iso8601\n",
    ),
    // Where no format dates a line, those in doubt are told.
    (
        "2021-01-02 03:04:05 +01:30 up\n",
        "0 of 1 lines, 1 in doubt (the line says another offset after the date): +00:00 OFFSET mysql\n0 of 1 lines, 1 in doubt (the line says another offset after the date): +00:00 OFFSET mariadb\n0 of 1 lines, 1 in doubt (a word or a clock goes on after the date): +00:00 OFFSET pacman\n0 of 1 lines, 1 in doubt (the line says another time beside the date): +00:00 OFFSET time 00:00 date\n",
    ),
];

#[test]
fn rows(rt: HostRuntime) {
    for row in &ROWS {
        assert!(rt;
            guessed(rt.alloc(), row.0.as_bytes(), None, None, row.1) == (Ok(()), true),
            "{}",
            row.0
        );
    }
}

const STREAM: &[u8] = b"2021-01-02 opened\n";

fn fails(alloc: Global) -> bool {
    let no_read = guessed(alloc, STREAM, Some(3), None, "");
    let no_write = guessed(alloc, STREAM, None, Some(4), "1 of");
    no_read == (Err(RunsFault::Run(RunFault::Read)), true)
        && no_write == (Err(RunsFault::Run(RunFault::Write)), true)
}

// A line, and one that goes on to the end of so many bytes.
fn long_stream(alloc: Global, len: usize) -> Result<Vec<u8>, AllocError> {
    let mut stream = Vec::new(alloc);
    stream.extend_from_slice(b"2021-01-02 opened\n2021-01-03 ")?;
    stream.resize(len, b'x')?;
    Ok(stream)
}

const OF_ONE_LINE: &[u8] =
    b"1 of 1 lines, first 2021-01-02T00:00:00.000000000OFFSET: +00:00 OFFSET time 00:00 date\n";

// The first 1048576 bytes of a stream cut its second line.
fn is_cut(alloc: Global, stream: &[u8]) -> bool {
    let mut space = [0; 256];
    let mut reader = CutReader::new(stream, 65_536, None);
    let mut writer = CutWriter::new(&mut space, 256, None);
    let ended = guess_on(alloc, &mut reader, &mut writer);
    ended == Ok(()) && writer.written() == OF_ONE_LINE
}

// A reader over lent bytes that counts its reads.
#[derive(Drop)]
struct Counting<'a> {
    inner: CutReader<'a>,
    reads: usize,
}

impl ByteReader for Counting<'_> {
    ghost use Rattle.std.specs.Prelude.{Some, length};

    ghost left = { λ s. Some s.inner.left };

    ghost failed = { λ s. s.inner.has_failed };

    ghost reads_left = { λ s. length s.inner.left };

    fn read(&mut self, into: &mut [u8]) -> Result<usize, DeviceFailed> {
        self.reads = self.reads.saturating_add(1);
        self.inner.read(into)
    }

    fn has_failed(&self) -> bool {
        self.inner.has_failed()
    }
}

// How often a stream is read, seven bytes at a time.
fn reads(alloc: Global, stream: &[u8]) -> usize {
    let mut space = [0; 4096];
    let mut reader = Counting {
        inner: CutReader::new(stream, 7, None),
        reads: 0,
    };
    let mut writer = CutWriter::new(&mut space, 7, None);
    let _ = guess_on(alloc, &mut reader, &mut writer);
    reader.reads
}

// After the end nothing is read.
#[test]
fn failures_cut_lines_and_ends(rt: HostRuntime) -> Result<(), Fail> {
    let alloc = rt.alloc();
    let stream = long_stream(alloc, 1_048_600)?;
    let is_cut = is_cut(alloc, stream.as_slice());
    assert!(rt; fails(alloc) && is_cut && reads(alloc, STREAM) == 4 && reads(alloc, b"") == 1);
    Ok(())
}

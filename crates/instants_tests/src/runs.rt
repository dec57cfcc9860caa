//! Runs of the program: words, a stream, and what is written; devices that fail, memory refused.

ghost use Rattle.std.specs.Prelude.{◌≡◌, false};

use instants::{ByteReader, ByteWriter, CutReader, CutWriter};
use instants_lines::{LinesFault, run_words};
use std::alloc::{AllocError, Global};
use std::test::Fail;

// Words parted by bars, a stream, and its output. Further runs are rows of the program `rows`.
static RUNS: [(&str, &str, &str); 4] = [
    (
        "key|+00:00|-|64|label|web|strftime|%d/%b/%Y:%T %z",
        "[10/Oct/2000:13:55:36 -0700] GET\nnone",
        "2000-10-10T20:55:36.000000000Z\tweb\t[10/Oct/2000:13:55:36 -0700] GET\n! none\tweb\tnone\n",
    ),
    (
        "carry|label|a worker|rfc3339",
        "2024-05-01T10:00:00Z up\n  trace\n",
        "2024-05-01T10:00:00.000000000Z\ta worker\t2024-05-01T10:00:00Z up\n\
         2024-05-01T10:00:00.000000000Z\ta worker\t  trace\n",
    ),
    (
        "key|+00:00|+00:00|100|year|2023|strftime|%b %e %T",
        "Dec 31 23:59:59 h\nJan  1 00:00:01 h\nDec 31 23:59:58 h",
        "2023-12-31T23:59:59.000000000Z\tDec 31 23:59:59 h\n2024-01-01T00:00:01.000000000Z\tJan  1 00:00:01 h\n\
         2023-12-31T23:59:58.000000000Z\tDec 31 23:59:58 h\n",
    ),
    (
        "key|+00:00|+00:00|100|year|2023|strftime|%b %e %T|strftime|%F %T",
        "2024-02-28 10:00:00 h\nFeb 29 10:00:00 h",
        "2024-02-28T10:00:00.000000000Z\t2024-02-28 10:00:00 h\n2024-02-29T10:00:00.000000000Z\tFeb 29 10:00:00 h\n",
    ),
];

// A run of words on these devices, whatever they are: of its promises the tests need none.
fn run_words_on<'a, R: ByteReader, W: ByteWriter>(
    alloc: Global,
    words: &[&'a str],
    reader: &mut R,
    writer: &mut W,
) -> Result<(), LinesFault<'a>>
    requires reader { R.failed reader.old ≡ false }
    requires writer { W.failed writer.old ≡ false }
{
    run_words(alloc, words, None, reader, writer)
}

/// What a run of words answers, which are parted by bars. Its reads fail after so many bytes.
pub(crate) fn run<'a>(
    alloc: Global,
    words: &'a str,
    stream: &[u8],
    read_fails: Option<usize>,
    space: &mut [u8],
) -> Option<Result<(), LinesFault<'a>>> {
    let words: Vec<&'a str> = words.split('|').collect(alloc).ok()?;
    let mut reader = CutReader::new(stream, 7, read_fails);
    let mut writer = CutWriter::new(space, 7, None);
    Some(run_words_on(alloc, words.as_slice(), &mut reader, &mut writer))
}

/// The byte that stands after these in what is written by words for a stream, if that begins with them and there is no fault;
/// 0 at its end.
pub(crate) fn next_byte(alloc: Global, words: &str, stream: &str, bytes: &str) -> Option<u8> {
    let mut space = [0; 400];
    match run(alloc, words, stream.as_bytes(), None, &mut space) {
        Some(Ok(())) if space.starts_with(bytes.as_bytes()) => space.get(bytes.len()).copied(),
        _ => None,
    }
}

#[test]
fn runs(rt: HostRuntime) {
    for row in &RUNS {
        let (words, stream, output) = *row;
        assert!(rt;
            next_byte(rt.alloc(), words, stream, output) == Some(0),
            "{words}"
        );
    }
}

// Where memory is refused no line is written. The status 1 says that, since the devices work and the words are right.
#[test]
fn memory_refused(rt: HostRuntime) -> Result<(), Fail> {
    let words = ["carry", "+00:00", "-", "100", "rfc3339", "strftime", "%s"];
    let mut space = [0; 100];
    let mut reader = CutReader::new(b"at 1609556645\n", 7, None);
    let mut writer = CutWriter::new(&mut space, 7, None);
    match run_words_on(rt.alloc(), &words, &mut reader, &mut writer) {
        Ok(()) => {
            let output = b"2021-01-02T03:04:05.000000000Z\tat 1609556645\n";
            assert!(rt; writer.written() == output.as_slice());
            Ok(())
        }
        Err(fault) => {
            assert!(rt; fault.status() == 1 && writer.written().is_empty());
            Err(Fail::from(AllocError))
        }
    }
}

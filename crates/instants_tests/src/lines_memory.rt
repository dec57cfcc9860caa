//! Lines in memory: their keys, their dates as numbers, rooms that are too small, memory refused.

use crate::zoned::FILE;
use instants_lines_memory::{Above, LineDate, OpenFault, ZonedLines};
use std::alloc::{AllocError, Global};
use std::test::Fail;

// Words parted by bars, an input, and its lines after their keys. Further inputs are compared with the program by `tools/try_lines.py`.
static KEYS: [(&str, &str, &str); 3] = [
    (
        "key|+00:00|-|64|label|web|strftime|%d/%b/%Y:%T %z",
        "[10/Oct/2000:13:55:36 -0700] GET\nnone",
        "2000-10-10T20:55:36.000000000Z\tweb\t[10/Oct/2000:13:55:36 -0700] GET\n! none\tweb\tnone\n",
    ),
    (
        "carry|rfc3339",
        "2024-05-01T10:00:00Z up\n  2024-05-01T09:00:00Z deep\n",
        "2024-05-01T10:00:00.000000000Z\t2024-05-01T10:00:00Z up\n\
         2024-05-01T10:00:00.000000000Z\t  2024-05-01T09:00:00Z deep\n",
    ),
    (
        "key|+02:00|Europe/Berlin|strftime|%F %T",
        "at 2024-07-01 10:00:00\n",
        "2024-07-01T10:00:00.000000000+02:00\tat 2024-07-01 10:00:00\n",
    ),
];

// Nothing above.
fn beginning() -> Above {
    Above {
        indent: 0,
        state: 0,
        len: 0,
        key: [0; 64],
    }
}

// What words ask for that are parted by bars.
fn opened<'a>(alloc: Global, words: &'a str, zone: &[u8]) -> Result<ZonedLines<'a>, OpenFault<'a>> {
    let words: Vec<&'a str> = words.split('|').collect(alloc)?;
    ZonedLines::of_words(alloc, words.as_slice(), zone)
}

// Whether an input has this output, also in a room of so many bytes, and its beginning in one of fewer.
fn has_output(alloc: Global, words: &str, input: &[u8], output: &[u8]) -> bool {
    let Ok(lines) = opened(alloc, words, FILE) else {
        return false;
    };
    let mut space = [7; 200];
    let len = output.len();
    if len == 0 || len >= 200 {
        return false;
    }
    let (mut above, mut other) = (beginning(), beginning());
    if lines.keys_over(&mut above, input, &mut space) != Ok(len) || space[len] != 7 {
        return false;
    }
    space.starts_with(output)
        && lines
            .keys_over(&mut other, input, &mut space[..len - 1])
            .is_err()
        && space[..len - 1] == output[..len - 1]
        && other.state == 0
}

#[test]
fn keys(rt: HostRuntime) {
    for row in &KEYS {
        let (words, input, output) = *row;
        assert!(rt;
            has_output(rt.alloc(), words, input.as_bytes(), output.as_bytes()),
            "{words}"
        );
    }
}

// Below the lines above that are handed in, a line without a date takes their key, and one that begins deeper goes on with them.
#[test]
fn keys_below(rt: HostRuntime) -> Result<(), Fail> {
    let Ok(lines) = opened(rt.alloc(), "carry|rfc3339", &[]) else {
        return Err(Fail::from(AllocError));
    };
    let mut space = [0; 200];
    let mut above = beginning();
    let first = lines.keys_over(&mut above, b"2024-05-01T10:00:00Z up\n", &mut space);
    assert!(rt; first == Ok(55) && above.state == 2 && above.len == 30 && above.indent == 0);
    let second = lines.keys_over(&mut above, b"  2024-05-01T09:00:00Z deep", &mut space);
    assert!(rt; second == Ok(59) && space.starts_with(b"2024-05-01T10:00:00.000000000Z\t  2024"));
    Ok(())
}

// A date as numbers: its seconds, its nanoseconds, the number of why there is none, and where it is.
fn date(seconds: i64, nanoseconds: u32, reason: u32, start: usize, end: usize) -> LineDate {
    LineDate {
        seconds,
        nanoseconds,
        reason,
        start,
        end,
    }
}

// The dates of an input, by words that are parted by bars, in a room for as many as there are.
fn has_dates(alloc: Global, words: &str, input: &[u8], dates: &[LineDate]) -> bool {
    let Ok(lines) = opened(alloc, words, FILE) else {
        return false;
    };
    let mut space = [date(0, 0, 0, 0, 0); 8];
    let count = dates.len();
    if count == 0 || count > 8 {
        return false;
    }
    lines.dates_over(input, &mut space) == Ok(count)
        && space.starts_with(dates)
        && lines.dates_over(input, &mut space[..count - 1]).is_err()
}

#[test]
fn dates(rt: HostRuntime) {
    let dates = [
        date(1_704_103_200, 500_000_000, 0, 0, 22),
        date(0, 0, 100, 0, 0),
        date(0, 0, 201, 2, 22),
    ];
    let input = b"2024-01-01T10:00:00.5Z up\nnone\na 2024-01-01T10:00:00Zulu\n";
    assert!(rt; has_dates(rt.alloc(), "key|rfc3339", input, &dates));
    let dates = [
        date(0, 0, 203, 0, 19),
        date(0, 0, 204, 0, 19),
        date(0, 0, 205, 0, 19),
    ];
    let input = b"2024-03-31 02:30:00\n2024-10-27 02:30:00\n2024-07-01 10:00:00 +0100\n";
    assert!(rt;
        has_dates(
            rt.alloc(),
            "key|+00:00|Europe/Berlin|strftime|%F %T",
            input,
            &dates
        )
    );
    let dates = [date(0, 0, 208, 6, 26), date(1_704_103_200, 0, 0, 6, 26)];
    let input = b"{\"t\":\"2024-01-01T10:00:00Z\\u0041\"}\n{\"t\":\"2024-01-01T10:00:00Z\"}";
    assert!(rt; has_dates(rt.alloc(), "key|field|t|rfc3339", input, &dates));
    let dates = [date(0, 0, 600, 0, 20)];
    assert!(rt;
        has_dates(
            rt.alloc(),
            "key|+14:00|rfc3339",
            b"9999-12-31T23:00:00Z\n",
            &dates
        )
    );
}

#[test]
fn sentences(rt: HostRuntime) {
    let refused = [
        (
            "replace|rfc3339",
            &[][..],
            "instants-lines: the calls have modes key and carry",
        ),
        (
            "key|rfc3339",
            b"TZif",
            "instants-lines: the zone is cut off",
        ),
        (
            "key|+00:00|Europe/Berlin|strftime|%F %T",
            &[],
            "instants-lines: \"Europe/Berlin\": there is no such zone",
        ),
    ];
    for row in &refused {
        let (words, zone, sentence) = *row;
        let told = match opened(rt.alloc(), words, zone) {
            Ok(_) => false,
            Err(fault) => fault.status() == 2
                && format!(in rt.alloc(); "{fault}").is_ok_and(|text| text.as_str() == sentence),
        };
        assert!(rt; told, "{words}");
    }
}

// Where memory is refused nothing is opened, and the status says that.
#[test]
fn memory_refused(rt: HostRuntime) -> Result<(), Fail> {
    match opened(rt.alloc(), "key|+00:00|Europe/Berlin|strftime|%F %T", FILE) {
        Ok(_) => Ok(()),
        Err(fault) => {
            assert!(rt; fault.status() == 1);
            Err(Fail::from(AllocError))
        }
    }
}

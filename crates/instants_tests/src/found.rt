//! What a finder finds in a line, and where memory is refused for it. Further lines are those of `dates`.

use instants::SourceText;
use instants_found::{Doubt, Finder, Finding, KeptDay};
use instants_prefixes::NOTHING;
use instants_sources::Source;
use std::alloc::{AllocError, Global};
use std::test::Fail;

// The place of a date's first byte and that after its last one, and its Unix time.
type Told = Option<(usize, usize, i64)>;

fn as_told(finding: Option<Finding>) -> Told {
    match finding {
        Some(Finding::There(date)) => {
            let second = date.moment.moment().unix_timestamp();
            Some((date.start, date.end, second))
        }
        _ => None,
    }
}

// What is found by the two calls that `find` is made of.
fn told_in_two(finder: &Finder, line: &[u8]) -> Told {
    let start = finder.undated_len(line)?;
    as_told(finder.find_from(&NOTHING, &mut KeptDay::none(), line, start))
}

// What is found at once, where bytes are passed over before it.
fn told_at_once(finder: &Finder, line: &[u8]) -> Told {
    let start = finder.undated_len(line)?;
    let date = finder.plain_date(line, start)?;
    as_told(Some(Finding::There(date)))
}

// Where a date of the second source goes on, at the place where the line's date is in doubt.
fn going_on(finder: &Finder, line: &[u8]) -> Option<(usize, usize)> {
    let Some(Finding::Doubtful(place)) = finder.find(&NOTHING, line) else {
        return None;
    };
    let doubted = finder.doubt_of(&NOTHING, line, place, 1)?;
    match doubted.doubt {
        Doubt::After => Some((doubted.start, doubted.end)),
        _ => None,
    }
}

// A line, what is found in it, and where a date goes on.
static LINES: [(&[u8], Told, Option<(usize, usize)>); 4] = [
    (b"up", None, None),
    (
        b"at 2021-01-02T03:04:05Z",
        Some((3, 23, 1_609_556_645)),
        None,
    ),
    (b"at 2021-01-02T03:04:05Zulu", None, Some((3, 23))),
    (
        b"2 Jan 2021 03:04:05 +0000 2021-01-02T03:04:05Z",
        Some((0, 25, 1_609_556_645)),
        None,
    ),
];

// Whether a row is so.
fn is_so(finder: &Finder, row: &(&[u8], Told, Option<(usize, usize)>)) -> bool {
    let (line, told, doubt) = *row;
    as_told(finder.find(&NOTHING, line)) == told
        && told_in_two(finder, line) == told
        && going_on(finder, line) == doubt
}

fn all_are_so(finder: &Finder) -> bool {
    for row in &LINES {
        if !is_so(finder, row) {
            return false;
        }
    }
    finder.sources().len() == 2
}

fn sources(alloc: Global) -> Result<Vec<Source<'static>>, AllocError> {
    let mut sources = Vec::new(alloc);
    sources.push(Source::Rfc2822)?;
    sources.push(Source::Rfc3339)?;
    Ok(sources)
}

fn sources_of_logs(alloc: Global) -> Result<Vec<Source<'static>>, AllocError> {
    let mut sources = Vec::new(alloc);
    sources.push(Source::Rfc3339)?;
    if let Ok(source) = Source::new(alloc, SourceText::Strftime("%d/%b/%Y:%T %z")) {
        sources.push(source)?;
    }
    Ok(sources)
}

// What is found at once in a line, and where it begins to be looked for.
fn is_found_at_once(finder: &Finder, line: &[u8]) -> bool {
    finder.undated_len(line) == Some(1)
        && told_at_once(finder, line) == Some((1, 27, 1_609_556_645))
}

#[test]
fn finders(rt: HostRuntime) -> Result<(), Fail> {
    let alloc = rt.alloc();
    let finder = Finder::new(alloc, sources(alloc)?, 100)?;
    let of_logs = Finder::new(alloc, sources_of_logs(alloc)?, 100)?;
    let line = b"[02/Jan/2021:03:04:05 +0000] up";
    assert!(rt; all_are_so(&finder) && is_found_at_once(&of_logs, line));
    Ok(())
}

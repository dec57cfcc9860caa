//! What a timeline is made of, and the laws of lines.

use calendar::UtcOffset;
use instants::laws::{
    appended, difference, difference_added, embedding, fixed_point, joined_streams,
    lines_read_again, order_of_lines, two_targets,
};
use instants::{SourceText, Timeline, asked_timeline, rfc3339_line};
use instants_answers::is_target;
use std::alloc::Global;

// Whether adding the difference of two places to the one leads to the other and back, and whether the line of the one is
// answered as itself.
fn leads_back(timeline: &Timeline, one: &[u8], other: &[u8]) -> [bool; 3] {
    match (timeline.place(one), timeline.place(other)) {
        (Ok(one), Ok(other)) => {
            let line = rfc3339_line(one);
            [
                difference_added(one, other) == Some(one),
                difference_added(other, one) == Some(other),
                timeline.answer_line(line.as_bytes()) == line,
            ]
        }
        _ => [false; 3],
    }
}

const FIRST: &[u8] = b"0000-01-01T00:30:00Z";

const LAST: &[u8] = b"9999-12-31T23:59:59.999999999Z";

// The target, the assumed offset and the number of sources of a timeline, and whether its lines lead back.
type Parts = (UtcOffset, Option<UtcOffset>, usize, [bool; 3]);

fn parts(alloc: Global, target: UtcOffset) -> Option<Parts> {
    if !is_target(target) {
        return None;
    }
    match Timeline::new(alloc, &[SourceText::Rfc3339], target, Some(target)) {
        Ok(timeline) => {
            let (shown, assumed) = (timeline.target().offset(), timeline.assumed());
            let lead_back = leads_back(&timeline, FIRST, LAST);
            Some((shown, assumed, timeline.into_sources().len(), lead_back))
        }
        Err(_) => None,
    }
}

// The laws are contracts: nothing is answered.
#[test]
fn laws() {
    appended();
    joined_streams();
    embedding();
    two_targets();
    fixed_point();
    order_of_lines();
    lines_read_again();
    difference();
}

// The limit of lines that words say.
fn limit(alloc: Global, words: &[&str]) -> Option<usize> {
    match asked_timeline(alloc, words) {
        Ok(asked) => Some(asked.1),
        Err(_) => None,
    }
}

#[test]
fn timelines(rt: HostRuntime) {
    let target = UtcOffset::from_hms(0, -30, 0).expect(&rt, "an offset");
    let words = ["+05:30", "-01:00", "1048576", "rfc3339"];
    assert!(rt;
        parts(rt.alloc(), target) == Some((target, Some(target), 1, [true; 3]))
            && limit(rt.alloc(), &words) == Some(1_048_576)
    );
}

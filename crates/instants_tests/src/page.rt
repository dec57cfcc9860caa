//! The lines at the head of the crate `instants`.
use calendar::UtcOffset;
use instants::{LineFault, SourceText, Timeline};
use std::alloc::Global;

fn answers(timeline: &Timeline) -> [bool; 3] {
    let answer = timeline.answer_line(b"01/01/2021 22:04 -0500");
    let refused = timeline.answer_line(b"yesterday");
    [
        answer.as_bytes() == b"2021-01-02T03:04:00.000000000Z".as_slice(),
        timeline.place(b"yesterday") == Err(LineFault::Component("year")),
        refused.as_bytes() == b"! component year".as_slice(),
    ]
}

fn lines(alloc: Global) -> Option<[bool; 3]> {
    let sources = [SourceText::Rfc3339, SourceText::Strftime("%d/%m/%Y %R %z")];
    match Timeline::new(alloc, &sources, UtcOffset::UTC, None) {
        Ok(timeline) => Some(answers(&timeline)),
        Err(_) => None,
    }
}

#[test]
fn page(rt: HostRuntime) {
    assert!(rt; lines(rt.alloc()) == Some([true; 3]));
}

//! Lines with dates onto one timeline: each is answered by a date-time of fixed width, or by why it has none.
//!
//! ```
//! fn answers(timeline: &Timeline) -> [bool; 3] {
//!     let answer = timeline.answer_line(b"01/01/2021 22:04 -0500");
//!     let refused = timeline.answer_line(b"yesterday");
//!     [
//!         answer.as_bytes() == b"2021-01-02T03:04:00.000000000Z".as_slice(),
//!         timeline.place(b"yesterday") == Err(LineFault::Component("year")),
//!         refused.as_bytes() == b"! component year".as_slice(),
//!     ]
//! }
//!
//! fn lines(alloc: Global) -> Option<[bool; 3]> {
//!     let sources = [SourceText::Rfc3339, SourceText::Strftime("%d/%m/%Y %R %z")];
//!     match Timeline::new(alloc, &sources, UtcOffset::UTC, None) {
//!         Ok(timeline) => Some(answers(&timeline)),
//!         Err(_) => None,
//!     }
//! }
//! ```
//!
//! All three are true. `alloc` is the allocator of the runtime that `main` or a test is handed. `UtcOffset` is that of the
//! crate `calendar`; a target, and an offset that is assumed, has whole minutes, within 23:59.
//!
//! - `Timeline` holds sources, which are tried in order, the target offset, and the offset to assume for lines
//!   without one. Of its calls `new` alone takes memory. A source that is no description is refused as `NewFault`,
//!   with its place, counted from 1.
//! - `Timeline::place` gives a line's moment at the target, or why it has none, a `LineFault`;
//!   `Timeline::answer_line` gives the bytes of either.
//! - `run` writes the answer to each line of a `ByteReader` to a `ByteWriter`. The first device that fails ends it,
//!   as `RunFault`. `StdReader`, `StdWriter` and `BlockWriter` stand over devices of std, `CutReader` and `CutWriter`
//!   over memory.
//! - `read_words` reads the words of the program `instants`, and `run_words` is all that it does between its words
//!   and its end. `ProgramFault` has the sentence and the status.
//! - `shown_at`, `answer_moment`, `answer_named` and `answer_by` show a moment, a moment that a text names, and answer a line by one
//!   source, as a timeline does.
//! - `rfc3339_line` writes a moment as a line. It asks for a year from 0 to 9999 and an offset of whole minutes
//!   within 23:59, as `fits_line` tests.
//! - `laws` has what follows from the contracts, as that lines compare as their instants do. A call of a law hands it to a
//!   proof.
#![tactic(auto)]

pub mod laws;

pub use instants_answers::{
    Answer, fits_line, fits_utc_line, rfc3339_line, utc_line_by_timestamp, utc_line_by_utc,
};
pub use instants_sources::{Described, Named, Source};
pub use instants_stream::{
    BlockWriter, ByteReader, ByteWriter, CutReader, CutWriter, DeviceFailed, RunFault, StdReader,
    StdWriter, TooLittleRoom,
};
pub use instants_timeline::{
    FaultText, LineFault, NewFault, ProgramFault, RunsLines, Timeline, answer_by, answer_moment,
    answer_named, asked_timeline, run, run_over, run_program, run_words, shown_at,
};
pub use instants_words::{SourceText, Sources, Words, WordsFault, read_words};

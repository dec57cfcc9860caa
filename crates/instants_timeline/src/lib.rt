//! The timeline: sources that are tried in order for a line, the answers to lines, the run over a stream, and all that the
//! program `instants` does between its words and its end. The crate `instants` gives it on, with what belongs to it.
#![tactic(auto)]

mod program;
mod runs;
mod shown;
mod timeline;

pub use instants_answers::{
    Answer, fits_line, fits_utc_line, rfc3339_line, utc_line_by_timestamp, utc_line_by_utc,
};
pub use instants_faults::{FaultText, LineFault, NewFault, ProgramFault, RunsFault};
pub use instants_sources::{Described, Source};
pub use instants_stream::{
    BlockWriter, ByteReader, ByteWriter, CutReader, CutWriter, DeviceFailed, RunFault, StdReader,
    StdWriter, TooLittleRoom,
};
pub use instants_words::{SourceText, Sources, Words, WordsFault, read_words};
pub use program::{RunsLines, asked_timeline, run_program, run_words};
pub use runs::{run, run_over};
pub use shown::{answer_by, answer_moment, answer_named, shown_at};
pub use timeline::Timeline;

//! Which formats date the lines of a stream: what `instants-lines guess` writes.
#![tactic(auto)]

mod candidate;
mod formats;
mod line;
mod program;
mod rank;
mod sample;
mod tally;
mod text;

pub use program::guess;

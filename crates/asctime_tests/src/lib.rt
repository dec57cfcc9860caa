//! A format that no program reads, to show what a new one takes: its definition and its layout (`specs`), a lemma (`proofs`), and
//! its readings.
#![tactic(auto)]

mod asctime;

pub use asctime::{read_exact, read_fields};

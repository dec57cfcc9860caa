//! What can be wrong: with a line, with the sources of a timeline, with a run, and with the program; and what is said of it.
#![tactic(auto)]

mod line_fault;
mod new_fault;
mod program_fault;
mod runs_fault;

pub use line_fault::{LineFault, fill_no_year};
pub use new_fault::NewFault;
pub use program_fault::{FaultText, ProgramFault};
pub use runs_fault::RunsFault;

//! The calls that every kind of moment answers, and runs of them.
#![tactic(auto)]

mod calls;
mod moment;
mod run;

pub use calls::{MomentCall, MomentReply};
pub use moment::Moment;
pub use run::run_calls;

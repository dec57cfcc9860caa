//! A zone's clock: a list of steps at which its distance from UTC changes, and the moments that a reading of it names.
#![tactic(auto)]

mod building;
pub mod laws;
mod lookup;
mod names;
mod sure;
mod zone;

pub use zone::{Moments, OFFSET_BOUND, Step, Zone};

//! Lengths of time with a sign.
#![tactic(auto)]

mod arithmetic;
mod comparing;
mod duration;
pub mod laws;
mod numbers;
mod operators;
mod products;
mod quotients;
mod sums;
mod text;
mod views;

pub use duration::SignedDuration;

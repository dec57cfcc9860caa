//! Texts that are read by their parts, sixteen bytes at a time where parts have fixed widths.
//!
//! `Strides` are made for a list of parts of `parsing_layout`, and then checked. A stride tests all bytes of the parts that it
//! takes in one step, and moves the digits of all their numbers to the lanes of their fields. Parts between strides, such as
//! names, are read one by one. What was found is `Found`: its numbers by what they mean.
#![tactic(auto)]

mod found;
mod lanes;
mod making;
mod part;
mod step;
mod stride;
mod strides;

pub use found::Found;
pub use strides::Strides;

//! The tree of a description of version 3.
#![tactic(auto)]

mod component;
mod description;
mod from_component;
mod inner;
mod owned;
mod reserved;
mod shown;
mod width;

pub use description::FormatDescriptionV3;
pub use inner::{FormatDescriptionV3Inner, Lent};

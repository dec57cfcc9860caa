//! The words of a description: where it may be cut, what stands there, and what is wrong with it.
#![tactic(auto)]

mod cutting;
mod description_fault;
mod invalid_format_description;
mod literals;
mod modifiers;
mod names;
mod rest;
mod runs;
mod version;

pub use cutting::{cut, whole_of};
pub use description_fault::DescriptionFault;
pub use invalid_format_description::InvalidFormatDescription;
pub use literals::{escape, literal};
pub use modifiers::{Modifier, modifiers_of};
pub use names::{begins, closed, is_named, name_of};
pub use rest::Rest;
pub use runs::past_space;
pub use version::DescriptionVersion;

//! What descriptions of versions 1, 2 and 3 are, and the first fault of any other text, as relations (`specs/Spelling`,
//! `specs/Faulty`); the same read from left to right; in `proofs/` that both are one.
#![tactic(auto)]

mod components;
mod flat;
mod nested;
mod pieces;
mod texts;

pub use flat::items_of;
pub use nested::tree_of;

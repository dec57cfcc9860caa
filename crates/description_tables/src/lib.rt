//! The tables of components: what a name and its modifiers mean.
#![tactic(auto)]

mod chosen;
mod component;
mod keys;
mod lookup;
mod made;
mod names;
mod values;

pub use component::component_of;

//! Tests of the crate that finds the part of a line that is one field.
#![tactic(auto)]

#[cfg(test)]
mod columns;
#[cfg(test)]
mod members;

//! Tests of the crates of descriptions and of readings by what takes types: modifiers, trees and their copies, items and
//! records made by hand, parts of dates and moments, refusals, laws. What texts are read as stands in the rows of the
//! program `rows`.
#![tactic(auto)]

#[cfg(test)]
mod alternatives;
#[cfg(test)]
mod asctime;
#[cfg(test)]
mod bounds;
#[cfg(test)]
mod builders;
#[cfg(test)]
mod components;
#[cfg(test)]
mod dates;
#[cfg(test)]
mod errors;
#[cfg(test)]
mod fields;
#[cfg(test)]
mod items;
#[cfg(test)]
mod laws;
#[cfg(test)]
mod layouts;
#[cfg(test)]
mod memory;
#[cfg(test)]
mod moments;
#[cfg(test)]
mod page;
#[cfg(test)]
mod printed;
#[cfg(test)]
mod records;
#[cfg(test)]
mod strides;
#[cfg(test)]
mod support;
#[cfg(test)]
mod trees;
#[cfg(test)]
mod words;

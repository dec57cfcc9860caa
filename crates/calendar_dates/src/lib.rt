//! Dates: their views, steps, arithmetic and texts, and walks over them.
#![tactic(auto)]

mod arithmetic;
mod comparing;
mod date;
mod date_iter;
mod occurrence;
mod replace;
mod text;
mod views;

pub use date::Date;
pub use date_iter::DateIter;

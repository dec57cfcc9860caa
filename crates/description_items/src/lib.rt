//! What descriptions of date and time texts are made of.
#![tactic(auto)]

mod component;
mod convert;
mod formats;
mod item;
mod modern;
pub mod modifier;
mod period;
mod same;
mod shown;

pub use base::DifferentVariant;
pub use component::Component;
pub use formats::{Iso8601, Rfc2822, Rfc3339};
pub use item::{BorrowedFormatItem, FormatItem, StaticFormatDescription};
pub use period::Period;

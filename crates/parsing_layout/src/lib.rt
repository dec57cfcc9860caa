//! Layouts: what stands in a text, part after part.
//!
//! A layout is a list of parts. What a text says by it is one definition: each part reads a piece of the text, and tells a number
//! by what it means. It knows no format: a format says what its lists are, and what the numbers of a text mean. What reads parts fast,
//! as `parsing_shapes` and `parsing_strides`, is proved against that definition.
#![tactic(auto)]

mod bounds;
mod items;
mod names;
mod parts;
mod pieces;
mod said;
mod stretch;

pub use bounds::Bounds;
pub use items::Item;
pub use names::{month_name_at, weekday_name_at};
pub use parts::{Field, Names, Part};
pub use pieces::number_at;
pub use said::{are_apart, field_of, place_of, say};
pub use stretch::{Kind, Stretch};

//! What follows from the contracts of `instants`: laws, each the contract of a function. A call of a law hands it to a proof.
//!
//! But for `difference_added`, which moves a moment by a difference, the calls do nothing.

mod lines;
mod moments;

pub use instants_answers::laws::order_of_lines;
pub use instants_stream::laws::joined_streams;
pub use lines::{appended, embedding, fixed_point, lines_read_again, two_targets};
pub use moments::{difference, difference_added};

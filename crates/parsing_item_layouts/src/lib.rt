//! What descriptions read, as layouts: the bytes that their lines begin with, whatever is chosen in them.
#![tactic(auto)]

mod first_bounds;
mod first_bytes;
mod forms;
mod front;
mod walk;

pub use first_bounds::FirstBounds;
pub use first_bytes::FirstBytes;
pub use forms::{Form, Piece, form_of};

//! The readings of RFC 2822: the numbers of a text, and the moment that it names.
#![tactic(auto)]

mod bytes;
mod comment;
mod direct;
mod folding;
pub mod laws;
mod names;
mod parts;
mod reading;
mod spacing;

pub use comment::{comments_and_white_space, is_plain_comment, may_begin, one_space};
pub use direct::read_exact;
pub use folding::folding_white_space;
pub use names::zone_of;
pub use parts::Rfc2822Parts;
pub use reading::parse_prefix;
pub use spacing::past_spacing;

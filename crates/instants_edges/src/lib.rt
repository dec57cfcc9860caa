//! What stands beside a date in a line: words, clocks, offsets and years, by the bytes alone.
#![tactic(auto)]

mod apart;
mod bytes;
mod clock;
mod colons;
mod digits;
mod edge;
mod forms;
mod offset;
mod pieces;
mod text;
mod words;
mod year;

pub use bytes::byte_at;
pub use clock::{has_clock_before, has_clock_beside, has_half_after};
pub use colons::{LANES, load};
pub use edge::{is_edge, may_say};
pub use offset::{first_after, has_another_offset, offset_said, word_after};
pub use pieces::{blanks, reach, trimmed_length, zone_length};
pub use text::{iso_text, mail_text};
pub use year::has_another_year;

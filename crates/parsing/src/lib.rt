//! Dates, times of day, offsets and moments, read from bytes by a description or a well-known format.
//!
//! ```
//! fn readings(items: &[BorrowedFormatItem<'_>]) -> [bool; 3] {
//!     let moment = Items(items).parse_offset_date_time(b"01.07.2003, 10:52 +02", None);
//!     let same = Rfc2822.parse_offset_date_time(b"Tue, 1 Jul 2003 10:52 +0200", None);
//!     let refused = Rfc3339.parse_offset_date_time(b"2003-07-01", None);
//!     [moment.is_ok(), moment == same, refused.is_err()]
//! }
//! ```
//!
//! All three are true for the items of `"[day].[month].[year], [hour]:[minute] [offset_hour]"`, which `parse` of the crate
//! `description` gives. It takes memory, and nothing of this crate does.
//!
//! - `Parsable` has the readings, of `Items`, which are a slice of items, of a tree of version 3, and of `Rfc2822`,
//!   `Rfc3339` and `Iso8601`. `parse_date` to `parse_offset_date_time` read all of the bytes to one value;
//!   `parse_into` reads their prefix into a record and leaves the rest.
//! - The second argument is what is said beforehand: a `Parsed` with, say, the offset to assume, or `None`.
//! - `Parsed` is the record of what was read, part by part. `Date`, `Time` and the others are made of it by
//!   `try_from`.
//! - What is refused is refused as `Parse`: the bytes can't be read (`ParseFromDescription`), or what they say names
//!   no value (`TryFromParsed`). `Error` is any refusal of these crates but lack of memory.
//! - `Parsable::parse_into_counted` also counts the items that it tries. No bytes take more than `nodes_in_items` or
//!   `nodes_in_description` says.
//! - `laws` has what follows from the contracts. A call of a law hands it to a proof.
#![tactic(auto)]

mod descriptions;
mod error;
pub mod laws;
mod node_laws;
mod two_roads;

pub use description_items::{Iso8601, Rfc2822, Rfc3339};
pub use error::Error;
pub use parsing_combinator::{Parse, ParseFromDescription, TryFromParsed};
pub use parsing_parsable::{Items, Parsable, TwoRoads, nodes_in_description, nodes_in_items};
pub use parsing_record::Parsed;
pub use parsing_values::is_valid_leap_second_stand_in;

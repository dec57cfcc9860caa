//! Zones from TZif files, RFC 9636: their tables, their abbreviations, and what a file's fault is.
#![tactic(auto)]

mod bytes;
mod fault;
mod footer;
mod layout;
mod names;
mod read;
mod table;

pub use fault::ZoneFault;
pub use layout::FILE_LIMIT;
pub use read::read_zone;

//! Descriptions of how dates and times are written, read from their texts in any of four languages.
//!
//! ```
//! let items = parse(alloc, "[day]/[month]")?;
//! let letters = parse_strftime_borrowed(alloc, "%d/%m")?;
//! assert!(rt; items.as_slice() == letters.as_slice());
//! let refused = format!(in alloc; "{:?}", parse(alloc, "[day]/[month").err())?;
//! assert!(rt; refused.as_str() == "Some(Description(UnclosedOpeningBracket { index: 6 }))");
//! ```
//!
//! Here `rt` is the runtime that `main` or a test is handed, and `alloc` its allocator; each call that takes memory
//! takes it first. No date is read or written here: the crate `parsing` reads bytes by what these calls give.
//!
//! - `parse` reads a description of version 1, `parse_borrowed` one of version 1, 2 or 3, and
//!   `parse_strftime_borrowed` the letters of strftime. What they give borrows the text.
//! - `BorrowedFormatItem` is one item: a text, or a `Component` with its values of `modifier`. Version 3 gives a
//!   tree, `FormatDescriptionV3`, in which items may be missing or be alternatives.
//! - What is refused is refused as `DescriptionFault`: the text's first fault, or lack of memory. The fault is an
//!   `InvalidFormatDescription`, with the index of its byte; its `Display` is a sentence.
//! - `Rfc2822`, `Rfc3339` and `Iso8601` name formats that need no description.
//! - `laws` and `strftime_laws` have what follows from the contracts. A call of a law hands it to a proof.
#![tactic(auto)]

mod calls;
mod described;
pub mod laws;
mod shown;

pub use calls::{parse, parse_borrowed};
pub use described::Description;
pub use description_items::{
    BorrowedFormatItem, Component, DifferentVariant, FormatItem, Iso8601, Period, Rfc2822, Rfc3339,
    StaticFormatDescription, modifier,
};
pub use description_lexer::{DescriptionFault, DescriptionVersion, InvalidFormatDescription};
pub use description_strftime::{laws as strftime_laws, parse_strftime_borrowed};
pub use description_tree::{FormatDescriptionV3, FormatDescriptionV3Inner, Lent};

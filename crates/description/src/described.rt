//! What a text of any version makes.

use description_items::BorrowedFormatItem;
use description_tree::FormatDescriptionV3;

/// A description, as its version has it.
#[derive(Drop)]
pub enum Description<'a> {
    /// Items of version 1 or 2, one after the other.
    Items(Vec<BorrowedFormatItem<'a>>),
    /// A tree of version 3.
    V3(FormatDescriptionV3<'a>),
}

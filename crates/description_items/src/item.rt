//! Items of a description.

use crate::component::Component;

/// An item of a description, which borrows what it is made of.
#[derive(Clone, Copy)]
pub enum BorrowedFormatItem<'a> {
    /// Bytes as they stand. A text gives `StringLiteral` in their place.
    Literal(&'a [u8]),
    /// Text as it stands.
    StringLiteral(&'a str),
    /// A component.
    Component(Component),
    /// Items, one after the other.
    Compound(&'a [BorrowedFormatItem<'a>]),
    /// An item that may be missing.
    Optional(&'a BorrowedFormatItem<'a>),
    /// The first of these items that can be read.
    First(&'a [BorrowedFormatItem<'a>]),
}

/// An item of a description.
pub type FormatItem<'a> = BorrowedFormatItem<'a>;

/// A description that lives as long as the program.
pub type StaticFormatDescription = &'static [BorrowedFormatItem<'static>];

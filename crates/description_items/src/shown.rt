//! Items as a programmer reads them.

use crate::item::BorrowedFormatItem;
use std::fmt;

impl fmt::Debug for BorrowedFormatItem<'_> {
    fn fmt<W: fmt::Write>(&self, f: &mut fmt::Formatter<W>) -> fmt::Result {
        write_item(self, f)
    }
}

// A value after its name.
fn write_named<T: fmt::Debug, W: fmt::Write>(
    name: &str,
    value: &T,
    f: &mut fmt::Formatter<W>,
) -> fmt::Result {
    write!(f, "{name}({value:?})")
}

#[cycle(shown)]
fn write_item<W: fmt::Write>(
    item: &BorrowedFormatItem<'_>,
    f: &mut fmt::Formatter<W>,
) -> fmt::Result {
    match item {
        BorrowedFormatItem::Literal(bytes) => write_named("Literal", bytes, f),
        BorrowedFormatItem::StringLiteral(text) => write_named("StringLiteral", text, f),
        BorrowedFormatItem::Component(component) => write_named("Component", component, f),
        BorrowedFormatItem::Compound(items) => write_items("Compound([", items, f),
        BorrowedFormatItem::Optional(item) => {
            f.write_str("Optional(")?;
            write_item(item, f)?;
            f.write_str(")")
        }
        BorrowedFormatItem::First(items) => write_items("First([", items, f),
    }
}

// The items after their opening, with a comma between them.
#[cycle(shown)]
fn write_items<W: fmt::Write>(
    opening: &str,
    items: &[BorrowedFormatItem<'_>],
    f: &mut fmt::Formatter<W>,
) -> fmt::Result {
    f.write_str(opening)?;
    for (index, item) in items.iter().enumerate() {
        if index > 0 {
            f.write_str(", ")?;
        }
        write_item(item, f)?;
    }
    f.write_str("])")
}

//! Trees as a programmer reads them.

use crate::FormatDescriptionV3;
use crate::inner::{FormatDescriptionV3Inner as Inner, Lent};
use description_items::Component;
use std::fmt;

impl fmt::Debug for FormatDescriptionV3<'_> {
    fn fmt<W: fmt::Write>(&self, f: &mut fmt::Formatter<W>) -> fmt::Result {
        f.write_str("FormatDescriptionV3 { inner: ")?;
        write_node(self.inner(), f)?;
        let bytes = self.max_bytes_needed();
        write!(f, ", max_bytes_needed: {bytes} }}")
    }
}

impl fmt::Debug for Inner<'_> {
    fn fmt<W: fmt::Write>(&self, f: &mut fmt::Formatter<W>) -> fmt::Result {
        write_node(self, f)
    }
}

impl fmt::Debug for Lent<'_> {
    fn fmt<W: fmt::Write>(&self, f: &mut fmt::Formatter<W>) -> fmt::Result {
        f.write_str("Lent { items: ")?;
        write_nodes(self.items, f)?;
        f.write_str(" }")
    }
}

// A component, as it is shown by itself.
fn write_component<W: fmt::Write>(component: Component, f: &mut fmt::Formatter<W>) -> fmt::Result {
    write!(f, "{component:?}")
}

// A literal, by the name of its node.
fn write_literal<W: fmt::Write>(name: &str, text: &str, f: &mut fmt::Formatter<W>) -> fmt::Result {
    write!(f, "{name}({text:?})")
}

#[cycle(shown)]
fn write_node<W: fmt::Write>(node: &Inner<'_>, f: &mut fmt::Formatter<W>) -> fmt::Result {
    if let Some(component) = node.component() {
        return write_component(component, f);
    }
    match node {
        Inner::BorrowedLiteral(text) => write_literal("BorrowedLiteral", text, f),
        Inner::OwnedLiteral(text) => write_literal("OwnedLiteral", text, f),
        Inner::BorrowedCompound(lent) => write_list("BorrowedCompound(", lent.items, f),
        Inner::OwnedCompound(items) => write_list("OwnedCompound(", items, f),
        Inner::BorrowedOptional { format, item } => {
            write_optional("BorrowedOptional", *format, item, f)
        }
        Inner::OwnedOptional { format, item } => write_optional("OwnedOptional", *format, item, f),
        Inner::BorrowedFirst(lent) => write_list("BorrowedFirst(", lent.items, f),
        Inner::OwnedFirst(items) => write_list("OwnedFirst(", items, f),
        _ => unreachable!(),
    }
}

// A node that may be missing, by its name.
#[cycle(shown)]
fn write_optional<W: fmt::Write>(
    name: &str,
    format: bool,
    node: &Inner<'_>,
    f: &mut fmt::Formatter<W>,
) -> fmt::Result {
    write!(f, "{name} {{ format: {format}, item: ")?;
    write_node(node, f)?;
    f.write_str(" }")
}

// A node that has a list, from its name and bracket on.
#[cycle(shown)]
fn write_list<W: fmt::Write>(
    opening: &str,
    nodes: &[Inner<'_>],
    f: &mut fmt::Formatter<W>,
) -> fmt::Result {
    f.write_str(opening)?;
    write_nodes(nodes, f)?;
    f.write_str(")")
}

// Nodes between brackets, with a comma between them.
#[cycle(shown)]
fn write_nodes<W: fmt::Write>(nodes: &[Inner<'_>], f: &mut fmt::Formatter<W>) -> fmt::Result {
    f.write_str("[")?;
    for (index, node) in nodes.iter().enumerate() {
        if index > 0 {
            f.write_str(", ")?;
        }
        write_node(node, f)?;
    }
    f.write_str("]")
}

//! All components of a description, whatever they stand in.

use crate::parts::Parts;
use description::{BorrowedFormatItem, FormatDescriptionV3Inner as Inner};

/// Adds what the items have.
#[cycle(items)]
pub fn parts_of_items(items: &[BorrowedFormatItem<'_>], parts: &mut Parts) {
    for item in items {
        parts_of_item(item, parts);
    }
}

#[cycle(items)]
fn parts_of_item(item: &BorrowedFormatItem<'_>, parts: &mut Parts) {
    match item {
        BorrowedFormatItem::Literal(_) | BorrowedFormatItem::StringLiteral(_) => {}
        BorrowedFormatItem::Component(component) => parts.add(*component),
        BorrowedFormatItem::Compound(items) | BorrowedFormatItem::First(items) => {
            parts_of_items(items, parts)
        }
        BorrowedFormatItem::Optional(item) => parts_of_item(item, parts),
    }
}

/// Adds what a node of a tree has.
#[cycle(nodes)]
pub fn parts_of_node(node: &Inner<'_>, parts: &mut Parts) {
    if let Some(component) = node.component() {
        parts.add(component);
        return;
    }
    match node {
        Inner::BorrowedCompound(lent) | Inner::BorrowedFirst(lent) => {
            parts_of_nodes(lent.items, parts)
        }
        Inner::OwnedCompound(nodes) | Inner::OwnedFirst(nodes) => parts_of_nodes(nodes, parts),
        Inner::BorrowedOptional { item, .. } => parts_of_node(item, parts),
        Inner::OwnedOptional { item, .. } => parts_of_node(item, parts),
        _ => {}
    }
}

#[cycle(nodes)]
fn parts_of_nodes(nodes: &[Inner<'_>], parts: &mut Parts) {
    for node in nodes {
        parts_of_node(node, parts);
    }
}

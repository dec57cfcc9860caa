//! Copies that lend nothing.

ghost use Rattle.std.specs.Prelude.{◌≡◌, true, IsOkAnd, IfOk};
ghost use Rattle.description_items.specs.Tree.{Literal, Compound, Optional, First, listed};
ghost use Rattle.description_tree.specs.Forms.{is_owned, are_owned};
ghost use Rattle.description_tree.specs.Inner.{inner_tree, inner_trees};

use crate::inner::FormatDescriptionV3Inner as Inner;
use std::alloc::{AllocError, Global};

// A copy of the node and all that is in it.
#[cycle(owned)]
pub(crate) fn owned<'b>(alloc: Global, node: &Inner<'_>) -> Result<Inner<'b>, AllocError>
    ensures tree { IfOk result (λ copy. inner_tree copy ≡ inner_tree node.now) }
    ensures owned { IfOk result (λ copy. is_owned copy ≡ true) }
{
    if let Some(component) = node.component() {
        return Ok(Inner::from(component));
    }
    match node {
        Inner::BorrowedLiteral(text) => literal(alloc, text),
        Inner::OwnedLiteral(text) => literal(alloc, text),
        Inner::BorrowedCompound(lent) => compound(all_owned(alloc, lent.items)),
        Inner::OwnedCompound(items) => compound(all_owned(alloc, items)),
        Inner::BorrowedOptional { format, item } => optional(alloc, *format, owned(alloc, item)),
        Inner::OwnedOptional { format, item } => optional(alloc, *format, owned(alloc, item)),
        Inner::BorrowedFirst(lent) => first(all_owned(alloc, lent.items)),
        Inner::OwnedFirst(items) => first(all_owned(alloc, items)),
        _ => unreachable!(),
    }
}

// A literal of a copy of the text.
fn literal<'b>(alloc: Global, text: &str) -> Result<Inner<'b>, AllocError>
    ensures tree { IfOk result (λ copy. inner_tree copy ≡ Literal text.now) }
    ensures owned { IfOk result (λ copy. is_owned copy ≡ true) }
{
    Ok(Inner::OwnedLiteral(String::from_str(alloc, text)?))
}

// A list of these copies.
fn compound<'b>(copies: Result<Vec<Inner<'b>>, AllocError>) -> Result<Inner<'b>, AllocError>
    ensures tree { IfOk result (λ node. IsOkAnd copies.entry
        (λ items. inner_tree node ≡ Compound (listed (inner_trees items.items)))) }
    ensures owned { IfOk result (λ node. IsOkAnd copies.entry
        (λ items. is_owned node ≡ are_owned items.items)) }
{
    Ok(Inner::OwnedCompound(copies?))
}

// The first of these copies that can be read.
fn first<'b>(copies: Result<Vec<Inner<'b>>, AllocError>) -> Result<Inner<'b>, AllocError>
    ensures tree { IfOk result (λ node. IsOkAnd copies.entry
        (λ items. inner_tree node ≡ First (listed (inner_trees items.items)))) }
    ensures owned { IfOk result (λ node. IsOkAnd copies.entry
        (λ items. is_owned node ≡ are_owned items.items)) }
{
    Ok(Inner::OwnedFirst(copies?))
}

// An optional node round this copy.
fn optional<'b>(
    alloc: Global,
    format: bool,
    copy: Result<Inner<'b>, AllocError>,
) -> Result<Inner<'b>, AllocError>
    ensures tree { IfOk result (λ node. IsOkAnd copy.entry
        (λ inside. inner_tree node ≡ Optional format (inner_tree inside))) }
    ensures owned { IfOk result (λ node. IsOkAnd copy.entry
        (λ inside. is_owned node ≡ is_owned inside)) }
{
    let item = Box::new(alloc, copy?)?;
    Ok(Inner::OwnedOptional { format, item })
}

// Copies of all of them.
#[cycle(owned)]
fn all_owned<'b>(alloc: Global, nodes: &[Inner<'_>]) -> Result<Vec<Inner<'b>>, AllocError>
    ensures trees { IfOk result (λ copies. inner_trees copies.items ≡ inner_trees nodes.now) }
    ensures owned { IfOk result (λ copies. are_owned copies.items ≡ true) }
{
    let mut copies = Vec::new(alloc);
    for node in nodes {
        copies.push(owned(alloc, node)?)?;
    }
    Ok(copies)
}

//! The bytes that a tree reserves.

ghost use Rattle.std.specs.Prelude.{◌≡◌, ◌^◌, ◌≤◌, IfSome};
ghost use Rattle.std.specs.Option.{IsNone};
ghost use Rattle.description_items.specs.Tree.{listed};
ghost use Rattle.description_tree.specs.Inner.{inner_tree, inner_trees};
ghost use Rattle.description_tree.specs.Reserved.{reserved, reserved_in_turn, greatest_reserved};

use crate::inner::FormatDescriptionV3Inner as Inner;
use crate::width::width_of;

// What a node reserves, unless it is more than `usize` holds.
#[cycle(bytes)]
pub(crate) fn reserved(node: &Inner<'_>) -> Option<usize>
    ensures some { IfSome result (λ bytes. reserved (inner_tree node.now) ≡ bytes) }
    ensures none { IsNone result → 2 ^ 64 ≤ reserved (inner_tree node.now) }
{
    if let Some(component) = node.component() {
        return Some(width_of(component));
    }
    match node {
        Inner::BorrowedLiteral(text) => Some(text.len()),
        Inner::OwnedLiteral(text) => Some(text.len()),
        Inner::BorrowedCompound(lent) => reserved_in_turn(lent.items),
        Inner::OwnedCompound(items) => reserved_in_turn(items),
        Inner::BorrowedOptional { format, item } => {
            if *format { reserved(item) } else { Some(0) }
        }
        Inner::OwnedOptional { format, item } => { if *format { reserved(item) } else { Some(0) } }
        Inner::BorrowedFirst(lent) => greatest_reserved(lent.items),
        Inner::OwnedFirst(items) => greatest_reserved(items),
        _ => unreachable!(),
    }
}

// What nodes reserve that follow one another.
#[cycle(bytes)]
fn reserved_in_turn(nodes: &[Inner<'_>]) -> Option<usize>
    ensures some { IfSome result
        (λ bytes. reserved_in_turn (listed (inner_trees nodes.now)) ≡ bytes) }
    ensures none { IsNone result → 2 ^ 64 ≤ reserved_in_turn (listed (inner_trees nodes.now)) }
{
    let mut total = 0usize;
    for node in nodes {
        total = total.checked_add(reserved(node)?)?;
    }
    Some(total)
}

// What nodes reserve of which one is taken.
#[cycle(bytes)]
fn greatest_reserved(nodes: &[Inner<'_>]) -> Option<usize>
    ensures some { IfSome result
        (λ bytes. greatest_reserved (listed (inner_trees nodes.now)) ≡ bytes) }
    ensures none { IsNone result → 2 ^ 64 ≤ greatest_reserved (listed (inner_trees nodes.now)) }
{
    let mut greatest = 0usize;
    for node in nodes {
        greatest = greatest.max(reserved(node)?);
    }
    Some(greatest)
}

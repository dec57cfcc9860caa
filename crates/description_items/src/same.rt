//! Equality of items: that of their trees.
ghost use Rattle.std.specs.Prelude.{◌≡◌};
ghost use Rattle.std.specs.Ordering.{on};
ghost use Rattle.description_items.specs.Tree.{Literal, Part, tree_of, trees, listed};
ghost use Rattle.description_items.specs.Same.{same_tree, same_trees};
ghost use Rattle.std.specs.Cmp.{on_equiv, partial_equiv_from_equiv};
ghost use Rattle.description_items.specs.SameLaws.{same_equivalence};

use crate::component::Component;
use crate::item::BorrowedFormatItem;

impl PartialEq for BorrowedFormatItem<'_> {
    ghost eq = { on tree_of same_tree };

    ghost laws = { partial_equiv_from_equiv (on_equiv tree_of same_equivalence) };

    fn eq(&self, other: &BorrowedFormatItem<'_>) -> bool {
        is_same(self, other)
    }
}

impl Eq for BorrowedFormatItem<'_> {
    ghost laws = { on_equiv tree_of same_equivalence };
}

#[tactic(auto, unfolding(crate::specs::Same::same_tree, crate::specs::Same::same_trees))]
#[cycle(same)]
fn is_same(one: &BorrowedFormatItem<'_>, other: &BorrowedFormatItem<'_>) -> bool
    ensures { result ≡ same_tree (tree_of one.now) (tree_of other.now) }
{
    match one {
        BorrowedFormatItem::Literal(bytes) => is_literal(bytes, other),
        BorrowedFormatItem::StringLiteral(text) => is_literal(text.as_bytes(), other),
        BorrowedFormatItem::Component(component) => is_component(*component, other),
        BorrowedFormatItem::Compound(items) => match other {
            BorrowedFormatItem::Compound(others) => are_same(items, others),
            _ => false,
        },
        BorrowedFormatItem::Optional(item) => match other {
            BorrowedFormatItem::Optional(other) => is_same(item, other),
            _ => false,
        },
        BorrowedFormatItem::First(items) => match other {
            BorrowedFormatItem::First(others) => are_same(items, others),
            _ => false,
        },
    }
}

#[tactic(auto, unfolding(crate::specs::Same::same_tree, crate::specs::Same::same_trees), using(crate::proofs::Lengths::different_lengths))]
#[cycle(same)]
fn are_same(items: &[BorrowedFormatItem<'_>], others: &[BorrowedFormatItem<'_>]) -> bool
    ensures { result ≡ same_trees (listed (trees items.now)) (listed (trees others.now)) }
{
    if items.len() != others.len() {
        return false;
    }
    for index in 0..items.len() {
        if !is_same(&items[index], &others[index]) {
            return false;
        }
    }
    true
}

// Whether the other item is these bytes.
#[tactic(auto, unfolding(crate::specs::Same::same_tree))]
fn is_literal(bytes: &[u8], other: &BorrowedFormatItem<'_>) -> bool
    ensures { result ≡ same_tree (Literal bytes.now) (tree_of other.now) }
{
    match other {
        BorrowedFormatItem::Literal(others) => bytes == *others,
        BorrowedFormatItem::StringLiteral(text) => bytes == text.as_bytes(),
        _ => false,
    }
}

// Whether the other item is this component.
#[tactic(auto, unfolding(crate::specs::Same::same_tree))]
fn is_component(component: Component, other: &BorrowedFormatItem<'_>) -> bool
    ensures { result ≡ same_tree (Part component) (tree_of other.now) }
{
    match other {
        BorrowedFormatItem::Component(other) => component == *other,
        _ => false,
    }
}

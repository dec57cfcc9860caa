//! The nodes of descriptions.
ghost use Rattle.std.specs.Prelude.{◌≡◌, min, map};
ghost use Rattle.description_items.specs.Tree.{trees, listed};
ghost use Rattle.description.specs.Laws.{nodes, all_nodes};
ghost use Rattle.description_tree.specs.Description.{v3_tree};
ghost use Rattle.parsing_record.specs.Tally.{greatest_count};

use description_items::BorrowedFormatItem;
use description_tree::FormatDescriptionV3;
use parsing_record::{Node, NodeStep};

/// How many nodes the items have: all of their trees, each item and all that is inside it. Where they are
/// more than `u128` holds, it is the greatest `u128`.
pub fn nodes_in_items(items: &[BorrowedFormatItem<'_>]) -> u128
    ensures nodes { result ≡ min (all_nodes (listed (trees items.now))) greatest_count }
{
    nodes_in_all(items)
}

/// How many nodes the description has: all of its tree, the outermost one among them. Where they are more
/// than `u128` holds, it is the greatest `u128`.
pub fn nodes_in_description(description: &FormatDescriptionV3<'_>) -> u128
    ensures nodes { result ≡ min (nodes (v3_tree description.now)) greatest_count }
{
    nodes_in(description.inner())
}

// The node itself, and all that is inside it.
#[tactic(auto, unfolding(description::specs::Laws::nodes, parsing_components::proofs::lemmas::Sizes::size))]
#[cycle(nodes)]
fn nodes_in<N: Node>(node: &N) -> u128
    ensures nodes { result ≡ min (nodes (N.tree node.now)) greatest_count }
{
    match node.step() {
        NodeStep::Literal(_) | NodeStep::Component(_) => 1,
        NodeStep::Compound(nodes) => nodes_in_all(nodes).saturating_add(1),
        NodeStep::Optional(_, node) => nodes_in(node).saturating_add(1),
        NodeStep::First(nodes) => nodes_in_all(nodes).saturating_add(1),
    }
}

// Each of the nodes, and all that is inside it.
#[tactic(auto, using(parsing_components::proofs::lemmas::Sizes::one_of_them))]
#[cycle(nodes)]
fn nodes_in_all<N: Node>(nodes: &[N]) -> u128
    ensures nodes { result ≡ min (all_nodes (listed (map N.tree nodes.now))) greatest_count }
{
    let mut count = 0u128;
    for node in nodes {
        count = count.saturating_add(nodes_in(node));
    }
    count
}

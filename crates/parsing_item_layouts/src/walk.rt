//! What is known of the first bytes of lines, by the items that read them one after the other.
ghost use Rattle.std.specs.Prelude.{map};
ghost use Rattle.description_items.specs.Tree.{First, listed};
ghost use Rattle.parsing_components.specs.Reads.{reading, reading_of_all};
ghost use Rattle.parsing_item_layouts.specs.Fronts.{Leads};

use crate::forms::form_of;
use crate::front::{Front, put_form, put_text};
use parsing_components::{Node, NodeStep};

/// Puts what a node reads before.
#[tactic(auto, unfolding(parsing_components::proofs::lemmas::Sizes::size))]
#[cycle(walk)]
pub(crate) fn put_node<N: Node, F: Front>(front: &mut F, node: &N)
    ensures { Leads F.fits (reading N.language (N.tree node.now)) front.old front.new }
{
    match node.step() {
        NodeStep::Literal(text) => put_text(front, text),
        NodeStep::Component(component) => put_form(front, form_of(&component)),
        NodeStep::Compound(nodes) => put_nodes(front, nodes),
        NodeStep::Optional(_, node) => {
            let without = *front;
            put_node(front, node);
            front.join(&without);
        }
        NodeStep::First(nodes) => put_first(front, nodes),
    }
}

/// Puts what all nodes read before, one after the other.
#[tactic(auto, using(parsing_components::proofs::lemmas::Sizes::one_of_them, crate::proofs::WalkLemmas::none_leads))]
#[cycle(walk)]
pub(crate) fn put_nodes<N: Node, F: Front>(front: &mut F, nodes: &[N])
    ensures { Leads F.fits (reading_of_all N.language (listed (map N.tree nodes.now))) front.old
        front.new }
{
    for place in 0..nodes.len() {
        put_node(front, &nodes[nodes.len() - 1 - place]);
    }
}

// Puts what the first node reads before that reads; where there is none, nothing.
#[tactic(auto, using(parsing_components::proofs::lemmas::Sizes::one_of_them, crate::proofs::WalkLemmas::no_choice, crate::proofs::WalkLemmas::first_leads))]
#[cycle(walk)]
fn put_first<N: Node, F: Front>(front: &mut F, nodes: &[N])
    ensures { Leads F.fits (reading N.language (First (listed (map N.tree nodes.now)))) front.old
        front.new }
{
    if nodes.is_empty() {
        return;
    }
    let after = *front;
    *front = F::none();
    for node in nodes {
        let mut choice = after;
        put_node(&mut choice, node);
        front.join(&choice);
    }
}

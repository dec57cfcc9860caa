//! What stands in a list of items before the first that says something and after the last that does.
ghost use Rattle.std.specs.Prelude.{◌≡◌, ◌≤◌, ◌-◌, length, map, take, drop, is_some, IfSome};
ghost use Rattle.std.specs.List.{prefix_len, suffix_len};
ghost use Rattle.description_items.specs.Tree.{Literal};
ghost use Rattle.instants_prefixes.specs.Ends.{text_length, AreEnds, items_in};
ghost use Rattle.instants_prefixes.specs.Lengths.{is_silent, is_text, items_of};
ghost use Rattle.description_tree.specs.Description.{v3_tree};
ghost use Rattle.instants_sources.specs.Grammar.{grammar_of};

use crate::contents::stands_in_node;
use crate::kind::Kind;
use description::Description;
use description_tree::FormatDescriptionV3;
use instants_sources::Source;
use parsing_record::{Node, NodeStep};
use std::slice;

/// How long the texts before the first item that says something are together, and those after the last that does.
#[derive(Clone, Copy)]
pub(crate) struct Texts {
    pub(crate) prefix: usize,
    pub(crate) back: usize,
}

/// What stands before the first item that says something and after the last that does.
#[derive(Clone, Copy, Default)]
pub(crate) struct Ends {
    /// How many items come before the first that says something.
    pub(crate) first: usize,
    /// How many come up to the last that does.
    pub(crate) last: usize,
    /// How many come up to it and the texts after it.
    pub(crate) written: usize,
    /// How long those before the first and after the last are, where all of them are texts.
    pub(crate) texts: Option<Texts>,
}

// How many items stand before the first that says something.
fn silent_at_start<N: Node>(nodes: &[N]) -> usize
    ensures value { result ≡ prefix_len (λ node. is_silent (N.tree node)) nodes.now }
    ensures within { result ≤ length nodes.now }
{
    nodes
        .iter()
        .take_while(|node| !stands_in_node(*node, Kind::Saying, true))
        .count()
}

// How many stand after the last that does.
fn silent_at_end<N: Node>(nodes: &[N]) -> usize
    ensures value { result ≡ suffix_len (λ node. is_silent (N.tree node)) nodes.now }
    ensures within { result ≤ length nodes.now }
{
    nodes
        .iter()
        .rev()
        .take_while(|node| !stands_in_node(*node, Kind::Saying, true))
        .count()
}

// The bytes of a text.
fn text_of<N: Node>(node: &N) -> Option<&[u8]>
    ensures is { is_some result ≡ is_text (N.tree node.now) }
    ensures value { IfSome result (λ text. N.tree node.now ≡ Literal text.now) }
{
    match node.step() {
        NodeStep::Literal(text) => Some(text),
        _ => None,
    }
}

// How many texts stand at the start.
fn texts_at_start<N: Node>(nodes: &[N]) -> usize
    ensures value { result ≡ prefix_len (λ node. is_text (N.tree node)) nodes.now }
    ensures within { result ≤ length nodes.now }
{
    nodes
        .iter()
        .take_while(|node| text_of(*node).is_some())
        .count()
}

// How long the items are together, where all are texts.
fn length_of_texts<N: Node>(nodes: &[N]) -> Option<usize>
    ensures { IfSome result (λ long. text_length (map N.tree nodes.now) ≡ Some long) }
{
    let mut long = 0usize;
    for node in nodes {
        let text = text_of(node)?;
        long = long.checked_add(text.len())?;
    }
    Some(long)
}

// The texts before an item and from another one on.
fn texts_beside<N: Node>(nodes: &[N], first: usize, last: usize) -> Option<Texts>
    requires first { first ≤ length nodes.now }
    requires last { last ≤ length nodes.now }
    ensures prefix { IfSome result
        (λ texts. text_length (map N.tree (take first nodes.now)) ≡ Some texts.prefix) }
    ensures back { IfSome result
        (λ texts. text_length (map N.tree (drop last nodes.now)) ≡ Some texts.back) }
{
    let prefix = length_of_texts(&nodes[..first])?;
    let back = length_of_texts(&nodes[last..])?;
    Some(Texts { prefix, back })
}

impl Ends {
    /// Those of a source; the well-known formats have no items.
    pub(crate) fn of(source: &Source<'_>) -> Ends
        ensures { AreEnds (items_in (grammar_of source.now)) result }
    {
        match source {
            Source::Items(described) | Source::V3(described) => match described.description() {
                Description::Items(items) => Ends::of_all(items.as_slice()),
                Description::V3(tree) => ends_of_tree(tree),
            },
            _ => Ends::default(),
        }
    }

    // Those of items, one after the other.
    fn of_all<N: Node>(nodes: &[N]) -> Ends
        ensures ends { AreEnds (map N.tree nodes.now) result }
    {
        let first = silent_at_start(nodes);
        let last = nodes.len() - silent_at_end(nodes);
        Ends {
            first,
            last,
            written: last + texts_at_start(&nodes[last..]),
            texts: texts_beside(nodes, first, last),
        }
    }
}

// Those of a tree.
#[tactic(auto, using(crate::proofs::Turns::compound_items))]
fn ends_of_tree(description: &FormatDescriptionV3<'_>) -> Ends
    ensures { AreEnds (items_of (v3_tree description.now)) result }
{
    let node = description.inner();
    match node.step() {
        NodeStep::Compound(nodes) => Ends::of_all(nodes),
        _ => Ends::of_all(slice::from_ref(node)),
    }
}

//! How much of a text the items of a source read.
ghost use Rattle.std.specs.Prelude.{◌≡◌, map, option_map};
ghost use Rattle.description_tree.specs.Description.{v3_tree};
ghost use Rattle.parsing_components.specs.Component.{reads_component_v3};
ghost use Rattle.instants_sources.specs.Grammar.{Described, written};
ghost use Rattle.instants_prefixes.specs.Ends.{AreEnds, by_texts, LeavesRest};
ghost use Rattle.instants_prefixes.specs.Lengths.{items_of, items_written, length_by, extent_by, extent_of};

use crate::ends::Ends;
use description::Description;
use description_tree::FormatDescriptionV3;
use parsing_record::{NoTally, Node, NodeStep, Parsed, ReadsNode, parse_nodes};
use std::slice;

/// How many bytes of a text are read by the items before the first that says something, by those up to the last that does,
/// and by those and the texts after them.
#[derive(Clone, Copy)]
pub(crate) struct Extent {
    pub(crate) begins: usize,
    pub(crate) up_to: usize,
    pub(crate) written: usize,
}

/// The extent by the lengths of the texts around what a description says, where so many bytes were read in all: `None` where
/// these don't tell it.
#[inline(always)]
pub(crate) fn extent_by_texts(ends: &Ends, read: usize) -> Option<Extent>
    ensures { result ≡ option_map (by_texts read) ends.now.texts }
{
    let texts = ends.texts?;
    Some(Extent {
        begins: texts.prefix,
        up_to: read.saturating_sub(texts.back),
        written: read,
    })
}

// How many bytes of a text the nodes read, one after the other.
fn length_read<N: ReadsNode>(nodes: &[N], text: &[u8]) -> usize
    ensures { result ≡ length_by N.language text.now (map N.tree nodes.now) }
{
    match parse_nodes(nodes, text, &mut Parsed::new(), &mut NoTally) {
        Ok(rest) => text.len().saturating_sub(rest.len()),
        Err(_) => 0,
    }
}

// By reading the text again.
#[inline(never)]
fn by_reading<N: ReadsNode>(nodes: &[N], ends: &Ends, text: &[u8]) -> Extent
    requires { AreEnds (map N.tree nodes.now) ends.now }
    ensures { result ≡ extent_by N.language text.now (map N.tree nodes.now) }
{
    Extent {
        begins: length_read(&nodes[..ends.first], text),
        up_to: length_read(&nodes[..ends.last], text),
        written: length_read(&nodes[..ends.written], text),
    }
}

// By reading the text again by a tree.
#[tactic(auto, using(crate::proofs::Turns::compound_items, crate::proofs::Turns::single_items))]
fn by_reading_tree(tree: &FormatDescriptionV3<'_>, ends: &Ends, text: &[u8]) -> Extent
    requires { AreEnds (items_of (v3_tree tree.now)) ends.now }
    ensures { result ≡ extent_by reads_component_v3 text.now (items_of (v3_tree tree.now)) }
{
    let node = tree.inner();
    match node.step() {
        NodeStep::Compound(nodes) => by_reading(nodes, ends, text),
        _ => by_reading(slice::from_ref(node), ends, text),
    }
}

/// The extent of a description in a text that it reads up to the rest.
#[inline(always)]
pub(crate) fn extent_of(
    description: &Description<'_>,
    ends: &Ends,
    text: &[u8],
    rest: &[u8],
) -> Extent
    requires ends { AreEnds (items_written (written description.now)) ends.now }
    requires read { LeavesRest (Described (written description.now)) text.now rest.now }
    ensures { result ≡ extent_of (written description.now) text.now }
{
    if let Some(extent) = extent_by_texts(ends, text.len().saturating_sub(rest.len())) {
        return extent;
    }
    match description {
        Description::Items(items) => by_reading(items.as_slice(), ends, text),
        Description::V3(tree) => by_reading_tree(tree, ends, text),
    }
}

//! Which kinds of components stand in a source.
ghost use Rattle.std.specs.Prelude.{◌≡◌, map};
ghost use Rattle.description_items.specs.Tree.{listed};
ghost use Rattle.instants_sources.specs.Grammar.{grammar_of, written};
ghost use Rattle.instants_prefixes.specs.Contents.{AreContents};
ghost use Rattle.instants_prefixes.specs.Kinds.{is_of};
ghost use Rattle.instants_prefixes.specs.Has.{has, any_has};
ghost use Rattle.instants_prefixes.specs.Reading.{stands_in, written_has};

use crate::kind::{Kind, is_of};
use description::Description;
use instants_sources::Source;
use parsing_record::{Node, NodeStep};

/// Which kinds of components stand in a source. The well-known formats have none.
#[derive(Clone, Copy)]
pub(crate) struct Contents {
    /// Unix time.
    pub(crate) has_unix_time: bool,
    /// A part of an offset.
    pub(crate) has_offset_part: bool,
    /// A description's components, of which none is of these: each date takes the offset that is given.
    pub(crate) is_local: bool,
}

/// Whether a component of a kind stands in a node: inside its choices too, or outside of all of them.
#[tactic(auto, unfolding(parsing_components::proofs::lemmas::Sizes::size))]
#[cycle(stands)]
pub(crate) fn stands_in_node<N: Node>(node: &N, kind: Kind, in_choices: bool) -> bool
    ensures stands { result ≡ has in_choices (is_of kind) (N.tree node.now) }
{
    match node.step() {
        NodeStep::Literal(_) => false,
        NodeStep::Component(component) => is_of(kind, component),
        NodeStep::Compound(nodes) => stands_in_any(nodes, kind, in_choices),
        NodeStep::Optional(_, node) => in_choices && stands_in_node(node, kind, in_choices),
        NodeStep::First(nodes) => in_choices && stands_in_any(nodes, kind, in_choices),
    }
}

// Whether one stands in one of the nodes.
#[tactic(auto, using(parsing_components::proofs::lemmas::Sizes::one_of_them))]
#[cycle(stands)]
fn stands_in_any<N: Node>(nodes: &[N], kind: Kind, in_choices: bool) -> bool
    ensures stands { result ≡ any_has in_choices (is_of kind) (listed (map N.tree nodes.now)) }
{
    for node in nodes {
        if stands_in_node(node, kind, in_choices) {
            return true;
        }
    }
    false
}

/// Whether one stands in a description.
pub(crate) fn stands_in_description(
    description: &Description<'_>,
    kind: Kind,
    in_choices: bool,
) -> bool
    ensures { result ≡ written_has in_choices (is_of kind) (written description.now) }
{
    match description {
        Description::Items(items) => stands_in_any(items.as_slice(), kind, in_choices),
        Description::V3(tree) => stands_in_node(tree.inner(), kind, in_choices),
    }
}

// Whether one may stand in a source.
fn may_stand(source: &Source<'_>, kind: Kind) -> bool
    ensures { result ≡ stands_in (is_of kind) (grammar_of source.now) }
{
    match source {
        Source::Items(described) | Source::V3(described) => {
            stands_in_description(described.description(), kind, true)
        }
        _ => false,
    }
}

impl Contents {
    /// The kinds that stand in a source.
    pub(crate) fn of(source: &Source<'_>) -> Contents
        ensures { AreContents (grammar_of source.now) result }
    {
        let has_unix_time = may_stand(source, Kind::UnixTime);
        let has_offset_part = may_stand(source, Kind::OffsetPart);
        let is_described = matches!(source, Source::Items(_) | Source::V3(_));
        Contents {
            has_unix_time,
            has_offset_part,
            is_local: is_described && !(has_offset_part || has_unix_time),
        }
    }
}

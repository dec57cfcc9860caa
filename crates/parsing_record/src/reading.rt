//! Reading by nodes, whatever kind they are of.
ghost use Rattle.std.specs.Prelude.{map};
ghost use Rattle.description_items.specs.Tree.{listed};
ghost use Rattle.parsing_components.specs.Meaning.{Answers, Reads, optionally, first_of};
ghost use Rattle.parsing_components.specs.Reads.{reads, reading, reading_of_all, each_reads, tried, tried_in_all};

use crate::node::ReadsNode;
use crate::parsed::Parsed;
use crate::tally::Tally;
use parsing_combinator::ParseFromDescription;
use parsing_components::NodeStep;

/// Reads by the nodes, each after what the one before it read, tells the tally of each node that is begun, and returns the
/// bytes after them. The first refusal counts, and changes nothing.
#[inline(always)]
pub fn parse_nodes<'a, N: ReadsNode, T: Tally>(
    nodes: &[N],
    input: &'a [u8],
    parsed: &mut Parsed,
    tally: &mut T,
) -> Result<&'a [u8], ParseFromDescription>
    ensures reads { Reads result parsed.old parsed.new
        (reading_of_all N.language (listed (map N.tree nodes.now)) parsed.old input.now) }
    ensures tally { T.grows tally.old tally.new
        (tried_in_all N.language (listed (map N.tree nodes.now)) parsed.old input.now) }
{
    let before = *parsed;
    let answer = read_nodes(nodes, input, parsed, tally);
    if answer.is_err() {
        *parsed = before;
    }
    answer
}

/// Reads by one node, and tells the tally; a refusal leaves what was read before it in the record.
#[tactic(auto, unfolding(parsing_components::specs::Reads::reads, parsing_components::specs::Meaning::optionally, parsing_components::proofs::lemmas::Sizes::size))]
#[cycle(reading)]
pub(crate) fn read_node<'a, N: ReadsNode, T: Tally>(
    node: &N,
    input: &'a [u8],
    parsed: &mut Parsed,
    tally: &mut T,
) -> Result<&'a [u8], ParseFromDescription>
    ensures answer { Answers result parsed.new
        (reading N.language (N.tree node.now) parsed.old input.now) }
    ensures tally { T.grows tally.old tally.new
        (tried N.language (N.tree node.now) parsed.old input.now) }
{
    tally.begin();
    match node.step() {
        NodeStep::Literal(text) => Parsed::parse_literal(input, text),
        NodeStep::Component(component) => N::read_component(component, input, parsed),
        NodeStep::Compound(nodes) => read_nodes(nodes, input, parsed, tally),
        NodeStep::Optional(_, node) => read_optional(node, input, parsed, tally),
        NodeStep::First(nodes) => read_first(nodes, input, parsed, tally),
    }
}

// The same for a node of several, so that no call is made for a literal or a component.
#[tactic(auto, unfolding(parsing_components::specs::Reads::reads))]
#[cycle(reading)]
#[inline(always)]
fn read_one<'a, N: ReadsNode, T: Tally>(
    node: &N,
    input: &'a [u8],
    parsed: &mut Parsed,
    tally: &mut T,
) -> Result<&'a [u8], ParseFromDescription>
    ensures answer { Answers result parsed.new
        (reading N.language (N.tree node.now) parsed.old input.now) }
    ensures tally { T.grows tally.old tally.new
        (tried N.language (N.tree node.now) parsed.old input.now) }
{
    let rest = match node.step() {
        NodeStep::Literal(text) => {
            tally.begin();
            Parsed::parse_literal(input, text)?
        }
        NodeStep::Component(component) => {
            tally.begin();
            N::read_component(component, input, parsed)?
        }
        _ => read_node(node, input, parsed, tally)?,
    };
    Ok(rest)
}

// Reads by the node, or leaves everything as it was.
#[tactic(auto, unfolding(parsing_components::specs::Meaning::optionally))]
#[cycle(reading)]
fn read_optional<'a, N: ReadsNode, T: Tally>(
    node: &N,
    input: &'a [u8],
    parsed: &mut Parsed,
    tally: &mut T,
) -> Result<&'a [u8], ParseFromDescription>
    ensures answer { Answers result parsed.new
        (optionally (reads N.language (N.tree node.now)) parsed.old input.now).0 }
    ensures tally { T.grows tally.old tally.new
        (optionally (reads N.language (N.tree node.now)) parsed.old input.now).1 }
{
    let before = *parsed;
    match read_node(node, input, parsed, tally) {
        Ok(rest) => Ok(rest),
        Err(_) => {
            *parsed = before;
            Ok(input)
        }
    }
}

// Reads by each node in turn; a refusal leaves what was read before it in the record.
#[tactic(auto, using(parsing_components::proofs::lemmas::Sizes::one_of_them))]
#[cycle(reading)]
#[inline(always)]
fn read_nodes<'a, N: ReadsNode, T: Tally>(
    nodes: &[N],
    input: &'a [u8],
    parsed: &mut Parsed,
    tally: &mut T,
) -> Result<&'a [u8], ParseFromDescription>
    ensures answer { Answers result parsed.new
        (reading_of_all N.language (listed (map N.tree nodes.now)) parsed.old input.now) }
    ensures tally { T.grows tally.old tally.new
        (tried_in_all N.language (listed (map N.tree nodes.now)) parsed.old input.now) }
{
    let mut rest = input;
    for node in nodes {
        rest = read_one(node, rest, parsed, tally)?;
    }
    Ok(rest)
}

// Reads by the first node that reads.
#[tactic(auto, using(parsing_components::proofs::lemmas::Sizes::one_of_them))]
#[cycle(reading)]
fn read_first<'a, N: ReadsNode, T: Tally>(
    nodes: &[N],
    input: &'a [u8],
    parsed: &mut Parsed,
    tally: &mut T,
) -> Result<&'a [u8], ParseFromDescription>
    ensures answer { Answers result parsed.new
        (first_of
        (each_reads N.language (listed (map N.tree nodes.now))) parsed.old
        input.now).0 }
    ensures tally { T.grows tally.old tally.new
        (first_of
        (each_reads N.language (listed (map N.tree nodes.now))) parsed.old
        input.now).1 }
{
    let before = *parsed;
    let mut fault = None;
    for node in nodes {
        match read_node(node, input, parsed, tally) {
            Ok(rest) => return Ok(rest),
            Err(refused) => {
                *parsed = before;
                fault = fault.or(Some(refused));
            }
        }
    }
    match fault {
        None => Ok(input),
        Some(refused) => Err(refused),
    }
}

//! The items of descriptions.
ghost use Rattle.std.specs.Prelude.{◌≡◌, ◌∷◌, ◌++◌, [], map, true, IfSome};
ghost use Rattle.description_items.specs.Tree.{Compound, Literal, Optional, listed};
ghost use Rattle.parsing_components.specs.Reads.{reading_of_all};
ghost use Rattle.parsing_layout.specs.declared.items.Item.TheVariants as item;
ghost use Rattle.parsing_layout.specs.declared.parts.Part.TheVariants as part;
ghost use Rattle.parsing_item_parts.specs.Items.{AddsItem, AreItems, IsItem, IsOnePart, items_kept, literal_items, parts_kept, sign_and};

use crate::list::{Items, Parts};
use crate::parts::part_of;
use parsing_components::{Node, NodeStep};
use parsing_layout::{Item, Part};

// The byte of a literal of one byte.
fn byte_of<N: Node>(node: &N) -> Option<u8>
    ensures { IfSome result (λ byte. N.tree node.now ≡ Literal (byte ∷ [])) }
{
    match node.step() {
        NodeStep::Literal([byte]) => Some(*byte),
        _ => None,
    }
}

// The part of a component that is one without a sign before it.
fn one_part_of<N: Node>(node: &N) -> Option<Part>
    ensures { IfSome result (IsOnePart (N.tree node.now)) }
{
    let NodeStep::Component(component) = node.step() else {
        return None;
    };
    match part_of(&component)? {
        (false, part) => Some(part),
        (true, _) => None,
    }
}

impl Items {
    // With the bytes of a literal more.
    fn with_text(self, text: &[u8]) -> Option<Items>
        ensures { IfSome result (λ l. items_kept l ≡ items_kept self ++ literal_items text.now) }
    {
        let mut list = self;
        for byte in text {
            list = list.with(Item::Part(Part::Byte(*byte)))?;
        }
        Some(list)
    }

    // With a part more, after a sign or without one.
    fn with_signed(self, is_signed: bool, part: Part) -> Option<Items>
        ensures { IfSome result
            (λ l. items_kept l ≡ items_kept self ++ map item.Part (sign_and is_signed part)) }
    {
        if !is_signed {
            return self.with(Item::Part(part));
        }
        let list = self.with(Item::Part(Part::Sign))?;
        list.with(Item::Part(part))
    }

    // With a byte and a part after it that may both be missing.
    fn with_pair<N: Node>(self, nodes: &[N]) -> Option<Items>
        ensures { IfSome result
            (AddsItem N.language (Optional true (Compound (listed (map N.tree nodes.now)))) self) }
    {
        if nodes.len() != 2 {
            return None;
        }
        let byte = byte_of(&nodes[0])?;
        let part = one_part_of(&nodes[1])?;
        self.with(Item::Optional(byte, part))
    }

    // With the items of an optional node more.
    fn with_optional<N: Node>(self, node: &N) -> Option<Items>
        ensures { IfSome result (AddsItem N.language (Optional true (N.tree node.now)) self) }
    {
        match node.step() {
            NodeStep::Compound(nodes) => self.with_pair(nodes),
            _ => None,
        }
    }

    // With the items of a node more.
    fn with_node<N: Node>(self, node: &N) -> Option<Items>
        ensures { IfSome result (AddsItem N.language (N.tree node.now) self) }
    {
        match node.step() {
            NodeStep::Literal(text) => self.with_text(text),
            NodeStep::Component(component) => {
                let (is_signed, part) = part_of(&component)?;
                self.with_signed(is_signed, part)
            }
            NodeStep::Optional(_, node) => self.with_optional(node),
            _ => None,
        }
    }

    /// The items of nodes that are read one after the other: `None` where a node is not known by parts, or they are too many.
    pub fn of_nodes<N: Node>(nodes: &[N]) -> Option<Items>
        ensures { IfSome result
            (λ l. AreItems (reading_of_all N.language (listed (map N.tree nodes.now))) (items_kept l)) }
    {
        let mut list = Items::new();
        for node in nodes {
            list = list.with_node(node)?;
        }
        Some(list)
    }
}

impl Parts {
    /// The parts of nodes that are read one after the other: `None` where a node is not known by parts, where one may be missing,
    /// or they are too many.
    pub fn of_nodes<N: Node>(nodes: &[N]) -> Option<Parts>
        ensures { IfSome result
            (λ l. IsItem (reading_of_all N.language (listed (map N.tree nodes.now))) (parts_kept l)) }
    {
        let items = Items::of_nodes(nodes)?;
        Parts::alone_of(items.as_slice())
    }
}

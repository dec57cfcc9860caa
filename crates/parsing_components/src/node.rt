//! What a reading goes through: items, and the nodes of trees of version 3.
ghost use Rattle.std.specs.Prelude.{◌≡◌};
ghost use Rattle.description_items.specs.Tree.{Tree};
ghost use Rattle.parsing_components.specs.Component.{reads_component, reads_component_v3};
ghost use Rattle.parsing_components.specs.Node.{step_tree};
ghost use Rattle.parsing_components.specs.Reads.{Language};

use description_items::Component;

/// What a node is, with the nodes inside it.
#[derive(Drop)]
pub enum NodeStep<'a, N> {
    /// Bytes as they stand.
    Literal(&'a [u8]),
    /// A component.
    Component(Component),
    /// Nodes, one after the other.
    Compound(&'a [N]),
    /// A node that may be missing, and whether it is written.
    Optional(bool, &'a N),
    /// The first of these nodes that can be read.
    First(&'a [N]),
}

/// A node of a description: an item of versions 1 and 2 and of strftime, or a node of a tree of version 3.
pub trait Node: Sized {
    // What its components read.
    ghost language: { Language };

    // It is the one of version 3, or the one of all others.
    ghost is_either: { (P : Language → Type 0) → P reads_component → P reads_component_v3 → P language };

    ghost tree: { Self → Tree };

    /// What it is, with the nodes inside it.
    fn step(&self) -> NodeStep<'_, Self>
        ensures { step_tree tree result ≡ tree self.now };
}

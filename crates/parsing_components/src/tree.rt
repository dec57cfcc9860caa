//! The nodes of a tree of version 3.
use crate::node::{Node, NodeStep};
use description_tree::FormatDescriptionV3Inner as Inner;

impl Node for Inner<'_> {
    ghost use Rattle.description_tree.specs.Inner.{inner_tree};
    ghost use Rattle.parsing_components.specs.Component.{reads_component_v3};

    ghost language = { reads_component_v3 };

    ghost is_either = { λ _ _ newer. newer };

    ghost tree = { inner_tree };

    #[inline(always)]
    fn step(&self) -> NodeStep<'_, Self> {
        match self {
            Inner::BorrowedLiteral(text) => NodeStep::Literal(text.as_bytes()),
            Inner::OwnedLiteral(text) => NodeStep::Literal(text.as_bytes()),
            Inner::BorrowedCompound(lent) => NodeStep::Compound(lent.items),
            Inner::OwnedCompound(nodes) => NodeStep::Compound(nodes),
            Inner::BorrowedOptional { format, item } => NodeStep::Optional(*format, item),
            Inner::OwnedOptional { format, item } => NodeStep::Optional(*format, item),
            Inner::BorrowedFirst(lent) => NodeStep::First(lent.items),
            Inner::OwnedFirst(nodes) => NodeStep::First(nodes),
            part => match part.component() {
                Some(component) => NodeStep::Component(component),
                None => unreachable!(),
            },
        }
    }
}

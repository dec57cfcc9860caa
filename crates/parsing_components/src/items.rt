//! Items as nodes.
use crate::node::{Node, NodeStep};
use description_items::BorrowedFormatItem;

impl Node for BorrowedFormatItem<'_> {
    ghost use Rattle.description_items.specs.Tree.{tree_of};
    ghost use Rattle.parsing_components.specs.Component.{reads_component};

    ghost language = { reads_component };

    ghost is_either = { λ _ older _. older };

    ghost tree = { tree_of };

    #[inline(always)]
    fn step(&self) -> NodeStep<'_, Self> {
        match self {
            BorrowedFormatItem::Literal(literal) => NodeStep::Literal(literal),
            BorrowedFormatItem::StringLiteral(literal) => NodeStep::Literal(literal.as_bytes()),
            BorrowedFormatItem::Component(component) => NodeStep::Component(*component),
            BorrowedFormatItem::Compound(items) => NodeStep::Compound(items),
            BorrowedFormatItem::Optional(item) => NodeStep::Optional(true, item),
            BorrowedFormatItem::First(items) => NodeStep::First(items),
        }
    }
}

//! Items from what they are made of, and back.
ghost use Rattle.std.specs.Prelude.{◌≡◌};
ghost use Rattle.base.specs.Convert.{GivesBack};
ghost use Rattle.description_items.specs.declared.item.BorrowedFormatItem.TheVariants as item;

use crate::component::Component;
use crate::item::BorrowedFormatItem;
use base::DifferentVariant;

impl From<Component> for BorrowedFormatItem<'_> {
    ghost from_gives = { λ component made. made ≡ item.Component component };

    fn from(component: Component) -> Self {
        BorrowedFormatItem::Component(component)
    }
}

impl TryFrom<BorrowedFormatItem<'_>> for Component {
    type Error = DifferentVariant;

    ghost try_from_gives = { λ made result. GivesBack item.Component made result };

    fn try_from(value: BorrowedFormatItem<'_>) -> Result<Component, DifferentVariant> {
        match value {
            BorrowedFormatItem::Component(inside) => Ok(inside),
            _ => Err(DifferentVariant),
        }
    }
}

impl<'a> From<&'a [BorrowedFormatItem<'a>]> for BorrowedFormatItem<'a> {
    ghost from_gives = { λ items made. made ≡ item.Compound items };

    fn from(items: &'a [BorrowedFormatItem<'a>]) -> Self {
        BorrowedFormatItem::Compound(items)
    }
}

impl<'a> TryFrom<BorrowedFormatItem<'a>> for &'a [BorrowedFormatItem<'a>] {
    type Error = DifferentVariant;

    ghost try_from_gives = { λ made result. GivesBack item.Compound made result };

    fn try_from(
        value: BorrowedFormatItem<'a>,
    ) -> Result<&'a [BorrowedFormatItem<'a>], DifferentVariant> {
        match value {
            BorrowedFormatItem::Compound(inside) => Ok(inside),
            _ => Err(DifferentVariant),
        }
    }
}

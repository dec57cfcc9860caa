//! Lists of parts, and of items some of which may be missing.
ghost use Rattle.std.specs.Prelude.{◌≤◌};

use parsing_layout::{Item, Part};

/// The most items, and the most parts.
pub(crate) const MOST: usize = 40;

/// Parts, one after the other.
#[derive(Clone, Copy)]
pub struct Parts {
    pub(crate) parts: [Part; MOST],
    pub(crate) count: usize,
    ghost few: { count ≤ 40 },
}

impl Parts {
    ghost use Rattle.std.specs.Prelude.{◌≡◌, ◌∷◌, ◌++◌, [], map, IfSome};
    ghost use Rattle.parsing_layout.specs.declared.items.Item.TheVariants as item;
    ghost use Rattle.parsing_item_parts.specs.Items.{parts_kept, parts_of_item, parts_of_items};

    // No parts.
    fn new() -> Parts
        ensures { parts_kept result ≡ [] }
    {
        Parts {
            parts: [Part::Any; MOST],
            count: 0,
        }
    }

    /// As a slice.
    #[inline(always)]
    pub fn as_slice(&self) -> &[Part]
        ensures { result.now ≡ parts_kept self.now }
    {
        &self.parts[..self.count]
    }

    // With a part more: `None` where they are too many.
    fn with(self, part: Part) -> Option<Parts>
        ensures { IfSome result (λ l. parts_kept l ≡ parts_kept self ++ part ∷ []) }
    {
        if self.count >= MOST {
            return None;
        }
        let mut parts = self.parts;
        parts[self.count] = part;
        Some(Parts {
            parts,
            count: self.count + 1,
        })
    }

    // With the parts of an item: all, or those that have to be there.
    fn with_item(self, item: Item, is_all: bool) -> Option<Parts>
        ensures { IfSome result (λ l. parts_kept l ≡ parts_kept self ++ parts_of_item is_all item) }
    {
        match item {
            Item::Part(part) => self.with(part),
            Item::Optional(byte, part) if is_all => self.with(Part::Byte(byte))?.with(part),
            Item::Optional(_, _) => Some(self),
        }
    }

    /// The parts of items: all, or those that have to be there.
    pub(crate) fn of_items(items: &[Item], is_all: bool) -> Option<Parts>
        ensures { IfSome result (λ l. parts_kept l ≡ parts_of_items is_all items.now) }
    {
        let mut parts = Parts::new();
        for item in items {
            parts = parts.with_item(*item, is_all)?;
        }
        Some(parts)
    }

    /// The parts of items, where none may be missing.
    pub(crate) fn alone_of(items: &[Item]) -> Option<Parts>
        ensures { IfSome result (λ l. map item.Part (parts_kept l) ≡ items.now) }
    {
        let parts = Parts::of_items(items, false)?;
        if parts.as_slice().len() != items.len() {
            return None;
        }
        Some(parts)
    }
}

/// Items, one after the other.
#[derive(Clone, Copy)]
pub struct Items {
    pub(crate) items: [Item; MOST],
    pub(crate) count: usize,
    ghost few: { count ≤ 40 },
}

impl Items {
    ghost use Rattle.std.specs.Prelude.{◌≡◌, ◌∷◌, ◌++◌, [], IfSome};
    ghost use Rattle.parsing_item_parts.specs.Items.{items_kept};

    /// No items.
    pub(crate) fn new() -> Items
        ensures { items_kept result ≡ [] }
    {
        Items {
            items: [Item::Part(Part::Any); MOST],
            count: 0,
        }
    }

    /// As a slice.
    #[inline(always)]
    pub fn as_slice(&self) -> &[Item]
        ensures { result.now ≡ items_kept self.now }
    {
        &self.items[..self.count]
    }

    /// With an item more: `None` where they are too many.
    pub(crate) fn with(self, item: Item) -> Option<Items>
        ensures { IfSome result (λ l. items_kept l ≡ items_kept self ++ item ∷ []) }
    {
        if self.count >= MOST {
            return None;
        }
        let mut items = self.items;
        items[self.count] = item;
        Some(Items {
            items,
            count: self.count + 1,
        })
    }
}

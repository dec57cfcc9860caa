//! Descriptions that are read by their parts.
ghost use Rattle.std.specs.Prelude.{◌≡◌, true, false};
ghost use Rattle.parsing_layout.specs.Items.{all_certain, all_possible};
ghost use Rattle.parsing_layout.specs.Range.{AreUnread};
ghost use Rattle.parsing_layout.specs.Said.{are_apart, fields_of};
ghost use Rattle.parsing_layout.specs.declared.parts.Field.TheVariants as field;
ghost use Rattle.parsing_strides.specs.Found.{values_in};
ghost use Rattle.parsing_strides.specs.Strides.{IsMade};
ghost use Rattle.parsing_strides.proofs.StepLemmas.{made_once};
ghost use Rattle.parsing_item_parts.specs.Items.{items_kept};
ghost use Rattle.parsing_item_parts.specs.Kind.{SayDate};

use crate::list::{Items, Parts};
use parsing_components::Node;
use parsing_layout::{Field, Part, are_apart, say};
use parsing_strides::{Found, Strides};

/// What of a moment parts say.
#[derive(Clone, Copy)]
pub struct Kind {
    /// Unix time, beside which nothing counts but a fraction.
    pub(crate) is_unix: bool,
    /// The hour is one of half a day.
    pub(crate) is_half: bool,
    pub(crate) has_second: bool,
    /// An offset, or Unix time, beside which none counts.
    pub(crate) has_offset: bool,
}

/// The parts of a description that name a moment.
#[derive(Clone, Copy)]
pub struct Listed {
    pub(crate) items: Items,
    pub(crate) strides: Strides,
    pub(crate) kind: Kind,
    /// What stands for each number before it is read.
    pub(crate) unread: Found,
    ghost made: { IsMade strides (items_kept items) } by { made_once _ _ },
    ghost apart: { are_apart (all_possible (items_kept items)) ≡ true },
    ghost dated: { kind.is_unix ≡ false → SayDate kind (fields_of (all_certain (items_kept items)))
        (fields_of (all_possible (items_kept items))) },
    ghost out_of_range: { kind.is_unix ≡ false → AreUnread kind.is_half kind.has_second kind.has_offset (values_in unread) },
    ghost unix: { kind.is_unix ≡ true → fields_of (all_certain (items_kept items)) field.Unix ≡ true },
    ghost no_fraction: { values_in unread field.Nanosecond ≡ 0 },
}

impl Kind {
    // That of parts, of which these have to be there, and these may be.
    fn of_parts(certain: &[Part], possible: &[Part]) -> Kind
        ensures unix { result.is_unix ≡ fields_of certain.now field.Unix }
        ensures hour { result.is_half ≡ true → fields_of possible.now field.Hour ≡ false }
        ensures second { result.has_second ≡ false → fields_of possible.now field.Second ≡ false }
        ensures offset { result.has_offset ≡ false → fields_of possible.now field.OffsetHour ≡ false }
    {
        Kind {
            is_unix: say(certain, Field::Unix),
            is_half: !say(possible, Field::Hour),
            has_second: say(possible, Field::Second),
            has_offset: say(certain, Field::Unix) || say(possible, Field::OffsetHour),
        }
    }

    // Whether a year is there, and nothing that this kind leaves out.
    fn is_of(self, certain: &[Part], possible: &[Part]) -> bool
        ensures year { result ≡ true → fields_of certain.now field.Year ≡ true }
        ensures unix { result ≡ true → fields_of possible.now field.Unix ≡ false }
        ensures fraction { result ≡ true → self.has_second ≡ false → fields_of possible.now field.Nanosecond ≡ false }
        ensures offset { result ≡ true → self.has_offset ≡ false → fields_of possible.now field.OffsetMinute ≡ false }
    {
        if !say(certain, Field::Year) || say(possible, Field::Unix) {
            return false;
        }
        if !self.has_second && say(possible, Field::Nanosecond) {
            return false;
        }
        self.has_offset || !say(possible, Field::OffsetMinute)
    }

    // What stands for each number before it is read.
    fn unread(self) -> Found
        ensures dated { self.is_unix ≡ false
            → AreUnread self.is_half self.has_second self.has_offset (values_in result) }
        ensures fraction { values_in result field.Nanosecond ≡ 0 }
    {
        if self.is_unix {
            return Found::usual();
        }
        Found::unread(self.is_half, self.has_second, self.has_offset)
    }
}

impl Listed {
    ghost use Rattle.std.specs.Prelude.{map, IfSome};
    ghost use Rattle.description_items.specs.Tree.{listed};
    ghost use Rattle.parsing_components.specs.Reads.{reading_of_all};
    ghost use Rattle.parsing_item_parts.specs.Listed.{IsListOf};

    // These items, where they name a moment.
    fn of_items(items: Items) -> Option<Listed>
        ensures { IfSome result (λ l. l.items ≡ items) }
    {
        let certain = Parts::of_items(items.as_slice(), false)?;
        let possible = Parts::of_items(items.as_slice(), true)?;
        let kind = Kind::of_parts(certain.as_slice(), possible.as_slice());
        if !are_apart(possible.as_slice()) {
            return None;
        }
        if !kind.is_unix && !kind.is_of(certain.as_slice(), possible.as_slice()) {
            return None;
        }
        let strides = Strides::of_items(items.as_slice())?;
        let unread = kind.unread();
        Some(Listed {
            items,
            strides,
            kind,
            unread,
        })
    }

    /// The parts of nodes that are read one after the other: `None` where a node is not known by parts, where they are too many,
    /// where two say one number, or where they name no moment.
    pub fn of_nodes<N: Node>(nodes: &[N]) -> Option<Listed>
        ensures { IfSome result
            (IsListOf (reading_of_all N.language (listed (map N.tree nodes.now)))) }
    {
        let items = Items::of_nodes(nodes)?;
        Listed::of_items(items)
    }
}

//! Reading by the items of a description.
ghost use Rattle.description_items.specs.Tree.{tree_of, trees, listed};
ghost use Rattle.parsing_combinator.specs.FaultOf.{Gives, reading_fault};
ghost use Rattle.parsing_components.specs.Component.{reads_component, reads_component_v3};
ghost use Rattle.parsing_components.specs.Meaning.{Reads, literally};
ghost use Rattle.parsing_components.specs.Reads.{putting, reading, reading_of_all, tried, tried_in_all};

use crate::node::ReadsNode;
use crate::parsed::Parsed;
use crate::reading::{parse_nodes, read_node};
use crate::tally::{NoTally, Tally};
use description_items::{BorrowedFormatItem, Component};
use parsing_combinator::ParseFromDescription;
use parsing_components::{read_component, read_component_v3};

impl Parsed {
    /// The bytes after the literal, which have to begin with it: `InvalidLiteral` where they do not.
    #[inline(always)]
    #[tactic(auto, unfolding(parsing_components::specs::Meaning::literally))]
    pub fn parse_literal<'a>(
        input: &'a [u8],
        literal: &[u8],
    ) -> Result<&'a [u8], ParseFromDescription>
        ensures { Gives (λ rest. (tt, rest.now)) reading_fault result
            (literally literal.now input.now) }
    {
        // (most are a byte, and no call is made for it)
        let rest = match (literal, input) {
            ([byte], [first, rest @ ..]) if first == byte => Some(rest),
            ([_], _) => None,
            _ => input.strip_prefix(literal),
        };
        rest.ok_or(ParseFromDescription::InvalidLiteral)
    }

    /// Reads the component at the start of the bytes into the record, and returns the bytes after it.
    ///
    /// The longest prefix of its shape is read. `InvalidComponent` where there is none or its number is out of range;
    /// an `End` that prohibits trailing input refuses it as `UnexpectedTrailingCharacters`. A refusal changes
    /// nothing.
    #[inline(always)]
    pub fn parse_component<'a>(
        &mut self,
        input: &'a [u8],
        component: Component,
    ) -> Result<&'a [u8], ParseFromDescription>
        ensures { Reads result self.old self.new
            (putting (reads_component component) self.old input.now) }
    {
        read_component(component, input, &mut self.fields)
    }

    /// Reads the component at the start of the bytes as version 3 does, and returns the bytes after it.
    ///
    /// It differs for ignored bytes alone: no character may go on after them.
    #[inline(always)]
    pub fn parse_component_v3<'a>(
        &mut self,
        input: &'a [u8],
        component: Component,
    ) -> Result<&'a [u8], ParseFromDescription>
        ensures { Reads result self.old self.new
            (putting (reads_component_v3 component) self.old input.now) }
    {
        read_component_v3(component, input, &mut self.fields)
    }

    /// Reads by the item at the start of the bytes into the record, and returns the bytes after what was read. A
    /// refusal changes nothing.
    ///
    /// Where an optional item can't be read nothing is read. Of alternatives the first that can be read counts, and
    /// where none can the fault is that of the first.
    pub fn parse_item<'a>(
        &mut self,
        input: &'a [u8],
        item: &BorrowedFormatItem<'_>,
    ) -> Result<&'a [u8], ParseFromDescription>
        ensures { Reads result self.old self.new
            (reading reads_component (tree_of item.now) self.old input.now) }
    {
        self.parse_item_tallied(input, item, &mut NoTally)
    }

    /// The same, and the tally is told of each item that is begun.
    pub fn parse_item_tallied<'a, T: Tally>(
        &mut self,
        input: &'a [u8],
        item: &BorrowedFormatItem<'_>,
        tally: &mut T,
    ) -> Result<&'a [u8], ParseFromDescription>
        ensures reads { Reads result self.old self.new
            (reading reads_component (tree_of item.now) self.old input.now) }
        ensures tally { T.grows tally.old tally.new
            (tried reads_component (tree_of item.now) self.old input.now) }
    {
        let before = *self;
        let answer = read_node(item, input, self, tally);
        if answer.is_err() {
            *self = before;
        }
        answer
    }

    /// Reads by the items, each after what the one before it read, and returns the bytes after them. The first
    /// refusal counts, and changes nothing.
    pub fn parse_items<'a>(
        &mut self,
        input: &'a [u8],
        items: &[BorrowedFormatItem<'_>],
    ) -> Result<&'a [u8], ParseFromDescription>
        ensures { Reads result self.old self.new
            (reading_of_all reads_component (listed (trees items.now)) self.old input.now) }
    {
        self.parse_items_tallied(input, items, &mut NoTally)
    }

    /// The same, and the tally is told of each item that is begun.
    pub fn parse_items_tallied<'a, T: Tally>(
        &mut self,
        input: &'a [u8],
        items: &[BorrowedFormatItem<'_>],
        tally: &mut T,
    ) -> Result<&'a [u8], ParseFromDescription>
        ensures reads { Reads result self.old self.new
            (reading_of_all reads_component (listed (trees items.now)) self.old input.now) }
        ensures tally { T.grows tally.old tally.new
            (tried_in_all reads_component (listed (trees items.now)) self.old input.now) }
    {
        parse_nodes(items, input, self, tally)
    }
}

impl ReadsNode for BorrowedFormatItem<'_> {
    #[inline(always)]
    fn read_component<'a>(
        component: Component,
        input: &'a [u8],
        parsed: &mut Parsed,
    ) -> Result<&'a [u8], ParseFromDescription>
        ensures { Reads result parsed.old parsed.new
            (putting (reads_component component) parsed.old input.now) }
    {
        parsed.parse_component(input, component)
    }
}

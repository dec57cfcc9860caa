//! Reading by the nodes of a tree.
ghost use Rattle.description_tree.specs.Description.{v3_tree};
ghost use Rattle.parsing_components.specs.Component.{reads_component_v3};
ghost use Rattle.parsing_components.specs.Meaning.{Reads};
ghost use Rattle.parsing_components.specs.Reads.{putting, reading, tried};

use crate::node::ReadsNode;
use crate::parsed::Parsed;
use crate::reading::read_node;
use crate::tally::Tally;
use description_items::Component;
use description_tree::{FormatDescriptionV3, FormatDescriptionV3Inner as Inner};
use parsing_combinator::ParseFromDescription;

/// Reads by the description into the record, tells the tally of each node that is begun, and returns the bytes after
/// what was read.
pub fn parse_tree<'a, T: Tally>(
    description: &FormatDescriptionV3<'_>,
    input: &'a [u8],
    parsed: &mut Parsed,
    tally: &mut T,
) -> Result<&'a [u8], ParseFromDescription>
    ensures reads { Reads result parsed.old parsed.new
        (reading reads_component_v3 (v3_tree description.now) parsed.old input.now) }
    ensures tally { T.grows tally.old tally.new
        (tried reads_component_v3 (v3_tree description.now) parsed.old input.now) }
{
    let before = *parsed;
    let answer = read_node(description.inner(), input, parsed, tally);
    if answer.is_err() {
        *parsed = before;
    }
    answer
}

impl ReadsNode for Inner<'_> {
    #[inline(always)]
    fn read_component<'a>(
        component: Component,
        input: &'a [u8],
        parsed: &mut Parsed,
    ) -> Result<&'a [u8], ParseFromDescription>
        ensures { Reads result parsed.old parsed.new
            (putting (reads_component_v3 component) parsed.old input.now) }
    {
        parsed.parse_component_v3(input, component)
    }
}

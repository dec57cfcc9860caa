//! The reading of one node.
ghost use Rattle.parsing_components.specs.Meaning.{Reads};
ghost use Rattle.parsing_components.specs.Reads.{putting};

use crate::parsed::Parsed;
use description_items::Component;
use parsing_combinator::ParseFromDescription;
use parsing_components::Node;

/// A node that reads into a record.
pub trait ReadsNode: Node {
    /// Reads a component at the start of the bytes into the record, as its language does, and returns the bytes after it.
    fn read_component<'a>(
        component: Component,
        input: &'a [u8],
        parsed: &mut Parsed,
    ) -> Result<&'a [u8], ParseFromDescription>
        ensures { Reads result parsed.old parsed.new
            (putting (Self.language component) parsed.old input.now) };
}

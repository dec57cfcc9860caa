//! Components after their names.

ghost use Rattle.std.specs.Prelude.{◌≡◌, IfOk};
ghost use Rattle.description_lexer.specs.Answer.{Gives};
ghost use Rattle.description_items.specs.Modern.{modern};
ghost use Rattle.description_lexer.specs.Views.{rest_of};
ghost use Rattle.description_grammar.specs.Reading.{component_from};

use description_items::Component;
use description_lexer::{DescriptionFault, DescriptionVersion, Rest, closed, modifiers_of};
use description_tables::component_of;
use std::alloc::Global;

/// The component of a name, from its modifiers to its closing bracket, and what follows.
#[tactic(auto, unfolding(crate::specs::Reading::component_from))]
pub fn component_from<'a>(
    alloc: Global,
    version: DescriptionVersion,
    bracket: usize,
    name: Rest<'a>,
    here: Rest<'a>,
) -> Result<(Component, Rest<'a>), DescriptionFault<'a>>
    ensures value { Gives (λ x. (x.0, rest_of x.1)) result
        (component_from version bracket (rest_of name.entry) (rest_of here.entry)) }
    ensures modern { IfOk result (λ x. modern x.0 ≡ x.0) }
{
    let (modifiers, rest) = modifiers_of(alloc, here)?;
    let rest = closed(bracket, rest)?;
    let component = component_of(version, name, modifiers.as_slice())?;
    Ok((component, rest))
}

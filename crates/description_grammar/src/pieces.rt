//! The first piece of a description.

ghost use Rattle.std.specs.Prelude.{◌<◌, IfOk, length};
ghost use Rattle.std.specs.Str.{IsCharBoundary};
ghost use Rattle.description_lexer.specs.Views.{rest_of};
ghost use Rattle.description_grammar.specs.Pieces.{Leads, IsModern};
ghost use Rattle.description_grammar.specs.Reading.{Nester, bracket_at, element_at};

use crate::components::component_from;
use crate::texts::{doubled, text};
use description_items::Component;
use description_lexer::{
    DescriptionFault, DescriptionVersion, Rest, begins, cut, is_named, name_of,
};
use std::alloc::Global;

/// A literal or a component and what follows it, or what follows the name of a nested item.
pub enum Piece<'a> {
    /// Text as it stands, or an escape.
    Literal(&'a str, Rest<'a>),
    /// A component in its brackets.
    Part(Component, Rest<'a>),
    /// An item that may be absent.
    Optional(Rest<'a>),
    /// Alternatives.
    First(Rest<'a>),
}

/// The piece at the start.
#[tactic(auto, unfolding(crate::specs::Reading::element_at))]
pub fn first_piece<'a>(
    alloc: Global,
    version: DescriptionVersion,
    here: Rest<'a>,
) -> Result<Piece<'a>, DescriptionFault<'a>>
    requires { 0 < length here.text.now }
    ensures value { (inside : Nester) → Leads version inside here.entry.index result
        (element_at version inside (rest_of here.entry)) }
    ensures modern { IfOk result IsModern }
{
    if let Some((prefix, rest)) = doubled(version, here) {
        return Ok(Piece::Literal(prefix, rest));
    }
    if begins(here.text, b'[') {
        return bracketed(alloc, version, here);
    }
    let (prefix, rest) = text(version, here)?;
    Ok(Piece::Literal(prefix, rest))
}

// What a bracket opens: a component or a nested item.
#[tactic(auto, unfolding(crate::specs::Reading::bracket_at))]
fn bracketed<'a>(
    alloc: Global,
    version: DescriptionVersion,
    here: Rest<'a>,
) -> Result<Piece<'a>, DescriptionFault<'a>>
    requires { IsCharBoundary here.text.now 1 }
    ensures value { (inside : Nester) → Leads version inside here.entry.index result
        (bracket_at version inside (rest_of here.entry)) }
    ensures modern { IfOk result IsModern }
{
    let (_, inside) = cut(here, 1);
    let (name, rest) = name_of(here.index, inside)?;
    if is_named(version, name.text, "optional") {
        return Ok(Piece::Optional(rest));
    }
    if is_named(version, name.text, "first") {
        return Ok(Piece::First(rest));
    }
    let (component, rest) = component_from(alloc, version, here.index, name, rest)?;
    Ok(Piece::Part(component, rest))
}

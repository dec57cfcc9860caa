//! Descriptions from their texts.

ghost use Rattle.std.specs.Prelude.{◌≡◌, true, false, Ok, Err, IfOk};
ghost use Rattle.description_lexer.specs.Fault.{Fault};
ghost use Rattle.description_lexer.specs.Answer.{Gives};
ghost use Rattle.description_items.specs.Forms.{are_of_text};
ghost use Rattle.description_items.specs.Tree.{Tree};
ghost use Rattle.description_lexer.specs.declared.version.DescriptionVersion.TheVariants.{One, Three};
ghost use Rattle.description_lexer.specs.Version.{is_three};
ghost use Rattle.description_grammar.specs.Spelling.{SpellsTree};
ghost use Rattle.description_grammar.specs.Faulty.{Faulty};
ghost use Rattle.description_grammar.specs.Outcomes.{Outcome};
ghost use Rattle.description.specs.Described.{items_tree, described, has_tree, is_as_read, read_joined};

use crate::described::Description;
use description_grammar::{items_of, tree_of};
use description_items::BorrowedFormatItem;
use description_lexer::{DescriptionFault, DescriptionVersion};
use std::alloc::Global;

/// The items of a description of version 1.
///
/// A component stands in brackets, with its modifiers after its name, as in
/// `[year repr:last_two]`; two opening brackets are one bracket, and all else stands for itself.
/// The error says what is wrong with the text, and at which byte of it, or that memory ran out.
pub fn parse<'a>(
    alloc: Global,
    s: &'a str,
) -> Result<Vec<BorrowedFormatItem<'a>>, DescriptionFault<'a>>
    ensures outcome { Outcome items_tree One s.now result }
    // Literals are text, not bytes.
    ensures form { IfOk result (λ items. are_of_text items.items ≡ true) }
    // What the text spells is answered, unless memory runs out.
    ensures tree { (t : Tree) → SpellsTree One s.now t → Gives items_tree result (Ok t) }
    // So is its fault.
    ensures fault { (e : Fault) → Faulty One s.now e → Gives items_tree result (Err e) }
{
    items_of(alloc, DescriptionVersion::One, s)
}

/// A description of this version: items of version 1 or 2, or the tree of version 3.
///
/// From version 2 on a backslash, not a second bracket, takes a bracket as it stands. In version 3
/// `[optional [..]]` is an item that may be missing, and `[first [..] [..]]` the first of several
/// that can be read; they stand inside one another at most 127 levels deep.
/// The error says what is wrong with the text, and at which byte of it, or that memory ran out.
pub fn parse_borrowed<'a>(
    alloc: Global,
    version: DescriptionVersion,
    s: &'a str,
) -> Result<Description<'a>, DescriptionFault<'a>>
    ensures outcome { Outcome described version s.now result }
    ensures form { IfOk result (λ description. has_tree description ≡ is_three version) }
    // Literals are borrowed from the text, and all else is owned.
    ensures nodes { IfOk result (λ description. is_as_read description ≡ true) }
    // What the text spells is answered, unless memory runs out.
    ensures tree { (t : Tree) → SpellsTree version s.now t → Gives described result (Ok t) }
    // So is its fault.
    ensures fault { (e : Fault) → Faulty version s.now e → Gives described result (Err e) }
{
    read(alloc, version, s)
}

// What is read of a text, with the bytes that it reserves.
fn read<'a>(
    alloc: Global,
    version: DescriptionVersion,
    s: &'a str,
) -> Result<Description<'a>, DescriptionFault<'a>>
    ensures value { Gives described result (read_joined version s.now) }
    ensures form { IfOk result (λ description. has_tree description ≡ is_three version) }
    ensures nodes { IfOk result (λ description. is_as_read description ≡ true) }
{
    match version {
        DescriptionVersion::Three => read_three(alloc, s),
        DescriptionVersion::One | DescriptionVersion::Two => read_items(alloc, version, s),
    }
}

#[tactic(auto, unfolding(description_grammar::specs::Reading::read_tree))]
fn read_three<'a>(alloc: Global, s: &'a str) -> Result<Description<'a>, DescriptionFault<'a>>
    ensures value { Gives described result (read_joined Three s.now) }
    ensures form { IfOk result (λ description. has_tree description ≡ true) }
    ensures nodes { IfOk result (λ description. is_as_read description ≡ true) }
{
    match tree_of(alloc, s)?.into_opaque() {
        Ok(description) => Ok(Description::V3(description)),
        Err(_) => unreachable!(),
    }
}

fn read_items<'a>(
    alloc: Global,
    version: DescriptionVersion,
    s: &'a str,
) -> Result<Description<'a>, DescriptionFault<'a>>
    requires version { is_three version ≡ false }
    ensures value { Gives described result (read_joined version s.now) }
    ensures form { IfOk result (λ description. has_tree description ≡ false) }
    ensures nodes { IfOk result (λ description. is_as_read description ≡ true) }
{
    Ok(Description::Items(items_of(alloc, version, s)?))
}

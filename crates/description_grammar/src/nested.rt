//! Descriptions inside one another.

ghost use Rattle.std.specs.Prelude.{suc, ◌≡◌, ◌<◌, true, IfOk, length};
ghost use Rattle.std.specs.Str.{IsCharBoundary};
ghost use Rattle.description_lexer.specs.Answer.{Answers, Gives};
ghost use Rattle.description_lexer.specs.Fault.{fault_of};
ghost use Rattle.description_items.specs.Tree.{Compound, Optional, First, listed};
ghost use Rattle.description_tree.specs.Forms.{is_read, are_read};
ghost use Rattle.description_tree.specs.Inner.{inner_tree, inner_trees};
ghost use Rattle.description_lexer.specs.Many.{many};
ghost use Rattle.description_lexer.specs.Views.{rest_of};
ghost use Rattle.description_grammar.specs.Pieces.{closed_as};
ghost use Rattle.description_grammar.specs.Reading.{opened_at, unsupported_at, optional_at, first_at, element_at, is_end, no_bracket, nested_at, read_tree};

use crate::pieces::{Piece, first_piece};
use crate::texts::is_end;
use description_lexer::{
    DescriptionFault, DescriptionVersion, InvalidFormatDescription, Rest, begins, closed, cut,
    past_space, whole_of,
};
use description_tree::FormatDescriptionV3Inner;
use std::alloc::Global;

/// So many descriptions may stand inside one another.
pub const LEVELS: u8 = 127;

/// The tree of a description of version 3: its items, one after the other.
#[tactic(auto, unfolding(crate::specs::Reading::read_tree, crate::specs::Reading::read_items))]
pub fn tree_of<'a>(
    alloc: Global,
    text: &'a str,
) -> Result<FormatDescriptionV3Inner<'a>, DescriptionFault<'a>>
    ensures value { Gives inner_tree result (read_tree text.now) }
    ensures form { IfOk result (λ node. is_read node ≡ true) }
{
    let (all, _) = items(
        alloc,
        DescriptionVersion::Three,
        LEVELS,
        false,
        whole_of(text),
    )?;
    Ok(FormatDescriptionV3Inner::OwnedCompound(all))
}

// The white space and the bracket that a nesting name needs.
#[tactic(auto, unfolding(crate::specs::Reading::opened_at))]
fn opened<'a>(what: &'static str, here: Rest<'a>) -> Result<Rest<'a>, InvalidFormatDescription<'a>>
    ensures value { Answers rest_of result (opened_at what.now (rest_of here.entry)) }
    ensures boundary { IfOk result (λ start. IsCharBoundary start.text.now 1) }
{
    let start = past_space(here);
    if start.text.len() == here.text.len() {
        return Err(InvalidFormatDescription::Expected {
            what,
            index: here.index,
        });
    }
    if begins(start.text, b'[') {
        Ok(start)
    } else {
        Err(InvalidFormatDescription::Expected {
            what: "opening bracket",
            index: start.index,
        })
    }
}

// Versions 1 and 2 have no nested items.
fn unsupported<'a>(bracket: usize) -> InvalidFormatDescription<'a>
    ensures { fault_of result ≡ unsupported_at bracket }
{
    InvalidFormatDescription::NotSupported {
        what: "nested item",
        context: "versions 1 and 2",
        index: bracket,
    }
}

// The optional item of a nested description, and what follows its closing bracket.
fn optional_of<'a>(
    alloc: Global,
    version: DescriptionVersion,
    bracket: usize,
    items: Vec<FormatDescriptionV3Inner<'a>>,
    here: Rest<'a>,
) -> Result<(FormatDescriptionV3Inner<'a>, Rest<'a>), DescriptionFault<'a>>
    requires { are_read items.items ≡ true }
    ensures value { Gives (λ x. (inner_tree x.0, rest_of x.1)) result
        (closed_as version bracket (Optional true (Compound (listed (inner_trees items.entry.items)))) (rest_of here.entry)) }
    ensures form { IfOk result (λ x. is_read x.0 ≡ true) }
{
    let rest = closed(bracket, here)?;
    if !version.is_three() {
        return Err(DescriptionFault::Description(unsupported(bracket)));
    }
    let item = Box::new(alloc, FormatDescriptionV3Inner::OwnedCompound(items))?;
    Ok((
        FormatDescriptionV3Inner::OwnedOptional { format: true, item },
        rest,
    ))
}

// Alternatives as one item, and what follows their closing bracket.
fn first_of<'a>(
    version: DescriptionVersion,
    bracket: usize,
    all: Vec<FormatDescriptionV3Inner<'a>>,
    here: Rest<'a>,
) -> Result<(FormatDescriptionV3Inner<'a>, Rest<'a>), DescriptionFault<'a>>
    requires { are_read all.items ≡ true }
    ensures value { Gives (λ x. (inner_tree x.0, rest_of x.1)) result
        (closed_as version bracket (First (listed (inner_trees all.entry.items))) (rest_of here.entry)) }
    ensures form { IfOk result (λ x. is_read x.0 ≡ true) }
{
    let rest = closed(bracket, here)?;
    if !version.is_three() {
        return Err(DescriptionFault::Description(unsupported(bracket)));
    }
    Ok((FormatDescriptionV3Inner::OwnedFirst(all), rest))
}

// Items up to the end, or inside a nested description to its bracket.
#[cycle(nested)]
fn items<'a>(
    alloc: Global,
    version: DescriptionVersion,
    levels: u8,
    inner: bool,
    here: Rest<'a>,
) -> Result<(Vec<FormatDescriptionV3Inner<'a>>, Rest<'a>), DescriptionFault<'a>>
    ensures value { Gives (λ x. (inner_trees x.0.items, rest_of x.1)) result
        (many (is_end inner) (element_at version (nested_at version levels))
        (suc (length here.entry.text.now)) (rest_of here.entry)) }
    ensures form { IfOk result (λ x. are_read x.0.items ≡ true) }
{
    let mut all = Vec::new(alloc);
    let mut rest = here;
    'items: while !is_end(inner, rest) {
        let (item, after) = element(alloc, version, levels, rest)?;
        all.push(item)?;
        rest = after;
    }
    Ok((all, rest))
}

// One item, or a nested description in its brackets.
#[cycle(nested)]
fn element<'a>(
    alloc: Global,
    version: DescriptionVersion,
    levels: u8,
    here: Rest<'a>,
) -> Result<(FormatDescriptionV3Inner<'a>, Rest<'a>), DescriptionFault<'a>>
    requires { 0 < length here.text.now }
    ensures value { Gives (λ x. (inner_tree x.0, rest_of x.1)) result
        (element_at version (nested_at version levels) (rest_of here.entry)) }
    ensures form { IfOk result (λ x. is_read x.0 ≡ true) }
{
    match first_piece(alloc, version, here)? {
        Piece::Literal(text, rest) => Ok((FormatDescriptionV3Inner::BorrowedLiteral(text), rest)),
        Piece::Part(component, rest) => Ok((FormatDescriptionV3Inner::from(component), rest)),
        Piece::Optional(rest) => optional(alloc, version, levels, here.index, rest),
        Piece::First(rest) => first(alloc, version, levels, here.index, rest),
    }
}

/// An optional item after its name, and what follows it.
#[tactic(auto, unfolding(crate::specs::Reading::optional_at))]
#[cycle(nested)]
pub fn optional<'a>(
    alloc: Global,
    version: DescriptionVersion,
    levels: u8,
    bracket: usize,
    here: Rest<'a>,
) -> Result<(FormatDescriptionV3Inner<'a>, Rest<'a>), DescriptionFault<'a>>
    ensures value { Gives (λ x. (inner_tree x.0, rest_of x.1)) result
        (optional_at version (nested_at version levels) bracket (rest_of here.entry)) }
    ensures form { IfOk result (λ x. is_read x.0 ≡ true) }
{
    let start = opened("whitespace after `optional`", here)?;
    let (items, rest) = nested(alloc, version, levels, start)?;
    optional_of(alloc, version, bracket, items, rest)
}

/// Alternatives after their name, and what follows them.
#[tactic(auto, unfolding(crate::specs::Reading::first_at))]
#[cycle(nested)]
pub fn first<'a>(
    alloc: Global,
    version: DescriptionVersion,
    levels: u8,
    bracket: usize,
    here: Rest<'a>,
) -> Result<(FormatDescriptionV3Inner<'a>, Rest<'a>), DescriptionFault<'a>>
    ensures value { Gives (λ x. (inner_tree x.0, rest_of x.1)) result
        (first_at version (nested_at version levels) bracket (rest_of here.entry)) }
    ensures form { IfOk result (λ x. is_read x.0 ≡ true) }
{
    let start = opened("whitespace after `first`", here)?;
    let (all, rest) = alternatives(alloc, version, levels, start)?;
    first_of(version, bracket, all, rest)
}

// The nested descriptions of `first`.
#[cycle(nested)]
fn alternatives<'a>(
    alloc: Global,
    version: DescriptionVersion,
    levels: u8,
    here: Rest<'a>,
) -> Result<(Vec<FormatDescriptionV3Inner<'a>>, Rest<'a>), DescriptionFault<'a>>
    ensures value { Gives (λ x. (inner_trees x.0.items, rest_of x.1)) result
        (many no_bracket (nested_at version levels) (suc (length here.entry.text.now))
        (rest_of here.entry)) }
    ensures form { IfOk result (λ x. are_read x.0.items ≡ true) }
{
    let mut all = Vec::new(alloc);
    let mut rest = here;
    'others: while begins(rest.text, b'[') {
        let (items, after) = nested(alloc, version, levels, rest)?;
        all.push(FormatDescriptionV3Inner::OwnedCompound(items))?;
        rest = after;
    }
    Ok((all, rest))
}

// The items of a nested description from its bracket on, where so many levels may be opened.
#[tactic(auto, unfolding(crate::specs::Reading::nested_at))]
#[cycle(nested)]
fn nested<'a>(
    alloc: Global,
    version: DescriptionVersion,
    levels: u8,
    here: Rest<'a>,
) -> Result<(Vec<FormatDescriptionV3Inner<'a>>, Rest<'a>), DescriptionFault<'a>>
    requires { IsCharBoundary here.text.now 1 }
    ensures value { Gives (λ x. (Compound (listed (inner_trees x.0.items)), rest_of x.1)) result
        (nested_at version levels (rest_of here.entry)) }
    ensures form { IfOk result (λ x. are_read x.0.items ≡ true) }
{
    if levels == 0 {
        return Err(DescriptionFault::Description(InvalidFormatDescription::NotSupported {
            what: "nesting past 127 levels",
            context: "format descriptions",
            index: here.index,
        }));
    }
    let (_, inside) = cut(here, 1);
    let (all, rest) = items(alloc, version, levels - 1, true, inside)?;
    let rest = closed(here.index, rest)?;
    Ok((all, past_space(rest)))
}

//! Descriptions of versions 1 and 2.

ghost use Rattle.std.specs.Prelude.{◌≡◌, ◌<◌, false, true, Err, IfOk, IsErr, length};
ghost use Rattle.description_lexer.specs.Answer.{Gives};
ghost use Rattle.description_items.specs.Forms.{is_of_text, are_of_text};
ghost use Rattle.description_items.specs.Tree.{tree_of, trees};
ghost use Rattle.description_lexer.specs.Version.{is_three};
ghost use Rattle.description_lexer.specs.Views.{rest_of};
ghost use Rattle.description_grammar.specs.Reading.{element_at, nested_at, read_items};

use crate::nested::{LEVELS, first, optional};
use crate::pieces::{Piece, first_piece};
use description_items::BorrowedFormatItem;
use description_lexer::{DescriptionFault, DescriptionVersion, Rest, whole_of};
use description_tree::FormatDescriptionV3Inner;
use std::alloc::Global;

/// The items of a description of version 1 or 2. Nested descriptions are read for their faults alone.
#[tactic(auto, unfolding(crate::specs::Reading::read_items))]
pub fn items_of<'a>(
    alloc: Global,
    version: DescriptionVersion,
    text: &'a str,
) -> Result<Vec<BorrowedFormatItem<'a>>, DescriptionFault<'a>>
    requires version { is_three version ≡ false }
    ensures value { Gives (λ v. trees v.items) result (read_items version text.now) }
    ensures form { IfOk result (λ v. are_of_text v.items ≡ true) }
{
    let mut all = Vec::new(alloc);
    let mut rest = whole_of(text);
    while !rest.text.is_empty() {
        let (item, after) = element(alloc, version, rest)?;
        all.push(item)?;
        rest = after;
    }
    Ok(all)
}

// One item: text, an escape or a component.
fn element<'a>(
    alloc: Global,
    version: DescriptionVersion,
    here: Rest<'a>,
) -> Result<(BorrowedFormatItem<'a>, Rest<'a>), DescriptionFault<'a>>
    requires version { is_three version ≡ false }
    requires some { 0 < length here.text.now }
    ensures value { Gives (λ x. (tree_of x.0, rest_of x.1)) result
        (element_at version (nested_at version 127) (rest_of here.entry)) }
    ensures form { IfOk result (λ x. is_of_text x.0 ≡ true) }
{
    match first_piece(alloc, version, here)? {
        Piece::Literal(text, rest) => Ok((BorrowedFormatItem::StringLiteral(text), rest)),
        Piece::Part(component, rest) => Ok((BorrowedFormatItem::Component(component), rest)),
        Piece::Optional(rest) => {
            Err(refused(optional(alloc, version, LEVELS, here.index, rest)))
        }
        Piece::First(rest) => Err(refused(first(alloc, version, LEVELS, here.index, rest))),
    }
}

// The fault of a nested item, which versions 1 and 2 don't have.
fn refused<'a>(
    nested: Result<(FormatDescriptionV3Inner<'a>, Rest<'a>), DescriptionFault<'a>>,
) -> DescriptionFault<'a>
    requires { IsErr nested }
    ensures { nested.entry ≡ Err result }
{
    match nested {
        Err(fault) => fault,
        Ok(_) => unreachable!(),
    }
}

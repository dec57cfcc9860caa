//! The items of the parts of a text, one after the other.

ghost use Rattle.std.specs.Prelude.{◌≡◌, [], ◌∷◌, ◌++◌, true, IfOk, map};
ghost use Rattle.description_items.specs.Forms.{is_of_text, are_of_text};
ghost use Rattle.description_items.specs.Tree.{tree_of, trees};
ghost use Rattle.description_strftime.specs.Letters.{offset, separator, part_of};
ghost use Rattle.description_strftime.specs.Views.{items_spelled, is_of_text_part};

use crate::letters::{Spelled, item_of};
use description_items::modifier::{OffsetHour, OffsetMinute, Padding};
use description_items::{BorrowedFormatItem, Component};
use std::alloc::AllocError;

// What stands between two letters of a composite.
#[tactic(auto, unfolding(crate::specs::Letters::separator))]
fn separator(byte: u8) -> &'static str
    ensures value { result.now ≡ separator byte }
{
    match byte {
        b'/' => "/",
        b'-' => "-",
        b':' => ":",
        _ => " ",
    }
}

// A letter of a composite, or what stands between two of them.
#[tactic(auto, unfolding(crate::specs::Letters::part_of))]
fn part_of(byte: u8) -> BorrowedFormatItem<'static>
    ensures value { tree_of result ≡ part_of byte }
    ensures form { is_of_text result ≡ true }
{
    match item_of(None, byte) {
        Some(item) => item,
        None => BorrowedFormatItem::StringLiteral(separator(byte)),
    }
}

// One item, after the others.
fn push_item<'a>(
    all: &mut Vec<BorrowedFormatItem<'a>>,
    item: BorrowedFormatItem<'a>,
) -> Result<(), AllocError>
    ensures items { IfOk result
        (λ _. trees all.new.items ≡ trees all.old.items ++ tree_of item.entry ∷ []) }
    ensures form { IfOk result (λ _. are_of_text all.old.items ≡ true
        → is_of_text item.entry ≡ true → are_of_text all.new.items ≡ true) }
{
    all.push(item)?;
    Ok(())
}

// The items of a composite's letters, after the others.
fn push_composite(
    all: &mut Vec<BorrowedFormatItem<'_>>,
    letters: &'static str,
) -> Result<(), AllocError>
    ensures items { IfOk result
        (λ _. trees all.new.items ≡ trees all.old.items ++ map part_of letters.now) }
    ensures form { IfOk result (λ _. are_of_text all.old.items ≡ true
        → are_of_text all.new.items ≡ true) }
{
    for byte in letters.as_bytes() {
        push_item(all, part_of(*byte))?;
    }
    Ok(())
}

// The hours and the minutes of an offset, after the others.
fn push_offset(all: &mut Vec<BorrowedFormatItem<'_>>) -> Result<(), AllocError>
    ensures items { IfOk result (λ _. trees all.new.items ≡ trees all.old.items ++ offset) }
    ensures form { IfOk result (λ _. are_of_text all.old.items ≡ true
        → are_of_text all.new.items ≡ true) }
{
    let padding = Padding::Zero;
    let hour = OffsetHour {
        sign_is_mandatory: true,
        padding,
    };
    let minute = OffsetMinute { padding };
    push_item(
        all,
        BorrowedFormatItem::Component(Component::OffsetHour(hour)),
    )?;
    push_item(
        all,
        BorrowedFormatItem::Component(Component::OffsetMinute(minute)),
    )
}

/// The items that a part stands for, after the others.
pub fn push_part<'a>(
    all: &mut Vec<BorrowedFormatItem<'a>>,
    part: Spelled<'a>,
) -> Result<(), AllocError>
    ensures items { IfOk result
        (λ _. trees all.new.items ≡ trees all.old.items ++ items_spelled part.entry) }
    ensures form { IfOk result (λ _. are_of_text all.old.items ≡ true
        → is_of_text_part part.entry ≡ true → are_of_text all.new.items ≡ true) }
{
    match part {
        Spelled::Item(item) => push_item(all, item),
        Spelled::Offset => push_offset(all),
        Spelled::Composite(letters) => push_composite(all, letters),
    }
}

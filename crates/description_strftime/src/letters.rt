//! What letters stand for.

ghost use Rattle.std.specs.Prelude.{◌≡◌, ◌<◌, true, IfSome};
ghost use Rattle.std.specs.Option.{option_map};
ghost use Rattle.description_items.specs.Forms.{is_of_text};
ghost use Rattle.description_items.specs.Tree.{tree_of};
ghost use Rattle.description_strftime.specs.Letters.{flag_of, text_of, item_of, composite, letter_items, refused};
ghost use Rattle.description_strftime.specs.Views.{items_spelled, is_of_text_part};

use crate::numbers::component_of;
use description_items::BorrowedFormatItem;
use description_items::modifier::Padding;

/// What a part of a text stands for.
#[derive(Clone, Copy)]
pub enum Spelled<'a> {
    /// One item.
    Item(BorrowedFormatItem<'a>),
    /// The hours of an offset with their sign, and its minutes.
    Offset,
    /// The items of these letters, and what stands between them.
    Composite(&'static str),
}

/// The padding that a flag sets.
#[tactic(auto, unfolding(crate::specs::Letters::flag_of))]
pub fn flag_of(byte: u8) -> Option<Padding>
    ensures value { result ≡ flag_of byte }
    ensures ascii { IfSome result (λ _. byte < 128) }
{
    match byte {
        b'_' => Some(Padding::Space),
        b'-' => Some(Padding::None),
        b'0' => Some(Padding::Zero),
        _ => None,
    }
}

// The text that a letter stands for.
#[tactic(auto, unfolding(crate::specs::Letters::text_of))]
fn text_of(letter: u8) -> Option<&'static str>
    ensures value { option_map (λ t. t.now) result ≡ text_of letter }
    ensures ascii { IfSome result (λ _. letter < 128) }
{
    match letter {
        b'n' => Some("\n"),
        b't' => Some("\t"),
        b'%' => Some("%"),
        _ => None,
    }
}

/// The one item that a letter stands for.
#[tactic(auto, unfolding(crate::specs::Letters::item_of))]
pub fn item_of(flag: Option<Padding>, letter: u8) -> Option<BorrowedFormatItem<'static>>
    ensures value { option_map (λ item. tree_of item) result ≡ item_of flag letter }
    ensures form { IfSome result (λ item. is_of_text item ≡ true) }
    ensures ascii { IfSome result (λ _. letter < 128) }
{
    if let Some(component) = component_of(flag, letter) {
        return Some(BorrowedFormatItem::Component(component));
    }
    if let Some(text) = text_of(letter) {
        return Some(BorrowedFormatItem::StringLiteral(text));
    }
    None
}

// The letters that a composite one stands for, and what stands between them.
#[tactic(auto, unfolding(crate::specs::Letters::composite))]
fn composite(letter: u8) -> Option<&'static str>
    ensures value { option_map (λ t. t.now) result ≡ composite letter }
    ensures ascii { IfSome result (λ _. letter < 128) }
{
    match letter {
        b'c' => Some("a b e H:M:S Y"),
        b'D' | b'x' => Some("m/d/y"),
        b'F' => Some("Y-m-d"),
        b'r' => Some("I:M:S p"),
        b'R' => Some("H:M"),
        b'T' | b'X' => Some("H:M:S"),
        _ => None,
    }
}

/// What a letter stands for under a flag.
#[tactic(auto, unfolding(crate::specs::Letters::letter_items))]
pub fn spelled_by(flag: Option<Padding>, letter: u8) -> Option<Spelled<'static>>
    ensures value { option_map (λ s. items_spelled s) result ≡ letter_items flag letter }
    ensures form { IfSome result (λ part. is_of_text_part part ≡ true) }
    ensures ascii { IfSome result (λ _. letter < 128) }
{
    if let Some(item) = item_of(flag, letter) {
        return Some(Spelled::Item(item));
    }
    if letter == b'z' {
        return Some(Spelled::Offset);
    }
    if let Some(letters) = composite(letter) {
        return Some(Spelled::Composite(letters));
    }
    None
}

/// What is not supported of a letter or sign that has a meaning elsewhere.
#[tactic(auto, unfolding(crate::specs::Letters::refused))]
pub fn refused(letter: u8) -> Option<&'static str>
    ensures value { option_map (λ t. t.now) result ≡ refused letter }
{
    match letter {
        b'E' | b'O' => Some("alternative form"),
        b'Z' => Some("zone name"),
        b'^' | b'#' => Some("flag"),
        _ => None,
    }
}

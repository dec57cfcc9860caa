//! The parts of components.
ghost use Rattle.std.specs.Prelude.{◌≡◌, Some, IfSome};
ghost use Rattle.parsing_item_parts.specs.Items.{part_in, parts_of, sign_and};

use description_items::Component;
use parsing_item_layouts::{Form, Piece, form_of};
use parsing_layout::Part;

// The part that a piece is.
fn part_in(piece: Piece) -> Option<Part>
    ensures { result ≡ part_in piece }
{
    match piece {
        Piece::Part(part) => Some(part),
        Piece::Bytes(_) => None,
    }
}

/// The part that a component is, and whether a sign stands before it: where there is a choice, none stands there.
pub fn part_of(component: &Component) -> Option<(bool, Part)>
    ensures { IfSome result (λ x. parts_of component.now ≡ Some (sign_and x.0 x.1)) }
{
    match form_of(component) {
        Form::Bare(piece) => part_in(piece).map(|part| (false, part)),
        Form::Signed(piece) => part_in(piece).map(|part| (true, part)),
        Form::Either { signed: _, bare } => part_in(bare).map(|part| (false, part)),
    }
}

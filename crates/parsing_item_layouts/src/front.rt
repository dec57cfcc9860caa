//! What may be known of the first bytes of lines.
ghost use Rattle.std.specs.Prelude.{ℕ, Bool, List, [], ◌++◌, true, false};
ghost use Rattle.parsing_layout.specs.Stretch.{IsCut};
ghost use Rattle.parsing_item_layouts.specs.Forms.{AfterSign, IsFormed, IsPiece};

use crate::forms::{Form, Piece};
use parsing_layout::{Kind, Part, Stretch};

/// What is known of the first bytes of lines, put together from their ends.
pub(crate) trait Front: Copy {
    // A line may begin so, and where it is to be read as a whole, it is not known to be too long.
    ghost fits: { Bool → Self → List ℕ → Type 0 };

    /// What is known of what is left after all that is read: it is anything, or nothing where the line is to be read as a whole.
    fn end() -> Self
        ensures any { (line : List ℕ) → fits false result line }
        ensures whole { fits true result [] };

    /// What is known of no line.
    fn none() -> Self;

    /// Makes it what is known of the lines that begin with a stretch, where this is known of what they go on with.
    fn put(&mut self, stretch: Stretch)
        ensures { (whole : Bool) (line rest : List ℕ) → IsCut stretch line rest → fits whole self.old rest
            → fits whole self.new line };

    /// Makes it what is known of its lines and others.
    fn join(&mut self, other: &Self)
        ensures kept { (whole : Bool) (line : List ℕ) → fits whole self.old line → fits whole self.new line }
        ensures joined { (whole : Bool) (line : List ℕ) → fits whole other.now line
            → fits whole self.new line };

    /// The same, where the others have a sign and these may have none at its place.
    fn join_signed(&mut self, other: &Self)
        ensures kept { (whole : Bool) (line : List ℕ) → fits whole self.old line → fits whole self.new line }
        ensures joined { (whole : Bool) (line : List ℕ) → fits whole other.now line
            → fits whole self.new line };
}

// Puts a piece before.
fn put_piece<F: Front>(front: &mut F, piece: Piece)
    ensures { (whole : Bool) (line rest : List ℕ) → IsPiece piece line rest → F.fits whole front.old rest
        → F.fits whole front.new line }
{
    front.put(piece.stretch());
}

// Puts a sign and a piece before.
fn put_signed<F: Front>(front: &mut F, piece: Piece)
    ensures { (whole : Bool) (line rest : List ℕ) → AfterSign piece line rest → F.fits whole front.old rest
        → F.fits whole front.new line }
{
    put_piece(front, piece);
    put_piece(front, Piece::Part(Part::Sign));
}

/// Puts texts of a form before.
pub(crate) fn put_form<F: Front>(front: &mut F, form: Form)
    ensures { (whole : Bool) (line rest : List ℕ) → IsFormed form line rest → F.fits whole front.old rest
        → F.fits whole front.new line }
{
    match form {
        Form::Bare(piece) => put_piece(front, piece),
        Form::Signed(piece) => put_signed(front, piece),
        Form::Either { signed, bare } => {
            let mut with_sign = *front;
            put_signed(&mut with_sign, signed);
            put_piece(front, bare);
            front.join_signed(&with_sign);
        }
    }
}

/// Puts the bytes of a text before.
pub(crate) fn put_text<F: Front>(front: &mut F, text: &[u8])
    ensures { (whole : Bool) (rest : List ℕ) → F.fits whole front.old rest
        → F.fits whole front.new (text.now ++ rest) }
{
    for place in 0..text.len() {
        let byte = text[text.len() - 1 - place];
        front.put(Stretch::of(Kind::Only(byte), 1));
    }
}

//! The bytes that a text begins with, whatever it says.
ghost use Rattle.std.specs.Prelude.{◌≡◌, ◌<◌, ℕ, List, Some, true, false, get_or};
ghost use Rattle.parsing_layout.specs.Layout.{piece_of};
ghost use Rattle.parsing_layout.specs.Stretch.{IsCut, initials, least_name, has_one_length, stands, stretch_of};

use crate::parts::{Names, Part};

/// Bytes of one kind.
#[derive(Clone, Copy)]
pub enum Kind {
    /// This byte.
    Only(u8),
    Any,
    Digit,
    DigitOrSpace,
    Sign,
    /// The letters of a name, in any case: one that a name begins with, and then what lies after the digits.
    Letter(Names),
}

/// So many bytes of one kind that a text begins with.
#[derive(Clone, Copy)]
pub struct Stretch {
    /// What they are.
    pub kind: Kind,
    /// How many there are at least.
    pub least: usize,
    /// There are no more.
    pub is_whole: bool,
}

// How many bytes a name has at least.
fn least_name(names: Names) -> usize
    ensures { result ≡ least_name names }
{
    match names {
        Names::HalfOfDay => 2,
        _ => 3,
    }
}

// Whether all names have so many.
fn has_one_length(names: Names) -> bool
    ensures { result ≡ has_one_length names }
{
    !matches!(names, Names::LongMonth | Names::LongWeekday)
}

// The small letters that names begin with.
fn initials(names: Names) -> &'static [u8]
    ensures { result.now ≡ initials names }
{
    match names {
        Names::ShortMonth | Names::LongMonth => b"jfmasond",
        Names::ShortWeekday | Names::LongWeekday => b"mtwfs",
        Names::HalfOfDay => b"ap",
    }
}

impl Kind {
    // Whether a byte can stand at a place.
    fn stands(self, place: usize, byte: u8) -> bool
        ensures { result ≡ stands self place byte }
    {
        match self {
            Kind::Only(wanted) => byte == wanted,
            Kind::Any => true,
            Kind::Digit => byte.is_ascii_digit(),
            Kind::DigitOrSpace => byte.is_ascii_digit() || byte == b' ',
            Kind::Sign => byte == b'+' || byte == b'-',
            Kind::Letter(names) if place == 0 => {
                initials(names).contains(&byte.to_ascii_lowercase())
            }
            Kind::Letter(_) => byte > b'9',
        }
    }

    // The lowest and the highest byte that can.
    fn range(self, place: usize) -> (u8, u8)
        ensures low { (byte : ℕ) → byte < result.0 → stands self place byte ≡ false }
        ensures high { (byte : ℕ) → result.1 < byte → byte < 256 → stands self place byte ≡ false }
    {
        match self {
            Kind::Only(byte) => (byte, byte),
            Kind::Any => (0, 255),
            Kind::Digit => (b'0', b'9'),
            Kind::DigitOrSpace => (b' ', b'9'),
            Kind::Sign => (b'+', b'-'),
            Kind::Letter(_) if place == 0 => (0, 255),
            Kind::Letter(_) => (b':', 255),
        }
    }
}

// The bytes of a part.
fn stretch_of(part: Part) -> Stretch
    ensures { result ≡ stretch_of part }
{
    match part {
        Part::Byte(byte) => Stretch::of(Kind::Only(byte), 1),
        Part::Any => Stretch::of(Kind::Any, 1),
        Part::Digits(_, count) | Part::Fraction(count) => Stretch::of(Kind::Digit, count),
        Part::Bare(_) | Part::OpenFraction | Part::Run(_, _) => Stretch::from(Kind::Digit, 1),
        Part::Spaced(_) => Stretch::of(Kind::DigitOrSpace, 2),
        Part::Name(names, _) => Stretch {
            kind: Kind::Letter(names),
            least: least_name(names),
            is_whole: has_one_length(names),
        },
        Part::Sign => Stretch::of(Kind::Sign, 1),
    }
}

impl Stretch {
    /// So many bytes of a kind, and no more.
    pub fn of(kind: Kind, least: usize) -> Stretch
        ensures { result ≡ (record { kind = kind; least = least; is_whole = true }) }
    {
        Stretch {
            kind,
            least,
            is_whole: true,
        }
    }

    /// So many bytes of a kind, or more.
    pub fn from(kind: Kind, least: usize) -> Stretch
        ensures { result ≡ (record { kind = kind; least = least; is_whole = false }) }
    {
        Stretch {
            kind,
            least,
            is_whole: false,
        }
    }

    /// The bytes of a part.
    #[tactic(auto, using(crate::proofs::StretchLemmas::part_cut))]
    pub fn of_part(part: Part) -> Stretch
        ensures { (line rest : List ℕ) (number : ℕ) → piece_of part line ≡ Some (number, rest)
            → IsCut result line rest }
    {
        stretch_of(part)
    }

    /// The lowest and the highest byte at a place.
    pub fn range(&self, place: usize) -> (u8, u8)
        ensures low { (byte : ℕ) → byte < result.0 → stands self.now.kind place byte ≡ false }
        ensures high { (byte : ℕ) → result.1 < byte → byte < 256
            → stands self.now.kind place byte ≡ false }
    {
        self.kind.range(place)
    }

    /// The bytes that can stand at a place.
    pub fn bytes_at(&self, place: usize) -> [bool; 256]
        ensures { (byte : ℕ) → get_or result byte true ≡ false
            → stands self.now.kind place byte ≡ false }
    {
        let (low, high) = self.range(place);
        let mut bytes = [false; 256];
        for byte in usize::from(low)..usize::from(high) + 1 {
            bytes[byte] = self.kind.stands(place, byte as u8);
        }
        bytes
    }
}

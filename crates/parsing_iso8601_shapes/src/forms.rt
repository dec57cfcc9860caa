//! The forms of usual texts.
ghost use Rattle.std.specs.Prelude.{◌≡◌, ◌<◌, ◌≤◌, length, true};
ghost use Rattle.parsing_shapes.specs.Shape.{fits};
ghost use Rattle.parsing_iso8601_shapes.specs.Layout as Layout;
ghost use Rattle.parsing_iso8601_shapes.specs.Layout.{front_parts};

use crate::form::{Dating, Form};
use parsing_places::{LANES, Moves, Window, Windows};
use parsing_shapes::Shape;

// Where the parts of a text stand, with two windows of sixteen bytes: the first ones, and those from `back.at` on.
struct Row {
    // The lowest byte at each place of the first window.
    low: [u8; LANES],
    // How far a byte may lie above it.
    above: [u8; LANES],
    // The places that lanes take: two for each number, of the date, then hour and minute, and last the second.
    lanes: [u8; LANES],
    back: Back,
    // How many bytes there are up to a fraction or an offset.
    length: usize,
    dating: Dating,
    is_extended: bool,
}

// The same three of the second window, and where it begins.
struct Back {
    low: [u8; LANES],
    above: [u8; LANES],
    lanes: [u8; LANES],
    at: usize,
}

// A second window that lets all bytes be, where the first one has all parts.
const NOTHING: Back = Back {
    low: *b"\0\0\0\0\0\0\0\0\0\0\0\0\0\0\0\0",
    above: *b"\xff\xff\xff\xff\xff\xff\xff\xff\xff\xff\xff\xff\xff\xff\xff\xff",
    lanes: *b"\x80\x80\x80\x80\x80\x80\x80\x80\x80\x80\x80\x80\x80\x80\x80\x80",
    at: 0,
};

/// For each way to name a day a basic form and an extended one.
pub(crate) const FORMS: usize = 6;

const ROWS: usize = 12;

// The forms with a second, then the same without one.
static TABLE: [Row; ROWS] = [
    // `19850412T232050`
    Row {
        low: *b"00000000T000000\0",
        above: *b"\x09\x09\x09\x09\x01\x09\x03\x09\x00\x02\x09\x05\x09\x05\x09\xff",
        lanes: *b"\x04\x05\x06\x07\x09\x0a\x0b\x0c\x80\x80\x80\x80\x80\x80\x0d\x0e",
        back: NOTHING,
        length: 15,
        dating: Dating::Calendar,
        is_extended: false,
    },
    // `1985-04-12T23:20:50`
    Row {
        low: *b"0000-00-00T00:00",
        above: *b"\x09\x09\x09\x09\x00\x01\x09\x00\x03\x09\x00\x02\x09\x00\x05\x09",
        lanes: *b"\x05\x06\x08\x09\x0b\x0c\x0e\x0f\x80\x80\x80\x80\x80\x80\x80\x80",
        back: Back {
            low: *b"0-00-00T00:00:00",
            above: *b"\x09\x00\x01\x09\x00\x03\x09\x00\x02\x09\x00\x05\x09\x00\x05\x09",
            lanes: *b"\x80\x80\x80\x80\x80\x80\x80\x80\x80\x80\x80\x80\x80\x80\x0e\x0f",
            at: 3,
        },
        length: 19,
        dating: Dating::Calendar,
        is_extended: true,
    },
    // `1985102T232050`
    Row {
        low: *b"0000000T000000\0\0",
        above: *b"\x09\x09\x09\x09\x03\x09\x09\x00\x02\x09\x05\x09\x05\x09\xff\xff",
        lanes: *b"\x04\x05\x80\x06\x08\x09\x0a\x0b\x80\x80\x80\x80\x80\x80\x0c\x0d",
        back: NOTHING,
        length: 14,
        dating: Dating::Ordinal,
        is_extended: false,
    },
    // `1985-102T23:20:50`
    Row {
        low: *b"0000-000T00:00:0",
        above: *b"\x09\x09\x09\x09\x00\x03\x09\x09\x00\x02\x09\x00\x05\x09\x00\x05",
        lanes: *b"\x05\x06\x80\x07\x09\x0a\x0c\x0d\x80\x80\x80\x80\x80\x80\x0f\x80",
        back: Back {
            low: *b"000-000T00:00:00",
            above: *b"\x09\x09\x09\x00\x03\x09\x09\x00\x02\x09\x00\x05\x09\x00\x05\x09",
            lanes: *b"\x80\x80\x80\x80\x80\x80\x80\x80\x80\x80\x80\x80\x80\x80\x80\x0f",
            at: 1,
        },
        length: 17,
        dating: Dating::Ordinal,
        is_extended: true,
    },
    // `1985W155T232050`
    Row {
        low: *b"0000W000T000000\0",
        above: *b"\x09\x09\x09\x09\x00\x05\x09\x07\x00\x02\x09\x05\x09\x05\x09\xff",
        lanes: *b"\x05\x06\x80\x07\x09\x0a\x0b\x0c\x80\x80\x80\x80\x80\x80\x0d\x0e",
        back: NOTHING,
        length: 15,
        dating: Dating::Week,
        is_extended: false,
    },
    // `1985-W15-5T23:20:50`
    Row {
        low: *b"0000-W00-0T00:00",
        above: *b"\x09\x09\x09\x09\x00\x00\x05\x09\x00\x07\x00\x02\x09\x00\x05\x09",
        lanes: *b"\x06\x07\x80\x09\x0b\x0c\x0e\x0f\x80\x80\x80\x80\x80\x80\x80\x80",
        back: Back {
            low: *b"0-W00-0T00:00:00",
            above: *b"\x09\x00\x00\x05\x09\x00\x07\x00\x02\x09\x00\x05\x09\x00\x05\x09",
            lanes: *b"\x80\x80\x80\x80\x80\x80\x80\x80\x80\x80\x80\x80\x80\x80\x0e\x0f",
            at: 3,
        },
        length: 19,
        dating: Dating::Week,
        is_extended: true,
    },
    // `19850412T2320`
    Row {
        low: *b"00000000T0000\0\0\0",
        above: *b"\x09\x09\x09\x09\x01\x09\x03\x09\x00\x02\x09\x05\x09\xff\xff\xff",
        lanes: *b"\x04\x05\x06\x07\x09\x0a\x0b\x0c\x80\x80\x80\x80\x80\x80\x80\x80",
        back: NOTHING,
        length: 13,
        dating: Dating::Calendar,
        is_extended: false,
    },
    // `1985-04-12T23:20`
    Row {
        low: *b"0000-00-00T00:00",
        above: *b"\x09\x09\x09\x09\x00\x01\x09\x00\x03\x09\x00\x02\x09\x00\x05\x09",
        lanes: *b"\x05\x06\x08\x09\x0b\x0c\x0e\x0f\x80\x80\x80\x80\x80\x80\x80\x80",
        back: NOTHING,
        length: 16,
        dating: Dating::Calendar,
        is_extended: true,
    },
    // `1985102T2320`
    Row {
        low: *b"0000000T0000\0\0\0\0",
        above: *b"\x09\x09\x09\x09\x03\x09\x09\x00\x02\x09\x05\x09\xff\xff\xff\xff",
        lanes: *b"\x04\x05\x80\x06\x08\x09\x0a\x0b\x80\x80\x80\x80\x80\x80\x80\x80",
        back: NOTHING,
        length: 12,
        dating: Dating::Ordinal,
        is_extended: false,
    },
    // `1985-102T23:20`
    Row {
        low: *b"0000-000T00:00\0\0",
        above: *b"\x09\x09\x09\x09\x00\x03\x09\x09\x00\x02\x09\x00\x05\x09\xff\xff",
        lanes: *b"\x05\x06\x80\x07\x09\x0a\x0c\x0d\x80\x80\x80\x80\x80\x80\x80\x80",
        back: NOTHING,
        length: 14,
        dating: Dating::Ordinal,
        is_extended: true,
    },
    // `1985W155T2320`
    Row {
        low: *b"0000W000T0000\0\0\0",
        above: *b"\x09\x09\x09\x09\x00\x05\x09\x07\x00\x02\x09\x05\x09\xff\xff\xff",
        lanes: *b"\x05\x06\x80\x07\x09\x0a\x0b\x0c\x80\x80\x80\x80\x80\x80\x80\x80",
        back: NOTHING,
        length: 13,
        dating: Dating::Week,
        is_extended: false,
    },
    // `1985-W15-5T23:20`
    Row {
        low: *b"0000-W00-0T00:00",
        above: *b"\x09\x09\x09\x09\x00\x00\x05\x09\x00\x07\x00\x02\x09\x00\x05\x09",
        lanes: *b"\x06\x07\x80\x09\x0b\x0c\x0e\x0f\x80\x80\x80\x80\x80\x80\x80\x80",
        back: NOTHING,
        length: 16,
        dating: Dating::Week,
        is_extended: true,
    },
];

// Which row of the table has a form, with a second or without.
#[inline(always)]
fn row_of(form: usize, has_second: bool) -> usize
    requires { form < FORMS }
    ensures row { result ≡ Layout.row_of form has_second }
    ensures bound { result < ROWS }
{
    if has_second { form } else { FORMS + form }
}

/// One of the forms, with a second or without.
#[tactic(auto, using(crate::proofs::FormLemmas::front_moves, crate::proofs::FormLemmas::back_moves, crate::proofs::FormLemmas::within))]
#[inline(always)]
pub(crate) fn form_at(form: usize, has_second: bool) -> Form
    requires { form < FORMS }
    ensures { fits result.shape (front_parts result.dating result.is_extended has_second) ≡ true }
{
    let row = &TABLE[row_of(form, has_second)];
    Form {
        shape: Shape {
            windows: Windows {
                prefix: Window {
                    low: row.low,
                    high: row.above,
                    taken: Moves { lanes: row.lanes },
                },
                back: Window {
                    low: row.back.low,
                    high: row.back.above,
                    taken: Moves {
                        lanes: row.back.lanes,
                    },
                },
                back_at: row.back.at,
            },
            length: row.length,
            has_tail: true,
            year: 0,
        },
        dating: row.dating,
        is_extended: row.is_extended,
    }
}

// The form of a text, by a number that two bits of each of the four bytes after its year make.
static FORM_BY_MARKS: [u8; 16] = [4, 3, 0, 0, 0, 0, 0, 0, 0, 0, 2, 0, 0, 1, 0, 5];

// The number that tells the form: two bits of a byte say whether it is a hyphen, a letter or a digit, and a product adds those of
// all four, each with its own weight, in the highest four bits.
#[inline(always)]
fn marks_of(text: &[u8]) -> usize
    requires { LANES ≤ length text.now }
    ensures { result < 16 }
{
    let kinds = u32::from_le_bytes([text[4], text[5], text[6], text[7]]) & 0x3030_3030;
    (kinds.wrapping_mul(0x0101_0004) >> 28) as usize
}

/// Which form a text has, if one: the four bytes after its year tell.
#[inline(always)]
pub(crate) fn form_of(text: &[u8]) -> usize
    requires { LANES ≤ length text.now }
    ensures { result < FORMS }
{
    usize::from(FORM_BY_MARKS[marks_of(text)])
}

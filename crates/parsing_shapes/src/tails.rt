//! The tails, by how many bytes they have and by how an offset is written.
ghost use Rattle.std.specs.Prelude.{◌≡◌, ◌≤◌, ◌+◌, true, IfSome};
ghost use Rattle.parsing_shapes.specs.Tail.{is_fraction, offset_at, tail_row};

use crate::tail::Tail;
use parsing_places::{Ending, LANES, Moves, Window};

// Three rows for each number of bytes after the prefix of a text: for `Z`, for an offset without a colon, and for one with it.
// Before the offset there is nothing, or a point and one to nine digits. Where it can't be so, the last byte has to be one that
// ends no such offset, so that no text has the row, and no other test is needed.
const ROWS: usize = 51;

// What each of the last sixteen bytes of a text has.
type Bytes = [u8; LANES];

// Any bytes, and then `Z` or `0`; and lanes that take nothing.
const BEFORE_Z: Bytes = *b"\0\0\0\0\0\0\0\0\0\0\0\0\0\0\0Z";

const BEFORE_0: Bytes = *b"\0\0\0\0\0\0\0\0\0\0\0\0\0\0\00";

const ANY: Bytes = *b"\xff\xff\xff\xff\xff\xff\xff\xff\xff\xff\xff\xff\xff\xff\xff\x00";

const NOTHING: Bytes = *b"\x80\x80\x80\x80\x80\x80\x80\x80\x80\x80\x80\x80\x80\x80\x80\x80";

// The tables, one after the other, so that one address serves all.
struct Tables {
    // The lowest byte at each place.
    low: [Bytes; ROWS],
    // How far a byte may lie above it: any byte stands before the fraction.
    above: [Bytes; ROWS],
    // The places of the fraction's digits. A lane of 128 takes nothing.
    digits: [Bytes; ROWS],
    // The places of the offset's hour and minute, from the ninth lane on, and of its sign.
    offsets: [Bytes; 3],
}

static TABLES: Tables = Tables {
    low: [
        BEFORE_0,
        BEFORE_Z,
        BEFORE_Z,
        BEFORE_Z,
        BEFORE_Z,
        BEFORE_Z,
        BEFORE_0,
        BEFORE_Z,
        BEFORE_Z,
        *b"\0\0\0\0\0\0\0\0\0\0\0\0\0.0Z",
        BEFORE_Z,
        BEFORE_Z,
        *b"\0\0\0\0\0\0\0\0\0\0\0\0.00Z",
        BEFORE_Z,
        BEFORE_Z,
        *b"\0\0\0\0\0\0\0\0\0\0\0.000Z",
        *b"\0\0\0\0\0\0\0\0\0\0\0+0000",
        BEFORE_Z,
        *b"\0\0\0\0\0\0\0\0\0\0.0000Z",
        BEFORE_Z,
        *b"\0\0\0\0\0\0\0\0\0\0+00:00",
        *b"\0\0\0\0\0\0\0\0\0.00000Z",
        *b"\0\0\0\0\0\0\0\0\0.0+0000",
        BEFORE_Z,
        *b"\0\0\0\0\0\0\0\0.000000Z",
        *b"\0\0\0\0\0\0\0\0.00+0000",
        *b"\0\0\0\0\0\0\0\0.0+00:00",
        *b"\0\0\0\0\0\0\0.0000000Z",
        *b"\0\0\0\0\0\0\0.000+0000",
        *b"\0\0\0\0\0\0\0.00+00:00",
        *b"\0\0\0\0\0\0.00000000Z",
        *b"\0\0\0\0\0\0.0000+0000",
        *b"\0\0\0\0\0\0.000+00:00",
        *b"\0\0\0\0\0.000000000Z",
        *b"\0\0\0\0\0.00000+0000",
        *b"\0\0\0\0\0.0000+00:00",
        BEFORE_0,
        *b"\0\0\0\0.000000+0000",
        *b"\0\0\0\0.00000+00:00",
        BEFORE_0,
        *b"\0\0\0.0000000+0000",
        *b"\0\0\0.000000+00:00",
        BEFORE_0,
        *b"\0\0.00000000+0000",
        *b"\0\0.0000000+00:00",
        BEFORE_0,
        *b"\0.000000000+0000",
        *b"\0.00000000+00:00",
        BEFORE_0,
        BEFORE_Z,
        *b".000000000+00:00",
    ],
    above: [
        ANY,
        ANY,
        ANY,
        ANY,
        ANY,
        ANY,
        ANY,
        ANY,
        ANY,
        *b"\xff\xff\xff\xff\xff\xff\xff\xff\xff\xff\xff\xff\xff\x00\x09\x00",
        ANY,
        ANY,
        *b"\xff\xff\xff\xff\xff\xff\xff\xff\xff\xff\xff\xff\x00\x09\x09\x00",
        ANY,
        ANY,
        *b"\xff\xff\xff\xff\xff\xff\xff\xff\xff\xff\xff\x00\x09\x09\x09\x00",
        *b"\xff\xff\xff\xff\xff\xff\xff\xff\xff\xff\xff\x02\x01\x09\x05\x09",
        ANY,
        *b"\xff\xff\xff\xff\xff\xff\xff\xff\xff\xff\x00\x09\x09\x09\x09\x00",
        ANY,
        *b"\xff\xff\xff\xff\xff\xff\xff\xff\xff\xff\x02\x01\x09\x00\x05\x09",
        *b"\xff\xff\xff\xff\xff\xff\xff\xff\xff\x00\x09\x09\x09\x09\x09\x00",
        *b"\xff\xff\xff\xff\xff\xff\xff\xff\xff\x00\x09\x02\x01\x09\x05\x09",
        ANY,
        *b"\xff\xff\xff\xff\xff\xff\xff\xff\x00\x09\x09\x09\x09\x09\x09\x00",
        *b"\xff\xff\xff\xff\xff\xff\xff\xff\x00\x09\x09\x02\x01\x09\x05\x09",
        *b"\xff\xff\xff\xff\xff\xff\xff\xff\x00\x09\x02\x01\x09\x00\x05\x09",
        *b"\xff\xff\xff\xff\xff\xff\xff\x00\x09\x09\x09\x09\x09\x09\x09\x00",
        *b"\xff\xff\xff\xff\xff\xff\xff\x00\x09\x09\x09\x02\x01\x09\x05\x09",
        *b"\xff\xff\xff\xff\xff\xff\xff\x00\x09\x09\x02\x01\x09\x00\x05\x09",
        *b"\xff\xff\xff\xff\xff\xff\x00\x09\x09\x09\x09\x09\x09\x09\x09\x00",
        *b"\xff\xff\xff\xff\xff\xff\x00\x09\x09\x09\x09\x02\x01\x09\x05\x09",
        *b"\xff\xff\xff\xff\xff\xff\x00\x09\x09\x09\x02\x01\x09\x00\x05\x09",
        *b"\xff\xff\xff\xff\xff\x00\x09\x09\x09\x09\x09\x09\x09\x09\x09\x00",
        *b"\xff\xff\xff\xff\xff\x00\x09\x09\x09\x09\x09\x02\x01\x09\x05\x09",
        *b"\xff\xff\xff\xff\xff\x00\x09\x09\x09\x09\x02\x01\x09\x00\x05\x09",
        ANY,
        *b"\xff\xff\xff\xff\x00\x09\x09\x09\x09\x09\x09\x02\x01\x09\x05\x09",
        *b"\xff\xff\xff\xff\x00\x09\x09\x09\x09\x09\x02\x01\x09\x00\x05\x09",
        ANY,
        *b"\xff\xff\xff\x00\x09\x09\x09\x09\x09\x09\x09\x02\x01\x09\x05\x09",
        *b"\xff\xff\xff\x00\x09\x09\x09\x09\x09\x09\x02\x01\x09\x00\x05\x09",
        ANY,
        *b"\xff\xff\x00\x09\x09\x09\x09\x09\x09\x09\x09\x02\x01\x09\x05\x09",
        *b"\xff\xff\x00\x09\x09\x09\x09\x09\x09\x09\x02\x01\x09\x00\x05\x09",
        ANY,
        *b"\xff\x00\x09\x09\x09\x09\x09\x09\x09\x09\x09\x02\x01\x09\x05\x09",
        *b"\xff\x00\x09\x09\x09\x09\x09\x09\x09\x09\x02\x01\x09\x00\x05\x09",
        ANY,
        ANY,
        *b"\x00\x09\x09\x09\x09\x09\x09\x09\x09\x09\x02\x01\x09\x00\x05\x09",
    ],
    digits: [
        NOTHING,
        NOTHING,
        NOTHING,
        NOTHING,
        NOTHING,
        NOTHING,
        NOTHING,
        NOTHING,
        NOTHING,
        *b"\x0e\x80\x80\x80\x80\x80\x80\x80\x80\x80\x80\x80\x80\x80\x80\x80",
        NOTHING,
        NOTHING,
        *b"\x0d\x0e\x80\x80\x80\x80\x80\x80\x80\x80\x80\x80\x80\x80\x80\x80",
        NOTHING,
        NOTHING,
        *b"\x0c\x0d\x0e\x80\x80\x80\x80\x80\x80\x80\x80\x80\x80\x80\x80\x80",
        NOTHING,
        NOTHING,
        *b"\x0b\x0c\x0d\x0e\x80\x80\x80\x80\x80\x80\x80\x80\x80\x80\x80\x80",
        NOTHING,
        NOTHING,
        *b"\x0a\x0b\x0c\x0d\x0e\x80\x80\x80\x80\x80\x80\x80\x80\x80\x80\x80",
        *b"\x0a\x80\x80\x80\x80\x80\x80\x80\x80\x80\x80\x80\x80\x80\x80\x80",
        NOTHING,
        *b"\x09\x0a\x0b\x0c\x0d\x0e\x80\x80\x80\x80\x80\x80\x80\x80\x80\x80",
        *b"\x09\x0a\x80\x80\x80\x80\x80\x80\x80\x80\x80\x80\x80\x80\x80\x80",
        *b"\x09\x80\x80\x80\x80\x80\x80\x80\x80\x80\x80\x80\x80\x80\x80\x80",
        *b"\x08\x09\x0a\x0b\x0c\x0d\x0e\x80\x80\x80\x80\x80\x80\x80\x80\x80",
        *b"\x08\x09\x0a\x80\x80\x80\x80\x80\x80\x80\x80\x80\x80\x80\x80\x80",
        *b"\x08\x09\x80\x80\x80\x80\x80\x80\x80\x80\x80\x80\x80\x80\x80\x80",
        *b"\x07\x08\x09\x0a\x0b\x0c\x0d\x0e\x80\x80\x80\x80\x80\x80\x80\x80",
        *b"\x07\x08\x09\x0a\x80\x80\x80\x80\x80\x80\x80\x80\x80\x80\x80\x80",
        *b"\x07\x08\x09\x80\x80\x80\x80\x80\x80\x80\x80\x80\x80\x80\x80\x80",
        *b"\x06\x07\x08\x09\x0a\x0b\x0c\x0d\x0e\x80\x80\x80\x80\x80\x80\x80",
        *b"\x06\x07\x08\x09\x0a\x80\x80\x80\x80\x80\x80\x80\x80\x80\x80\x80",
        *b"\x06\x07\x08\x09\x80\x80\x80\x80\x80\x80\x80\x80\x80\x80\x80\x80",
        NOTHING,
        *b"\x05\x06\x07\x08\x09\x0a\x80\x80\x80\x80\x80\x80\x80\x80\x80\x80",
        *b"\x05\x06\x07\x08\x09\x80\x80\x80\x80\x80\x80\x80\x80\x80\x80\x80",
        NOTHING,
        *b"\x04\x05\x06\x07\x08\x09\x0a\x80\x80\x80\x80\x80\x80\x80\x80\x80",
        *b"\x04\x05\x06\x07\x08\x09\x80\x80\x80\x80\x80\x80\x80\x80\x80\x80",
        NOTHING,
        *b"\x03\x04\x05\x06\x07\x08\x09\x0a\x80\x80\x80\x80\x80\x80\x80\x80",
        *b"\x03\x04\x05\x06\x07\x08\x09\x80\x80\x80\x80\x80\x80\x80\x80\x80",
        NOTHING,
        *b"\x02\x03\x04\x05\x06\x07\x08\x09\x0a\x80\x80\x80\x80\x80\x80\x80",
        *b"\x02\x03\x04\x05\x06\x07\x08\x09\x80\x80\x80\x80\x80\x80\x80\x80",
        NOTHING,
        NOTHING,
        *b"\x01\x02\x03\x04\x05\x06\x07\x08\x09\x80\x80\x80\x80\x80\x80\x80",
    ],
    offsets: [
        NOTHING,
        *b"\x80\x80\x80\x80\x80\x80\x80\x80\x0c\x0d\x0e\x0f\x80\x0b\x80\x80",
        *b"\x80\x80\x80\x80\x80\x80\x80\x80\x0b\x0c\x0e\x0f\x80\x0a\x80\x80",
    ],
};

// Which of three rows an offset has.
#[inline(always)]
fn row_of(ending: Ending) -> usize
    ensures row { result ≡ tail_row ending }
    ensures bound { result ≤ 2 }
{
    match ending {
        Ending::Zulu => 0,
        Ending::Plain => 1,
        Ending::Colon => 2,
    }
}

/// How many bytes an offset has.
#[inline(always)]
pub(crate) fn length_of(ending: Ending) -> usize
    ensures length { result + offset_at ending ≡ LANES }
    ensures bound { result ≤ 6 }
{
    let row = row_of(ending);
    if row == 0 { 1 } else { row + 4 }
}

// The tail of so many bytes.
#[tactic(auto, using(crate::proofs::RowLemmas::offset_right))]
#[inline(always)]
fn tail_at(ending: Ending, bytes: usize) -> Tail
    requires { bytes ≤ LANES }
    ensures ending { result.ending ≡ ending }
    ensures bytes { is_fraction result.fraction ≡ true
        → bytes + offset_at ending ≡ LANES + result.fraction }
{
    let kind = row_of(ending);
    let row = 3 * bytes + kind;
    Tail {
        window: Window {
            low: TABLES.low[row],
            high: TABLES.above[row],
            taken: Moves {
                lanes: TABLES.offsets[kind],
            },
        },
        digits: Moves {
            lanes: TABLES.digits[row],
        },
        fraction: bytes.wrapping_sub(length_of(ending)),
        ending,
    }
}

/// The tail of so many bytes, if there can be one, with a fraction of at most nine digits.
#[inline(always)]
pub(crate) fn tail_of(ending: Ending, bytes: usize) -> Option<Tail>
    ensures ending { IfSome result (λ t. t.ending ≡ ending) }
    ensures bytes { IfSome result (λ t. is_fraction t.fraction ≡ true
        → bytes + offset_at ending ≡ LANES + t.fraction) }
    ensures few { IfSome result (λ _. bytes ≤ LANES) }
{
    if bytes > LANES {
        return None;
    }
    Some(tail_at(ending, bytes))
}

//! The windows of parts, made from their places and checked later.
ghost use Rattle.std.specs.Prelude.{◌≡◌, ◌<◌, ◌+◌, IfSome};
ghost use Rattle.parsing_layout.specs.Layout.{width};

use parsing_layout::{Field, Part};
use parsing_places::{LANES, Moves, Window, Windows};

// The most bytes of parts that windows take.
const LENGTH: usize = 32;

// The lane that takes a sign, which the second window has to take.
const SIGN: usize = 13;

// A place that no text has.
const NOWHERE: usize = 1000;

// The lanes of a window that takes nothing.
const NOTHING: [u8; LANES] = [128; LANES];

// The lowest byte at each place of a text, how far one may lie above it, and the place that each lane takes.
#[derive(Clone, Copy)]
pub(crate) struct Made {
    low: [u8; LENGTH],
    most: [u8; LENGTH],
    lanes: [usize; LANES],
    // How many bytes the parts have.
    pub(crate) length: usize,
    // Where the year stands.
    pub(crate) year: usize,
}

// How many bytes a part has.
pub(crate) fn width(part: Part) -> usize
    ensures { result ≡ width part }
{
    match part {
        Part::Byte(_) | Part::Any | Part::Sign => 1,
        Part::Digits(_, count) | Part::Fraction(count) => count,
        Part::Spaced(_) => 2,
        Part::Name(_, _) => 3,
        Part::Bare(_) | Part::OpenFraction | Part::Run(_, _) => 0,
    }
}

// The first of the two lanes that take a field, and the greatest digit that its tens may be.
fn lanes_of(field: Field) -> Option<(usize, u8)>
    ensures { IfSome result (λ x. x.0 + 1 < LANES) }
{
    match field {
        Field::Month => Some((0, 1)),
        Field::Day => Some((2, 3)),
        Field::Hour => Some((4, 2)),
        Field::Minute => Some((6, 5)),
        Field::OffsetHour => Some((8, 1)),
        Field::OffsetMinute => Some((10, 5)),
        Field::Second => Some((14, 5)),
        _ => None,
    }
}

impl Made {
    /// Those of parts.
    pub(crate) fn of(parts: &[Part]) -> Made {
        let mut made = Made {
            low: [0; LENGTH],
            most: [255; LENGTH],
            lanes: [NOWHERE; LANES],
            length: 0,
            year: NOWHERE,
        };
        for part in parts {
            made.put(*part);
        }
        made
    }

    // Puts a part after the others.
    fn put(&mut self, part: Part) {
        let place = self.length;
        match part {
            Part::Byte(byte) => self.lets(place, byte, 0),
            Part::Digits(Field::Year, _) => self.let_year(place),
            Part::Digits(field, _) => self.take_two(field, place),
            Part::Spaced(Field::Day) => self.take_spaced(place),
            Part::Sign => {
                self.lets(place, b'+', 2);
                self.lanes[SIGN] = place;
            }
            _ => {}
        }
        self.length = place.wrapping_add(width(part));
    }

    // A byte from the lowest on, and at most so far above it, alone stands at a place.
    fn lets(&mut self, place: usize, low: u8, most: u8) {
        if place < LENGTH {
            self.low[place] = low;
            self.most[place] = most;
        }
    }

    // A lane takes a digit, at most so large.
    fn take(&mut self, lane: usize, place: usize, most: u8)
        requires { lane < LANES }
    {
        self.lets(place, b'0', most);
        self.lanes[lane] = place;
    }

    // The lanes of a field take two digits.
    fn take_two(&mut self, field: Field, place: usize) {
        if let Some((lane, most)) = lanes_of(field) {
            self.take(lane, place, most);
            self.take(lane + 1, place.wrapping_add(1), 9);
        }
    }

    fn let_year(&mut self, place: usize) {
        self.year = place;
        for after in 0..4 {
            self.lets(place.wrapping_add(after), b'0', 9);
        }
    }

    // The ones of a day alone are taken, whose tens may be a space.
    fn take_spaced(&mut self, place: usize) {
        self.lets(place, b' ', b'3' - b' ');
        self.take(3, place.wrapping_add(1), 9);
    }

    // The bytes that lanes take of a window that begins at a place, where no other window takes them.
    fn moves(&self, at: usize, others: &[u8; LANES]) -> [u8; LANES] {
        let mut moves = NOTHING;
        for lane in 0..LANES {
            let place = self.lanes[lane].wrapping_sub(at);
            if others[lane] == 128 && place < LANES {
                moves[lane] = place as u8;
            }
        }
        moves
    }

    // The window that begins at a place, which may lie before a text: there any byte from a `0` on may stand.
    fn window(&self, at: usize, moves: [u8; LANES]) -> Option<Window> {
        let mut low = [b'0'; LANES];
        let mut high = [255; LANES];
        for lane in 0..LANES {
            let place = at.wrapping_add(lane);
            if place < LENGTH {
                low[lane] = self.low[place];
                high[lane] = self.most[place];
            }
        }
        let taken = Moves::checked(moves)?;
        Some(Window { low, high, taken })
    }

    /// The windows of the first sixteen bytes, and of the last.
    pub(crate) fn windows(&self) -> Option<Windows> {
        let back_at = self.length.saturating_sub(LANES);
        let mut first = self.moves(0, &NOTHING);
        first[SIGN] = 128;
        let last = self.moves(back_at, &first);
        let prefix = self.window(0, first)?;
        let back = self.window(back_at, last)?;
        Some(Windows {
            prefix,
            back,
            back_at,
        })
    }

    /// The window over the last bytes of texts that end with the parts.
    pub(crate) fn last_window(&self) -> Option<Window> {
        let at = self.length.wrapping_sub(LANES);
        self.window(at, self.moves(at, &NOTHING))
    }
}

//! Where lanes take the parts of a text from its day on.

use parsing_places::{Moves, Window, Windows};
use parsing_shapes::Shape;

// Lanes that take a day of two digits.
const DAY_OF_TWO_DIGITS: Moves = Moves {
    lanes: [
        128, 128, 0, 1, 128, 128, 128, 128, 128, 128, 128, 128, 128, 128, 128, 128,
    ],
};

// Lanes that take a day of one digit.
const DAY_OF_ONE_DIGIT: Moves = Moves {
    lanes: [
        128, 128, 128, 0, 128, 128, 128, 128, 128, 128, 128, 128, 128, 128, 128, 128,
    ],
};

// The first 16 bytes.
const TWO_DIGITS: Window = Window {
    low: *b"00 \0\0\0 0000 00:0",
    high: [9, 9, 0, 255, 255, 255, 0, 9, 9, 9, 9, 0, 2, 9, 0, 5],
    taken: DAY_OF_TWO_DIGITS,
};

const ONE_DIGIT: Window = Window {
    low: *b"0 \0\0\0 0000 00:00",
    high: [9, 0, 255, 255, 255, 0, 9, 9, 9, 9, 0, 2, 9, 0, 5, 9],
    taken: DAY_OF_ONE_DIGIT,
};

// The same with a year of two digits, which lanes leave.
const TWO_DIGITS_AND_SHORT_YEAR: Window = Window {
    low: *b"00 \0\0\0 \0\0 00:00:",
    high: [9, 9, 0, 255, 255, 255, 0, 255, 255, 0, 2, 9, 0, 5, 9, 0],
    taken: DAY_OF_TWO_DIGITS,
};

const ONE_DIGIT_AND_SHORT_YEAR: Window = Window {
    low: *b"0 \0\0\0 \0\0 00:00:0",
    high: [9, 0, 255, 255, 255, 0, 255, 255, 0, 2, 9, 0, 5, 9, 0, 5],
    taken: DAY_OF_ONE_DIGIT,
};

// The last 16 bytes, `3 10:52:37 +0200`.
const CLOCK_AND_OFFSET: Window = Window {
    low: *b"0 00:00:00 +0000",
    high: [9, 0, 2, 9, 0, 5, 9, 0, 5, 9, 0, 2, 1, 9, 5, 9],
    taken: Moves {
        lanes: [
            128, 128, 128, 128, 2, 3, 5, 6, 12, 13, 14, 15, 128, 11, 8, 9,
        ],
    },
};

// `ul 2003 10:52:37`.
const CLOCK: Window = Window {
    low: *b"\0\0 0000 00:00:00",
    high: [255, 255, 0, 9, 9, 9, 9, 0, 2, 9, 0, 5, 9, 0, 5, 9],
    taken: Moves {
        lanes: [
            128, 128, 128, 128, 8, 9, 11, 12, 128, 128, 128, 128, 128, 128, 14, 15,
        ],
    },
};

// `2003 10:52 +0200`.
const MINUTE_AND_OFFSET: Window = Window {
    low: *b"0000 00:00 +0000",
    high: [9, 9, 9, 9, 0, 2, 9, 0, 5, 9, 0, 2, 1, 9, 5, 9],
    taken: Moves {
        lanes: [
            128, 128, 128, 128, 5, 6, 8, 9, 12, 13, 14, 15, 128, 11, 128, 128,
        ],
    },
};

/// The shape of `01 Jul 2003 10:52:37 +0200`.
pub(crate) const TWO_DIGITS_USUAL: Shape = Shape {
    windows: Windows {
        prefix: TWO_DIGITS,
        back: CLOCK_AND_OFFSET,
        back_at: 10,
    },
    length: 26,
    has_tail: false,
    year: 7,
};

/// The shape of `1 Jul 2003 10:52:37 +0200`.
pub(crate) const ONE_DIGIT_USUAL: Shape = Shape {
    windows: Windows {
        prefix: ONE_DIGIT,
        back: CLOCK_AND_OFFSET,
        back_at: 9,
    },
    length: 25,
    has_tail: false,
    year: 6,
};

/// The shape of `01 Jul 2003 10:52:37`, before a zone's name.
pub(crate) const TWO_DIGITS_NAMED: Shape = Shape {
    windows: Windows {
        prefix: TWO_DIGITS,
        back: CLOCK,
        back_at: 4,
    },
    length: 20,
    has_tail: false,
    year: 7,
};

/// The shape of `1 Jul 2003 10:52:37`, before a zone's name.
pub(crate) const ONE_DIGIT_NAMED: Shape = Shape {
    windows: Windows {
        prefix: ONE_DIGIT,
        back: CLOCK,
        back_at: 3,
    },
    length: 19,
    has_tail: false,
    year: 6,
};

/// The shape of `01 Jul 2003 10:52 +0200`.
pub(crate) const TWO_DIGITS_WITHOUT_SECOND: Shape = Shape {
    windows: Windows {
        prefix: TWO_DIGITS,
        back: MINUTE_AND_OFFSET,
        back_at: 7,
    },
    length: 23,
    has_tail: false,
    year: 7,
};

/// The shape of `1 Jul 2003 10:52 +0200`.
pub(crate) const ONE_DIGIT_WITHOUT_SECOND: Shape = Shape {
    windows: Windows {
        prefix: ONE_DIGIT,
        back: MINUTE_AND_OFFSET,
        back_at: 6,
    },
    length: 22,
    has_tail: false,
    year: 6,
};

/// The shape of `01 Jul 03 10:52:37 +0200`. (A shape needs four digits for a year: those of the offset.)
pub(crate) const TWO_DIGITS_SHORT_YEAR: Shape = Shape {
    windows: Windows {
        prefix: TWO_DIGITS_AND_SHORT_YEAR,
        back: CLOCK_AND_OFFSET,
        back_at: 8,
    },
    length: 24,
    has_tail: false,
    year: 20,
};

/// The shape of `1 Jul 03 10:52:37 +0200`. (A shape needs four digits for a year: those of the offset.)
pub(crate) const ONE_DIGIT_SHORT_YEAR: Shape = Shape {
    windows: Windows {
        prefix: ONE_DIGIT_AND_SHORT_YEAR,
        back: CLOCK_AND_OFFSET,
        back_at: 7,
    },
    length: 23,
    has_tail: false,
    year: 19,
};

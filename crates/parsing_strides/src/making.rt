//! How strides are made. Nothing is proved of this: what it makes is checked.

use crate::stride::{NOWHERE, Stride, lets_year};
use parsing_layout::{Field, Item, Part, place_of};
use parsing_places::{LANES, Moves};

// Below this, parts are read faster one by one.
const LEAST_LENGTH: usize = 3;

// A stride that is not finished.
#[derive(Clone, Copy)]
struct Draft {
    low: [u8; LANES],
    most: [u8; LANES],
    tens: [u8; LANES],
    ones: [u8; LANES],
    length: usize,
    year: usize,
}

// Has the lane of a field take a place.
fn take(lanes: &mut [u8; LANES], field: Field, place: usize) -> Option<()> {
    let lane = lanes.get_mut(place_of(field))?;
    *lane = u8::try_from(place).ok()?;
    Some(())
}

impl Draft {
    fn new() -> Draft {
        Draft {
            low: [0; LANES],
            most: [255; LANES],
            tens: [128; LANES],
            ones: [128; LANES],
            length: 0,
            year: NOWHERE,
        }
    }

    // With so many bytes more, each at most so far above the lowest one.
    fn with_bytes(self, count: usize, low: u8, most: u8) -> Option<Draft> {
        let mut draft = self;
        for _ in 0..count {
            if draft.length >= LANES {
                return None;
            }
            draft.low[draft.length] = low;
            draft.most[draft.length] = most;
            draft.length += 1;
        }
        Some(draft)
    }

    // With a number more, of one digit or two.
    fn with_number(self, field: Field, is_long: bool) -> Option<Draft> {
        let mut draft = self;
        if is_long {
            take(&mut draft.tens, field, self.length)?;
            draft = draft.with_bytes(1, b'0', 9)?;
        }
        take(&mut draft.ones, field, draft.length)?;
        draft.with_bytes(1, b'0', 9)
    }

    // With a part more.
    fn with(self, part: Part) -> Option<Draft> {
        let mut draft = self;
        match part {
            Part::Byte(byte) => draft.with_bytes(1, byte, 0),
            Part::Any => draft.with_bytes(1, 0, 255),
            Part::Digits(Field::Year, 4) => {
                draft.year = draft.length;
                draft.with_bytes(4, b'0', 9)
            }
            Part::Digits(field, 2) => draft.with_number(field, true),
            Part::Digits(field, 1) => draft.with_number(field, false),
            Part::Sign => {
                take(&mut draft.ones, Field::Sign, draft.length)?;
                draft.with_bytes(1, 0, b'-')
            }
            _ => None,
        }
    }

    // The stride of so many parts.
    fn finished(self, count: usize) -> Option<Stride> {
        let tens = Moves::checked(self.tens)?;
        let ones = Moves::checked(self.ones)?;
        if self.length > LANES || !lets_year(&self.low, &self.most, self.length, self.year) {
            return None;
        }
        Some(Stride {
            low: self.low,
            most: self.most,
            tens,
            ones,
            length: self.length,
            count,
            year: self.year,
        })
    }
}

/// A stride for the first items, if they have enough bytes.
pub(crate) fn stride_of(items: &[Item]) -> Option<Stride> {
    let mut draft = Draft::new();
    let mut count = 0;
    for (index, item) in items.iter().enumerate() {
        let Item::Part(part) = item else {
            break;
        };
        let Some(more) = draft.with(*part) else {
            break;
        };
        draft = more;
        count = index + 1;
    }
    if draft.length < LEAST_LENGTH {
        return None;
    }
    draft.finished(count)
}

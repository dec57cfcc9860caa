//! Where lanes take the parts of a text.
ghost use Rattle.std.specs.Prelude.{◌≡◌, false, true};
ghost use Rattle.parsing_shapes.specs.Shape.{fits};
ghost use Rattle.parsing_rfc3339.specs.Layout.{front_parts};

use parsing_places::{Moves, Window, Windows};
use parsing_shapes::Shape;

/// The shape of `1985-04-12T23:20:50`, where any byte separates date and time.
#[inline(always)]
pub(crate) fn shape() -> Shape
    ensures tail { result.has_tail ≡ true }
    ensures fits { fits result front_parts ≡ true }
{
    Shape {
        windows: Windows {
            prefix: Window {
                low: *b"0000-00-00\x0000:00",
                high: [9, 9, 9, 9, 0, 1, 9, 0, 3, 9, 255, 2, 9, 0, 5, 9],
                taken: Moves {
                    lanes: [
                        5, 6, 8, 9, 11, 12, 14, 15, 128, 128, 128, 128, 128, 128, 128, 128,
                    ],
                },
            },
            back: Window {
                low: *b"0-00-00\x0000:00:00",
                high: [9, 0, 1, 9, 0, 3, 9, 255, 2, 9, 0, 5, 9, 0, 5, 9],
                taken: Moves {
                    lanes: [
                        128, 128, 128, 128, 128, 128, 128, 128, 128, 128, 128, 128, 128, 128, 14,
                        15,
                    ],
                },
            },
            back_at: 3,
        },
        length: 19,
        has_tail: true,
        year: 0,
    }
}

//! What follows the prefix of a text: maybe a fraction of a second, then an offset.
ghost use Rattle.std.specs.Prelude.{◌≡◌, true};
ghost use Rattle.parsing_shapes.specs.Tail.{is_row};

use parsing_places::{Ending, Moves, Window};

/// The last sixteen bytes of a text. Where no fraction has as many bytes as are left for one, no text has them.
#[derive(Clone, Copy)]
pub(crate) struct Tail {
    /// Their bounds; its lanes take the numbers of the offset, and its sign.
    pub(crate) window: Window,
    /// Its lanes take the digits of the fraction.
    pub(crate) digits: Moves,
    /// How many bytes are left for the fraction, its point among them.
    pub(crate) fraction: usize,
    pub(crate) ending: Ending,
    ghost right: { is_row window digits ending fraction ≡ true },
}

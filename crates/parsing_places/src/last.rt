//! The last bytes of a text with a fraction of a second of any number of digits.
ghost use Rattle.std.specs.Prelude.{◌≡◌, ◌≤◌, ◌<◌, ◌+◌, ℕ, get_or};

mod calls;

use crate::shape::Window;
pub use calls::fraction_of;

// Twice the bytes of a vector.
const TWICE: usize = 32;

/// The last sixteen bytes of a text that has a fraction of a second of any number of digits, and then parts of fixed widths.
#[derive(Clone, Copy)]
pub struct LastBytes {
    /// The bounds of what stands after the fraction; its lanes take an offset.
    pub window: Window,
    /// How many bytes stand after the fraction.
    pub length: usize,
    // The places before them, one after the other, and then lanes that take nothing.
    places: [u8; TWICE],
    ghost few: { length ≤ 16 },
    ghost zeros: { (k : ℕ) → k + length < 16 → get_or window.low k 0 ≡ 48 },
    ghost before: { (k : ℕ) → k + length < 16 → get_or places k 0 ≡ k },
    ghost after: { (k : ℕ) → 16 ≤ k + length → k < 32 → 128 ≤ get_or places k 0 },
}

//! The numbers of a text that stand at known places, all read at once.
//!
//! A window says the lowest and the highest byte that each of sixteen places lets, and which lanes take which bytes. So each byte
//! of a text as `1985-04-12T23:20:50`, after which a fraction of a second and an offset may follow, is tested in one step, and the
//! digits of all numbers are taken by moving bytes. It knows no format: which texts windows stand for is said where they are made.
#![tactic(auto)]

mod ending;
mod lanes;
mod last;
mod long;
mod parts;
mod shape;
mod whole;
mod windows;

pub use ending::{Ending, ending_of};
pub use lanes::{LANES, Moves, all_above, joined, paired, sixteen_from, sums, taken_by};
pub use last::{LastBytes, fraction_of};
pub use long::are_digits;
pub use parts::signed;
pub use shape::Window;
pub use whole::digits_of_whole;
pub use windows::{Windows, padded};

//! What readings of texts share: the faults, the pieces that texts are cut into, and the longest prefix of bytes in a shape.
#![tactic(auto)]

mod chunk;
mod cut;
mod digits;
mod fault;
mod fractions;
mod names;
mod padding;
mod places;
mod signed;
mod strict;
mod wide;
mod zone;

pub use chunk::{above_zeros, digit_chunk, nine_digits, zeros_after};
pub use cut::{
    any_byte, byte, digit_run, four_digits, one_digit, sign, six_digits, three_digits, two_digits,
};
pub use digits::{digits_between, fraction_between, spaced_between};
pub use fault::{Parse, ParseFromDescription, TryFromParsed};
pub use fractions::{fraction, number};
pub use names::{long_month, long_weekday, period, short_month, short_weekday};
pub use padding::{padded, padded_four, padded_two};
pub use places::{four_digits_at, two_pairs_at};
pub use signed::{century, offset_hour, timestamp, year};
pub use strict::within;
pub use wide::long_number;
pub use zone::Zone;

//! The operators with numbers of up to 32 bits, which ask that the result is a duration: a module for
//! each type of number.

mod by_i16;
mod by_i32;
mod by_i8;
mod by_u16;
mod by_u32;
mod by_u8;

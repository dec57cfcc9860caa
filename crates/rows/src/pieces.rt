//! Rows of the pieces that texts are cut into: `piece two_digits | 07: => 7 ":"`. What is read and the rest are told, or
//! `none`.

use crate::bytes::tell_rest;
use crate::telling::{Told, tell_no_call};
use parsing_combinator::{
    any_byte, byte, digit_run, four_digits, fraction, nine_digits, one_digit, sign, six_digits,
    three_digits, two_digits,
};
use parsing_rfc2822::{comments_and_white_space, folding_white_space, may_begin, one_space};
use std::fmt::Debug;

/// White space and comments.
pub fn tell_white_space(told: &mut String, call: &str, input: &[u8]) -> Told {
    match call {
        "folding" => tell_rest(told, folding_white_space(input)),
        "comments" => tell_rest(told, comments_and_white_space(input)),
        "one_space" => tell_rest(told, one_space(input)),
        "may_begin" => write!(told, "{}", may_begin(input)),
        _ => tell_no_call(told),
    }
}

// What is read and the rest.
fn tell_found<T: Debug + Drop>(told: &mut String, found: Option<(T, &[u8])>) -> Told {
    let Some((value, rest)) = found else {
        return tell_rest(told, None);
    };
    write!(told, "{value:?} ")?;
    tell_rest(told, Some(rest))
}

// Digits and the rest.
fn tell_run(told: &mut String, found: Option<(&[u8], &[u8])>) -> Told {
    let Some((digits, rest)) = found else {
        return tell_rest(told, None);
    };
    tell_rest(told, Some(digits))?;
    told.push_str(" ")?;
    tell_rest(told, Some(rest))
}

/// Digits and signs.
pub fn tell_piece(told: &mut String, call: &str, input: &[u8]) -> Told {
    match call {
        "one_digit" => tell_found(told, one_digit(input)),
        "two_digits" => tell_found(told, two_digits(input)),
        "three_digits" => tell_found(told, three_digits(input)),
        "four_digits" => tell_found(told, four_digits(input)),
        "six_digits" => tell_found(told, six_digits(input)),
        "nine_digits" => tell_found(told, nine_digits(input)),
        "fraction" => tell_found(told, fraction(input)),
        "sign" => tell_found(
            told,
            sign(input).map(|(sign, rest)| (char::from(sign), rest)),
        ),
        "digit_run" => tell_run(told, digit_run(input)),
        "hyphen" => tell_rest(told, byte(b'-', input)),
        "any_byte" => tell_rest(told, any_byte(input)),
        _ => tell_no_call(told),
    }
}

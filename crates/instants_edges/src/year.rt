//! Years beside a date.
ghost use Rattle.std.specs.Prelude.{◌≡◌, ◌≤◌, length};
ghost use Rattle.std.specs.Char.{is_ascii_uppercase};
ghost use Rattle.std.specs.List.{prefix_len};
ghost use Rattle.instants_edges.specs.Beside as Beside;

use crate::apart::{after, gap};
use crate::bytes::{byte_at, first_bytes, letters_length, rest_from};
use crate::digits::number;
use crate::edge::is_edge;
use crate::forms::{FOUR_DIGITS, NUMBERS};
use crate::words::{begin_so, signed, word};

// Whether another year from 1000 to 2999 begins bytes.
#[inline(always)]
fn is_other_year(year: &i32, bytes: &[u8]) -> bool
    ensures { result ≡ Beside.is_other_year year.now bytes.now }
{
    matches!(byte_at(bytes, 0), b'1' | b'2')
        && word(&FOUR_DIGITS, bytes) != 0
        && number(bytes) as i32 != *year
}

// How many capital letters stand at the start.
#[tactic(auto, using(crate::proofs::Prefixes::prefix_count))]
fn capitals_length(bytes: &[u8]) -> usize
    ensures value { result ≡ prefix_len is_ascii_uppercase bytes.now }
    ensures within { result ≤ length bytes.now }
{
    bytes
        .iter()
        .take_while(|byte| byte.is_ascii_uppercase())
        .count()
}

// What stands over one byte, or over a zone and the spaces round it.
#[tactic(auto, using(std::proofs::lemmas::Bool::Decides::nat_tests))]
fn past_zone(bytes: &[u8]) -> &[u8]
    ensures { result.now ≡ Beside.past_zone bytes.now }
{
    let others = rest_from(bytes, 1);
    if byte_at(bytes, 0) != b' ' {
        return others;
    }
    let long = capitals_length(others).max(signed(&NUMBERS, others));
    if long > 0 && byte_at(others, long) == b' ' {
        rest_from(others, long + 1)
    } else {
        others
    }
}

// Whether another year stands after a date.
fn is_year_after(year: &i32, bytes: &[u8]) -> bool
    ensures { result ≡ Beside.is_year_after year.now bytes.now }
{
    is_other_year(year, bytes)
        || is_other_year(year, rest_from(bytes, 1))
        || is_other_year(year, past_zone(bytes))
        || (begin_so(b", ", bytes) && is_other_year(year, rest_from(bytes, 2)))
}

// Whether bytes may stand between a year and a date.
fn is_joint(bytes: &[u8]) -> bool
    ensures { result ≡ Beside.is_joint bytes.now }
{
    let parts = gap(bytes);
    let others = rest_from(bytes, parts);
    let rest = rest_from(others, letters_length(others));
    bytes.len() == 1 || (parts > 0 && rest.len() == gap(rest))
}

// Whether another year stands so far before a date.
#[inline(always)]
#[tactic(auto, using(std::proofs::lemmas::Bool::Decides::nat_tests))]
fn is_year_before(line: &[u8], begins: usize, year: &i32, far: usize) -> bool
    requires { begins ≤ length line.now }
    ensures { result ≡ Beside.is_year_before line.now begins year.now far }
{
    let place = begins.saturating_sub(far);
    is_other_year(year, rest_from(line, place))
        && is_joint(rest_from(first_bytes(line, begins), place + 4))
        && is_edge(line, place)
}

// Whether one stands so far before a date, from five bytes on.
fn has_year_before(line: &[u8], begins: usize, year: &i32, to: usize) -> bool
    requires { begins ≤ length line.now }
    ensures { result ≡ Beside.is_any (Beside.is_year_before line.now begins year.now) 5 to }
{
    (5..to).any(|far| is_year_before(line, begins, year, far))
}

/// Whether a line says another year beside a date that begins and ends at these places.
#[tactic(auto, unfolding(crate::specs::Beside::has_another_year))]
pub fn has_another_year(line: &[u8], begins: usize, ends: usize, year: i32) -> bool
    requires begins { begins ≤ length line.now }
    requires ends { ends ≤ length line.now }
    ensures { result ≡ Beside.has_another_year line.now begins ends year }
{
    is_year_after(&year, after(line, ends))
        || has_year_before(line, begins, &year, 12.min(begins + 1))
}

//! `zones_tests`: answers rows on standard input, each the name of a zone's file, a question and its numbers.
//!
//! - `Berlin moment M`: the offset and the abbreviation of the clock at a moment;
//! - `Berlin reading R`: the moments at which the clock shows a reading;
//! - `Berlin sure R`: the only moment of a reading where no step is near, else `near`;
//! - `Berlin byte PLACE BYTE`: the fault of the file with another byte at a place;
//! - `Berlin length N`: the fault of the file with so many bytes, zeros after its own;
//! - `rule TEXT M`: the names of a rule, its offset at a moment, and the instant and the offset of the next step.
//!
//! A row is written with its answer after ` => `.
#![tactic(auto)]

mod files;
mod rules;
mod telling;

use files::tell_file;
use rules::tell_rule;
use std::{fs, io};
use telling::tell_no_answer;
use zones::is_zone_name;

fn main(rt: HostRuntime) -> io::Result<()> {
    let rows = io::read_to_string(rt.alloc(), rt.stdin())?;
    let mut told = String::new(rt.alloc());
    for row in rows.as_str().lines() {
        tell_row(&rt, &mut told, row)?;
    }
    rt.print(told.as_str())
}

fn tell_row(rt: &HostRuntime, told: &mut String, row: &str) -> io::Result<()> {
    write!(told, "{row} => ")?;
    match parts_of(row) {
        Some(parts) => tell_parts(rt, told, parts),
        None => Ok(tell_no_answer(told)?),
    }
}

// The first two words of a row, and what stands after them.
fn parts_of(row: &str) -> Option<(&str, &str, &str)> {
    let (first, rest) = row.split_once(' ')?;
    let (second, rest) = rest.split_once(' ')?;
    Some((first, second, rest))
}

fn tell_parts(
    rt: &HostRuntime,
    told: &mut String,
    (first, second, rest): (&str, &str, &str),
) -> io::Result<()> {
    if first == "rule" {
        return Ok(tell_rule(rt.alloc(), told, second, rest)?);
    }
    if !is_zone_name(first.as_bytes()) {
        return Ok(tell_no_answer(told)?);
    }
    let file = fs::read(rt, first)?;
    Ok(tell_file(rt.alloc(), told, file, second, rest)?)
}

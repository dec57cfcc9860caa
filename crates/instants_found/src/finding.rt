//! What is found at one place of a line.
ghost use Rattle.std.specs.Prelude.{◌≡◌, ◌<◌, ◌+◌, true, false, length, map, option_map, Some, IfSome};
ghost use Rattle.instants_edges.specs.Edge.{is_edge};
ghost use Rattle.instants_prefixes.specs.DateSource.{grammar_in};
ghost use Rattle.instants_prefixes.specs.Given.{nothing};
ghost use Rattle.instants_found.specs.Candidate.{candidate, longest};
ghost use Rattle.instants_found.specs.Found.{at_place, finding};
ghost use Rattle.instants_found.specs.KeptDays.{IsKept};
ghost use Rattle.instants_found.specs.Starts.{HaveNoPrefix};
ghost use Rattle.instants_found.specs.declared.found.Finding.TheVariants.{There};

use crate::beside::{after, is_read, joined, why};
use crate::candidate::{Candidate, candidate_with, found_at, longer, read_candidate};
use crate::found::{Finding, Found};
use crate::kept_day::KeptDay;
use crate::zoned::Settled;
use instants_edges::is_edge;
use instants_prefixes::{DateSource, Given, NOTHING, lacks_byte, rules_out};

// What is found by the longest date at a place.
#[inline(always)]
fn finding(start: usize, longest: Candidate) -> Finding
    ensures { result ≡ finding start longest }
{
    if longest.doubt.is_some() {
        Finding::Doubtful(start)
    } else {
        Finding::There(longest.date)
    }
}

// What is found where the sources up to this number read a date, and those after it may.
#[inline(never)]
fn with_others(
    sources: &[DateSource<'_>],
    given: &Given,
    line: &[u8],
    start: usize,
    number: usize,
    first: Candidate,
) -> Finding
    requires start { start < length line.now }
    requires number { number < length sources.now }
    requires first { Some first ≡ longest given.now (map grammar_in sources.now) line.now start (number + 1) }
    ensures { Some result ≡ option_map (finding start)
        (longest given.now (map grammar_in sources.now) line.now start (length sources.now)) }
{
    let mut longest = first;
    for number in number + 1..sources.len() {
        if let Some(other) = read_candidate(&sources[number], given, line, start, number) {
            longest = longer(longest, other);
        }
    }
    finding(start, longest)
}

/// Whether the bytes may have a prefix that one of the sources from a number on reads: `false` says that they have none.
#[inline(always)]
pub(crate) fn may_read(sources: &[DateSource<'_>], from: usize, bytes: &[u8]) -> bool
    ensures { result ≡ false → HaveNoPrefix bytes.now (map grammar_in sources.now) from }
{
    for number in from..sources.len() {
        if !rules_out(sources[number].source(), bytes) {
            return true;
        }
    }
    false
}

// The same. Few places have a second source that may read a date there, so it is a call of its own.
#[inline(never)]
fn some_may_read(sources: &[DateSource<'_>], from: usize, bytes: &[u8]) -> bool
    ensures { result ≡ false → HaveNoPrefix bytes.now (map grammar_in sources.now) from }
{
    may_read(sources, from, bytes)
}

// The same, where sources are left at all.
#[inline(always)]
fn others_may_read(sources: &[DateSource<'_>], from: usize, bytes: &[u8]) -> bool
    ensures { result ≡ false → HaveNoPrefix bytes.now (map grammar_in sources.now) from }
{
    from < sources.len() && some_may_read(sources, from, bytes)
}

// What all sources find at a place. Where none after the first that reads a date may read one, nothing is compared.
#[inline(always)]
#[tactic(auto, unfolding(crate::specs::Candidate::longest))]
fn by_sources(
    sources: &[DateSource<'_>],
    given: &Given,
    kept: &mut KeptDay,
    line: &[u8],
    start: usize,
) -> Option<Finding>
    requires within { start < length line.now }
    requires kept { IsKept given.now.zone kept.old }
    ensures kept { IsKept given.now.zone kept.new }
    ensures is { result ≡ option_map (finding start)
        (longest given.now (map grammar_in sources.now) line.now start (length sources.now)) }
{
    let bytes = after(line, start);
    for number in 0..sources.len() {
        let source = &sources[number];
        if lacks_byte(source.source(), bytes) {
            continue;
        }
        let Some(prefix) = source.read(bytes, given) else {
            continue;
        };
        if !is_read(source, line, start, &prefix) {
            continue;
        }
        let date = Settled::of(source, given, kept, line, start, prefix);
        let doubt = why(source, given, line, start, &date);
        if others_may_read(sources, number + 1, bytes) {
            let one = candidate_with(line, start, number, date.prefix, doubt);
            return Some(with_others(sources, given, line, start, number, one));
        }
        if doubt.is_some() {
            return Some(Finding::Doubtful(start));
        }
        return Some(Finding::There(found_at(start, number, date.prefix)));
    }
    None
}

// The date that the source of this number reads at a place where nothing is given, if it is found at once: a plan reads it, and
// nothing joins it.
#[inline(always)]
fn plain_date(source: &DateSource<'_>, line: &[u8], start: usize, number: usize) -> Option<Found>
    requires { start < length line.now }
    ensures { IfSome result (λ date. Some (There date)
        ≡ option_map (finding start) (candidate nothing line.now start number (grammar_in source.now))) }
{
    let Some(prefix) = source.read_planned(after(line, start), &NOTHING) else {
        return None;
    };
    if !is_read(source, line, start, &prefix) {
        return None;
    }
    let None = joined(line, start, &prefix) else {
        return None;
    };
    Some(found_at(start, number, prefix))
}

// What all sources find at a place where nothing is given, if the first that may read a date there finds it at once, and no other
// may read one.
#[inline(always)]
#[tactic(auto, unfolding(crate::specs::Candidate::longest))]
fn plain_by_sources(sources: &[DateSource<'_>], line: &[u8], start: usize) -> Option<Found>
    requires { start < length line.now }
    ensures { IfSome result (λ date. Some (There date) ≡ option_map (finding start)
        (longest nothing (map grammar_in sources.now) line.now start (length sources.now))) }
{
    let bytes = after(line, start);
    for number in 0..sources.len() {
        let source = &sources[number];
        if lacks_byte(source.source(), bytes) {
            continue;
        }
        if others_may_read(sources, number + 1, bytes) {
            return None;
        }
        let Some(date) = plain_date(source, line, start, number) else {
            return None;
        };
        return Some(date);
    }
    None
}

/// The date at a place that isn't inside a word, where nothing is given, if it is found at once: `None` says nothing of the place.
#[inline(always)]
#[tactic(auto, unfolding(crate::specs::Found::at_place))]
pub(crate) fn plain_at(sources: &[DateSource<'_>], line: &[u8], start: usize) -> Option<Found>
    requires within { start < length line.now }
    requires edge { is_edge line.now start ≡ true }
    ensures { IfSome result (λ date. Some (There date)
        ≡ at_place nothing (map grammar_in sources.now) line.now start) }
{
    let Some(date) = plain_by_sources(sources, line, start) else {
        return None;
    };
    Some(date)
}

/// What is found at a place, where it isn't inside a word.
#[inline(always)]
#[tactic(auto, unfolding(crate::specs::Found::at_place))]
pub(crate) fn at_place(
    sources: &[DateSource<'_>],
    given: &Given,
    kept: &mut KeptDay,
    line: &[u8],
    start: usize,
) -> Option<Finding>
    requires within { start < length line.now }
    requires kept { IsKept given.now.zone kept.old }
    ensures kept { IsKept given.now.zone kept.new }
    ensures is { result ≡ at_place given.now (map grammar_in sources.now) line.now start }
{
    if is_edge(line, start) {
        by_sources(sources, given, kept, line, start)
    } else {
        None
    }
}

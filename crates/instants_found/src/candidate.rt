//! The dates that sources read at one place of a line.
ghost use Rattle.std.specs.Prelude.{◌≡◌, ◌<◌, ◌≤◌, ◌+◌, ◌^◌, Some, drop, length, IfSome};
ghost use Rattle.instants_prefixes.specs.DateSource.{grammar_in, IsWithin};
ghost use Rattle.instants_found.specs.Candidate as Candidates;
ghost use Rattle.instants_found.specs.Doubts.{doubted};

use crate::beside::{after, is_read, why};
use crate::doubt::{Doubt, Doubted};
use crate::found::Found;
use crate::zoned::Settled;
use instants_edges::reach;
use instants_prefixes::{DateSource, Given, Prefix, lacks_byte};

/// A date that a source reads at a place.
#[derive(Drop)]
pub(crate) struct Candidate {
    pub(crate) date: Found,
    // How far it reaches for sure.
    pub(crate) reach: usize,
    // Why it does not stand whole, if it does not.
    pub(crate) doubt: Option<Doubt>,
}

/// The date of a prefix that the source of this number reads at a place.
#[inline(always)]
pub(crate) fn found_at(start: usize, number: usize, prefix: Prefix) -> Found
    requires begins { start + prefix.begins < 2 ^ 64 }
    requires zone { start + prefix.zone < 2 ^ 64 }
    ensures { result ≡ Candidates.found_at start number prefix }
{
    Found {
        start: start + prefix.begins,
        end: start + prefix.zone,
        source: number,
        moment: prefix.moment,
    }
}

/// The date of a prefix that the source of this number reads at a place, with how far it reaches and its doubt.
#[inline(always)]
pub(crate) fn candidate_with(
    line: &[u8],
    start: usize,
    number: usize,
    prefix: Prefix,
    doubt: Option<Doubt>,
) -> Candidate
    requires within { start < length line.now }
    requires prefix { IsWithin (drop start line.now) prefix }
    ensures { result ≡ Candidates.candidate_with line.now start number prefix doubt }
{
    let (begins, ends, zone) = (
        start + prefix.begins,
        start + prefix.ends,
        start + prefix.zone,
    );
    let reach = reach(line, begins, ends, zone);
    Candidate {
        date: found_at(start, number, prefix),
        reach,
        doubt,
    }
}

/// The date that a source of this number reads at a place.
#[tactic(auto, unfolding(crate::specs::Candidate::candidate))]
pub(crate) fn read_candidate(
    source: &DateSource<'_>,
    given: &Given,
    line: &[u8],
    start: usize,
    number: usize,
) -> Option<Candidate>
    requires { start < length line.now }
    ensures is { result ≡ Candidates.candidate given.now line.now start number (grammar_in source.now) }
    ensures start { IfSome result (λ one. one.date.start ≤ length line.now) }
    ensures end { IfSome result (λ one. one.date.end ≤ length line.now) }
{
    let bytes = after(line, start);
    if lacks_byte(source.source(), bytes) {
        return None;
    }
    let Some(prefix) = source.read(bytes, given) else {
        return None;
    };
    if !is_read(source, line, start, &prefix) {
        return None;
    }
    let date = Settled::alone(source, given, line, start, prefix);
    let doubt = why(source, given, line, start, &date);
    Some(candidate_with(line, start, number, date.prefix, doubt))
}

/// The longer of two dates: of equals the first.
#[inline(always)]
#[tactic(auto, using(std::proofs::lemmas::Bool::Decides::nat_tests))]
pub(crate) fn longer(best: Candidate, one: Candidate) -> Candidate
    ensures { Some result ≡ Candidates.longer (Some best) (Some one) }
{
    if one.doubt.is_none() && (best.doubt.is_some() || best.reach < one.reach) {
        one
    } else {
        best
    }
}

/// The date that a source reads at a place, if it is in doubt.
pub(crate) fn doubted_at(
    source: &DateSource<'_>,
    given: &Given,
    line: &[u8],
    start: usize,
    number: usize,
) -> Option<Doubted>
    requires { start < length line.now }
    ensures is { result
        ≡ doubted (Candidates.candidate given.now line.now start number (grammar_in source.now)) }
    ensures start { IfSome result (λ date. date.start ≤ length line.now) }
    ensures end { IfSome result (λ date. date.end ≤ length line.now) }
{
    let Some(one) = read_candidate(source, given, line, start, number) else {
        return None;
    };
    let doubt = one.doubt?;
    Some(Doubted {
        start: one.date.start,
        end: one.date.end,
        doubt,
    })
}

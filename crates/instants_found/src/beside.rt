//! Whether a date stands whole in its line, and nothing beside it says otherwise.
ghost use Rattle.std.specs.Prelude.{◌≡◌, ◌<◌, ◌≤◌, ◌+◌, ◌||◌, not, true, false, drop, length, is_some, None};
ghost use Rattle.instants_prefixes.specs.DateSource.{grammar_in};
ghost use Rattle.instants_prefixes.specs.Reading.{record_at};
ghost use Rattle.instants_prefixes.specs.declared.given.Years.TheVariants.{Unknown};
ghost use Rattle.instants_found.specs.Beside as Beside;

use crate::doubt::Doubt;
use crate::zoned::Settled;
use calendar::UtcOffset;
use datetime_types::WallClock;
use instants_edges::{
    has_another_offset, has_another_year, has_clock_before, has_clock_beside, has_half_after,
    is_edge, may_say,
};
use instants_prefixes::{DateSource, Given, Prefix, Years, lacks_offset, lacks_time, lacks_year};
use parsing_record::Parsed;

/// The bytes from a place on.
#[inline(always)]
#[tactic(auto, using(std::proofs::lemmas::List::take_rest))]
pub(crate) fn after(line: &[u8], start: usize) -> &[u8]
    requires { start ≤ length line.now }
    ensures { result.now ≡ drop start line.now }
{
    &line[start..]
}

// Whether what a source read is no number of Unix time.
#[cold]
#[inline(never)]
fn is_no_unix_time(source: &DateSource<'_>, bytes: &[u8]) -> bool
    ensures { result
        ≡ not (is_some (record_at (grammar_in source.now) bytes.now).unix_timestamp_nanos) }
{
    source.record(bytes).unix_timestamp_nanos().is_none()
}

/// Whether what a source read at a place may be a date: it may say something there, and a number of Unix time inside a word is
/// none.
#[inline(always)]
pub(crate) fn is_read(source: &DateSource<'_>, line: &[u8], start: usize, prefix: &Prefix) -> bool
    requires within { start < length line.now }
    requires begins { start + prefix.now.begins ≤ length line.now }
    requires all { start + prefix.now.all ≤ length line.now }
    ensures { result ≡ Beside.is_read (grammar_in source.now) line.now start prefix.now }
{
    if !may_say(line, start + prefix.begins) {
        return false;
    }
    if !source.may_read_unix_time() {
        return true;
    }
    if is_edge(line, start + prefix.all) {
        return true;
    }
    is_no_unix_time(source, after(line, start))
}

// Whether no year was read, and no two digits of one.
fn says_no_year(read: &Parsed) -> bool
    ensures { result ≡ Beside.says_no_year read.now }
{
    lacks_year(read) && read.year_last_two().is_none() && read.iso_year_last_two().is_none()
}

/// What a line says beside a date, where something was given that it may say otherwise.
#[derive(Clone, Copy)]
pub(crate) struct Said {
    offset: bool,
    half: bool,
    clock: bool,
    year: bool,
}

// Whether a year is said beside a date, and another one than the one given.
#[inline(always)]
fn says_year(given: &Given, line: &[u8], start: usize, prefix: &Prefix) -> bool
    requires begins { start + prefix.now.begins ≤ length line.now }
    requires ends { start + prefix.now.ends ≤ length line.now }
    ensures { result ≡ Beside.says_year given.now line.now start prefix.now }
{
    if let Years::Unknown = given.years {
        return false;
    }
    let year = prefix.moment.moment().year();
    has_another_year(line, start + prefix.begins, start + prefix.ends, year)
}

impl Said {
    // What a line says beside a date that is read at a place.
    fn beside(
        given: &Given,
        offset: Option<UtcOffset>,
        line: &[u8],
        start: usize,
        prefix: &Prefix,
    ) -> Said
        requires begins { start + prefix.now.begins ≤ length line.now }
        requires ends { start + prefix.now.ends ≤ length line.now }
        ensures { result ≡ Beside.said given.now offset line.now start prefix.now }
    {
        let (begins, ends) = (start + prefix.begins, start + prefix.ends);
        let has_offset = offset.is_some();
        let offset = offset.unwrap_or(UtcOffset::UTC);
        Said {
            offset: has_offset && has_another_offset(line, start, ends, offset),
            half: has_offset && has_half_after(line, ends),
            clock: given.time.is_some() && has_clock_beside(line, begins, ends),
            year: says_year(given, line, start, prefix),
        }
    }

    // Whether it says nothing.
    #[inline(always)]
    fn is_nothing(&self) -> bool
        ensures { result ≡ not (self.now.offset || self.now.half || self.now.clock || self.now.year) }
    {
        !(self.offset || self.half || self.clock || self.year)
    }

    // The doubt that it makes of what was read: a number of Unix time needs nothing that was given.
    fn doubt(&self, read: &Parsed) -> Option<Doubt>
        ensures { result ≡ Beside.doubt_by read.now self.now }
    {
        if read.unix_timestamp_nanos().is_some() {
            return None;
        }
        let no_offset = lacks_offset(read);
        if no_offset && self.offset {
            return Some(Doubt::AnotherOffset);
        }
        let no_half = no_offset && read.hour_12_is_pm().is_none();
        if (no_half && self.half) || (self.clock && lacks_time(read)) {
            return Some(Doubt::AnotherTime);
        }
        if self.year && says_no_year(read) {
            return Some(Doubt::AnotherYear);
        }
        None
    }
}

// Whether neither an offset is assumed nor anything else is given.
#[inline(always)]
fn assumes_nothing(offset: Option<UtcOffset>, given: &Given) -> bool
    ensures offset { result ≡ true → is_some offset ≡ false }
    ensures years { result ≡ true → given.now.years ≡ Unknown }
    ensures time { result ≡ true → is_some given.now.time ≡ false }
{
    offset.is_none() && given.time.is_none() && matches!(given.years, Years::Unknown)
}

// What the line says otherwise beside a date than what was given for it. What was read is asked only where it says something.
#[inline(never)]
fn otherwise(
    source: &DateSource<'_>,
    given: &Given,
    offset: Option<UtcOffset>,
    line: &[u8],
    start: usize,
    prefix: &Prefix,
) -> Option<Doubt>
    requires within { start < length line.now }
    requires begins { start + prefix.now.begins ≤ length line.now }
    requires ends { start + prefix.now.ends ≤ length line.now }
    ensures { result ≡ Beside.otherwise given.now offset (record_at (grammar_in source.now) (drop start line.now)) line.now start prefix.now }
{
    let said = Said::beside(given, offset, line, start, prefix);
    if said.is_nothing() {
        return None;
    }
    said.doubt(&source.record(after(line, start)))
}

/// What joins the date that is read at a place, if anything does.
#[inline(always)]
pub(crate) fn joined(line: &[u8], start: usize, prefix: &Prefix) -> Option<Doubt>
    requires begins { start + prefix.now.begins ≤ length line.now }
    requires all { start + prefix.now.all ≤ length line.now }
    ensures { result ≡ Beside.joined line.now start prefix.now }
{
    if !is_edge(line, start + prefix.all) {
        return Some(Doubt::After);
    }
    if !prefix.is_chosen && has_clock_before(line, start + prefix.begins) {
        return Some(Doubt::ClockBefore);
    }
    None
}

/// Why the date that a source reads at a place does not stand whole there, if it does not. The line can say nothing otherwise
/// where nothing is assumed.
#[inline(always)]
#[tactic(auto, unfolding(crate::specs::Beside::why))]
pub(crate) fn why(
    source: &DateSource<'_>,
    given: &Given,
    line: &[u8],
    start: usize,
    date: &Settled,
) -> Option<Doubt>
    requires within { start < length line.now }
    requires begins { start + date.now.prefix.begins ≤ length line.now }
    requires ends { start + date.now.prefix.ends ≤ length line.now }
    requires all { start + date.now.prefix.all ≤ length line.now }
    ensures { result ≡ Beside.why given.now (grammar_in source.now) line.now start date.now }
{
    if let Some(doubt) = joined(line, start, &date.prefix) {
        return Some(doubt);
    }
    if let Some(doubt) = date.doubt {
        return Some(doubt);
    }
    if assumes_nothing(date.offset, given) {
        return None;
    }
    otherwise(source, given, date.offset, line, start, &date.prefix)
}

//! The date of a line as numbers.
ghost use Rattle.std.specs.Prelude.{◌≡◌, ◌<◌, ◌≤◌, ◌+◌, ◌^◌, length, map, Ok, Option, IfSome};
ghost use Rattle.std.specs.Option.{ok_or};
ghost use Rattle.instants_prefixes.specs.DateSource.{grammar_in};
ghost use Rattle.instants_found.specs.Found.{looked_at};
ghost use Rattle.instants_found.specs.Within.{IsWithin};
ghost use Rattle.instants_timeline.specs.Place.{shown_or_refused};
ghost use Rattle.instants_lines.specs.LineDates.{dated_by, doubt_number, escaped, first_doubt, in_doubt, part_dated, placed, undated, without_moment};
ghost use Rattle.instants_lines.specs.Showing.{search_in, setting_in};
ghost use Rattle.instants_lines_words.specs.Part.{part_of};

use crate::date_sources::DateSources;
use crate::line_part::has_escape;
use datetime_types::{OffsetDateTime, WallClock};
use instants_answers::Target;
use instants_found::{Doubt, Doubted, Finding, Found};
use instants_lines_words::LinePart;
use instants_prefixes::{DateSource, Given};
use instants_timeline::shown_at;

/// The date of a line as numbers: a moment, or the number of why there is none.
#[repr(C)]
#[derive(Clone, Copy, Debug, PartialEq, Eq)]
pub struct LineDate {
    /// The seconds since 1970 began in UTC, rounded down; 0 where there is no moment.
    pub seconds: i64,
    /// The nanoseconds after them, below 1,000,000,000; 0 where there is no moment.
    pub nanoseconds: u32,
    /// 0 for a moment, and else the number of why there is none.
    pub reason: u32,
    /// The place of the first byte that says something of the date; 0 where none is read.
    pub start: usize,
    /// The place after the last such byte; 0 where none is read.
    pub end: usize,
}

// The number of why a date does not stand whole.
fn doubt_number(doubt: Doubt) -> u32
    ensures { result ≡ doubt_number doubt }
{
    match doubt {
        Doubt::After => 201,
        Doubt::ClockBefore => 202,
        Doubt::Skipped => 203,
        Doubt::Repeated => 204,
        Doubt::AnotherOffset => 205,
        Doubt::AnotherTime => 206,
        Doubt::AnotherYear => 207,
    }
}

// No moment, for a reason of this number, by bytes from one place up to another.
fn without_moment(reason: u32, start: usize, end: usize) -> LineDate
    ensures { result ≡ without_moment reason start end }
{
    LineDate {
        seconds: 0,
        nanoseconds: 0,
        reason,
        start,
        end,
    }
}

/// No date.
pub(crate) fn undated() -> LineDate
    ensures { result ≡ undated }
{
    without_moment(100, 0, 0)
}

// A moment as numbers.
fn moment_placed(start: usize, end: usize, moment: OffsetDateTime) -> LineDate
    ensures { result ≡ placed start end (Ok moment) }
{
    LineDate {
        seconds: moment.unix_timestamp(),
        nanoseconds: moment.nanosecond(),
        reason: 0,
        start,
        end,
    }
}

// A moment that is shown at a target, or that its year there is not written.
#[tactic(auto, unfolding(crate::specs::LineDates::placed))]
fn placed(start: usize, end: usize, target: Target, moment: OffsetDateTime) -> LineDate
    ensures { result ≡ placed start end (shown_or_refused target (Ok moment)) }
{
    match shown_at(target, moment) {
        Some(shown) => moment_placed(start, end, shown),
        None => without_moment(600, start, end),
    }
}

// The first date in doubt at a place of a text, of these sources, which are numbered from here on. The call for the sources after
// the first one is the last thing that a call does.
#[tactic(auto, unfolding(crate::specs::LineDates::first_doubt))]
fn first_doubt(
    dates: &DateSources<'_>,
    sources: &[DateSource<'_>],
    given: &Given,
    text: &[u8],
    place: usize,
    number: usize,
) -> Option<Doubted>
    requires number { number + length sources.now < 2 ^ 64 }
    requires place { place < length (looked_at (search_in dates.now given.now).limit text.now) }
    ensures first { result ≡ first_doubt (search_in dates.now given.now) text.now place number (map grammar_in sources.now) }
    ensures start { IfSome result (λ one. one.start ≤ length text.now) }
    ensures end { IfSome result (λ one. one.end ≤ length text.now) }
{
    let (_, others) = sources.split_first()?;
    match dates.finder.doubt_of(given, text, place, number) {
        Some(one) => Some(one),
        None => first_doubt(dates, others, given, text, place, number + 1),
    }
}

// A date in doubt, in a text that begins at this place of the line.
fn in_doubt(at: usize, doubted: Option<Doubted>) -> LineDate
    requires start { IfSome doubted (λ one. at + one.start < 2 ^ 64) }
    requires end { IfSome doubted (λ one. at + one.end < 2 ^ 64) }
    ensures { result ≡ in_doubt at doubted }
{
    match doubted {
        Some(one) => without_moment(doubt_number(one.doubt), at + one.start, at + one.end),
        None => without_moment(200, 0, 0),
    }
}

/// The date of a line by what is found in a text, which begins at a place of the line.
#[tactic(auto, unfolding(crate::specs::Dates::place_of_date))]
pub(crate) fn dated_by(
    dates: &DateSources<'_>,
    given: &Given,
    at: usize,
    text: &[u8],
    finding: &Option<Finding>,
) -> LineDate
    requires within { IfSome finding.now
        (IsWithin (search_in dates.now given.now).limit text.now (length (setting_in dates.now).sources)) }
    requires room { at + length text.now + 1 < 2 ^ 64 }
    ensures { result ≡ dated_by (search_in dates.now given.now) at text.now finding.now }
{
    match finding {
        Some(Finding::There(date)) => {
            let moment = date.moment.moment();
            placed(at + date.start, at + date.end, dates.target, moment)
        }
        Some(Finding::Doubtful(place)) => {
            let sources = dates.finder.sources();
            let doubted = first_doubt(dates, sources, given, text, *place, 0);
            in_doubt(at, doubted)
        }
        None => undated(),
    }
}

// A date with an escape in it or near behind it.
fn escaped(at: usize, date: &Found) -> LineDate
    requires start { at + date.now.start < 2 ^ 64 }
    requires end { at + date.now.end < 2 ^ 64 }
    ensures { result ≡ escaped at date.now }
{
    without_moment(208, at + date.start, at + date.end)
}

/// The date of a line by what is found in the text of a part, which begins at a place of the line.
pub(crate) fn part_dated(
    dates: &DateSources<'_>,
    given: &Given,
    part: &LinePart<'_>,
    at: usize,
    text: &[u8],
    found: &Option<Finding>,
) -> LineDate
    requires within { IfSome found.now
        (IsWithin (search_in dates.now given.now).limit text.now (length (setting_in dates.now).sources)) }
    requires room { at + length text.now + 1 < 2 ^ 64 }
    ensures { result ≡ part_dated (search_in dates.now given.now) (part_of part.now) at text.now found.now }
{
    if let Some(Finding::There(date)) = found {
        if has_escape(part, text, date) {
            return escaped(at, date);
        }
    }
    dated_by(dates, given, at, text, found)
}

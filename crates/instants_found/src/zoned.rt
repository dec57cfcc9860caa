//! Dates that say no offset, on the clock of a zone.
ghost use Rattle.std.specs.Prelude.{◌≡◌, ◌<◌, ◌≤◌, ◌+◌, ◌*◌, ◌+ℤ◌, ◌<ℤ◌, pos, negsuc, ℕ, List, Some, None, true, false, drop, length, if◌then◌else◌};
ghost use Rattle.instants_prefixes.specs.DateSource.{grammar_in, IsWithin};
ghost use Rattle.instants_prefixes.specs.Reading.{record_at};
ghost use Rattle.instants_edges.specs.Beside.{is_any, word_after};
ghost use Rattle.zones_clock.specs.AllMoments.{moments_of};
ghost use Rattle.zones_clock.specs.Steps as Steps;
ghost use Rattle.zones_clock.specs.Steps.{is_name};
ghost use Rattle.datetime_wall.specs.Wall.{second_nanos};
ghost use Rattle.parsing_values.specs.Moment.{moment_of};
ghost use Rattle.parsing_values.specs.declared.fields.Fields.{Fields};
ghost use Rattle.instants_found.specs.KeptDays.{IsKept};
ghost use Rattle.instants_found.specs.Zoned as Zoned;
ghost use Rattle.instants_found.specs.declared.doubt.Doubt.TheVariants.{AnotherOffset};

use crate::beside::after;
use crate::doubt::Doubt;
use crate::kept_day::KeptDay;
use calendar::UtcOffset;
use calendar_count::march;
use calendar_count::range::UNIX_EPOCH;
use instants_edges::{first_after, is_edge, offset_said, word_after};
use instants_prefixes::{DateSource, Given, Prefix, lacks_offset};
use instants_sources::Named;
use parsing_values::Fields;
use zones_clock::{Moments, Zone};

// The seconds of a day.
pub(crate) const DAY: i64 = 86_400;

/// A date that was read, the offset that is assumed for it, and why it has none, if that is so.
#[derive(Drop)]
pub(crate) struct Settled {
    pub(crate) prefix: Prefix,
    pub(crate) offset: Option<UtcOffset>,
    pub(crate) doubt: Option<Doubt>,
}

// Whether what a source read takes the offset that is given. What was read is asked only where the source may say an offset.
fn takes_offset(source: &DateSource<'_>, bytes: &[u8]) -> bool
    ensures { result ≡ Zoned.takes_offset (record_at (grammar_in source.now) bytes.now) }
{
    if source.is_local() {
        return true;
    }
    let read = source.record(bytes);
    lacks_offset(&read) && read.unix_timestamp_nanos().is_none()
}

/// What a clock shows as the day of fields begins, in seconds since it showed 1970-01-01T00:00:00.
pub(crate) fn first_reading(fields: &Fields) -> i64
    ensures value { (f : Fields) → f.fraction < second_nanos
        → f.year ≡ fields.now.year → f.month ≡ fields.now.month → f.day ≡ fields.now.day
        → Zoned.reading (moment_of f) ≡ result +ℤ pos (f.minute * 60 + f.second) }
    ensures bound { (negsuc 999_999_999_909_999 <ℤ result) × (result <ℤ pos 999_999_999_910_000) }
{
    let year = i32::from(fields.year.number());
    let day = march::count_of_day(year, fields.month, fields.day);
    (i64::from(day) - i64::from(UNIX_EPOCH)) * DAY
}

// What the clock of a date shows, in seconds since it showed 1970-01-01T00:00:00.
fn reading(date: &Named) -> i64
    ensures value { result ≡ Zoned.reading date.now }
    ensures bound { Steps.IsReading result }
{
    date.moment()
        .replace_offset(UtcOffset::UTC)
        .unix_timestamp()
}

// The same date and time at the offset of a day that is kept.
#[inline(always)]
#[tactic(auto, unfolding(parsing_values::specs::Moment::moment_of))]
fn at_kept(date: &Named, kept: &KeptDay) -> Named
    ensures { result ≡ record date.now { offset = kept.now.offset } }
{
    match date.fields() {
        Some(fields) => Named::of_fields(Fields {
            year: fields.year,
            month: fields.month,
            day: fields.day,
            minute: fields.minute,
            offset: kept.minutes,
            second: fields.second,
            fraction: fields.fraction,
        }),
        None => Named::of_moment(date.moment().replace_offset(kept.offset)),
    }
}

/// An offset of a zone's clock, in seconds, as one of the calendar.
pub(crate) fn calendar_offset(ahead: i32) -> UtcOffset
    requires { Steps.IsOffset ahead }
    ensures { result ≡ ahead }
{
    match UtcOffset::from_whole_seconds(ahead) {
        Ok(offset) => offset,
        Err(_) => unreachable!(),
    }
}

// Whether the clock is ahead at a moment by an offset, if one is said.
fn has_offset(zone: &Zone, said: Option<i32>, moment: i64) -> bool
    ensures { result ≡ Zoned.has_offset zone.now said moment }
{
    match said {
        Some(offset) => offset == zone.offset_at(moment),
        None => true,
    }
}

// Whether the clock has the abbreviation at a moment that stands after a date, if it is one of the zone's.
#[inline(always)]
fn has_name(zone: &Zone, line: &[u8], ends: usize, moment: i64) -> bool
    requires { ends ≤ length line.now }
    ensures { result ≡ Zoned.has_name zone.now (word_after line.now ends) moment }
{
    if !zone.can_begin(first_after(line, ends)) {
        return true;
    }
    let word = word_after(line, ends);
    !zone.is_name(word) || zone.name_at(moment) == word
}

// Whether another abbreviation of the zone than the clock has at a moment stands at a place, where a word may begin.
fn has_other_name(zone: &Zone, line: &[u8], place: usize, moment: i64) -> bool
    requires { place ≤ length line.now }
    ensures { result ≡ Zoned.has_other_name zone.now line.now moment place }
{
    is_edge(line, place) && !has_name(zone, line, place, moment)
}

// Whether one stands at a place from one up to another.
#[tactic(auto, using(instants_edges::proofs::Anywhere::any_more, instants_edges::proofs::Anywhere::any_none))]
fn has_other_inside(zone: &Zone, line: &[u8], start: usize, ends: usize, moment: i64) -> bool
    requires { ends ≤ length line.now }
    ensures { result ≡ is_any (Zoned.has_other_name zone.now line.now moment) start ends }
{
    for place in start..ends {
        if has_other_name(zone, line, place, moment) {
            return true;
        }
    }
    false
}

// Whether the line says inside of a date and after it what the clock has at a moment.
fn is_said(zone: &Zone, line: &[u8], start: usize, ends: usize, moment: i64) -> bool
    requires { ends ≤ length line.now }
    ensures { result ≡ Zoned.is_said zone.now line.now start ends moment }
{
    !has_other_inside(zone, line, start, ends, moment)
        && has_name(zone, line, ends, moment)
        && has_offset(zone, offset_said(line, ends), moment)
}

// Whether a space stands after a date, and none of the zone's abbreviations can begin behind it. `false` says nothing.
#[inline(always)]
#[tactic(auto, using(instants_edges::proofs::FirstBytes::word_over_space))]
fn has_no_name(zone: &Zone, line: &[u8], ends: usize) -> bool
    requires { ends ≤ length line.now }
    ensures { result ≡ true → is_name zone.now.letters.items (word_after line.now ends) ≡ false }
{
    ends + 1 < line.len() && line[ends] == b' ' && !zone.can_begin(line[ends + 1])
}

// Whether a date is as most on the clock of a zone: its day is kept, the source reads no offset, and no abbreviation of the zone
// can stand after the date. `false` says nothing.
#[inline(always)]
fn is_usual(
    zone: &Zone,
    source: &DateSource<'_>,
    kept: &KeptDay,
    line: &[u8],
    start: usize,
    prefix: &Prefix,
) -> bool
    requires within { start < length line.now }
    requires ends { start + prefix.now.ends ≤ length line.now }
    requires kept { IsKept (Some zone) kept.now }
    ensures takes { result ≡ true
        → Zoned.takes_offset (record_at (grammar_in source.now) (drop start line.now)) ≡ true }
    ensures is { result ≡ true → Zoned.ahead_by prefix.now kept.now.offset None
        ≡ Zoned.by_moments zone.now line.now start prefix.now
        (moments_of zone.now.first zone.now.steps.items (Zoned.reading prefix.now.moment)) }
{
    let Some(fields) = prefix.moment.fields() else {
        return false;
    };
    // (that a fraction is less than a second is told by its number, which leaves no code)
    let _ = fields.fraction.nanosecond();
    if !kept.has(fields) || !source.is_local() {
        return false;
    }
    has_no_name(zone, line, start + prefix.ends)
}

impl Settled {
    // A date on a clock that is so many seconds ahead of UTC.
    fn ahead_by(prefix: Prefix, ahead: i32, doubt: Option<Doubt>) -> Settled
        requires { Steps.IsOffset ahead }
        ensures { result ≡ Zoned.ahead_by prefix ahead doubt }
    {
        let offset = calendar_offset(ahead);
        let moment = Named::of_moment(prefix.moment.moment().replace_offset(offset));
        Settled {
            prefix: Prefix { moment, ..prefix },
            offset: Some(offset),
            doubt,
        }
    }

    // A date at a moment at which the clock of a zone shows it.
    fn at(zone: &Zone, prefix: Prefix, moment: i64, doubt: Option<Doubt>) -> Settled
        requires { Zoned.ShowsAt zone.now prefix moment }
        ensures { result ≡ Zoned.at_moment prefix moment doubt }
    {
        Settled::ahead_by(prefix, zone.offset_at(moment), doubt)
    }

    // A date at the only moment at which the clock of a zone shows it.
    fn at_only(zone: &Zone, line: &[u8], ends: usize, prefix: Prefix, moment: i64) -> Settled
        requires ends { ends ≤ length line.now }
        requires shown { Zoned.ShowsAt zone.now prefix moment }
        ensures { result ≡ Zoned.at_moment prefix moment
            (if Zoned.has_name zone.now (word_after line.now ends) moment then None else Some AnotherOffset) }
    {
        let doubt = if has_name(zone, line, ends, moment) {
            None
        } else {
            Some(Doubt::AnotherOffset)
        };
        Settled::at(zone, prefix, moment, doubt)
    }

    // A date at no moment.
    fn nowhere(prefix: Prefix, doubt: Doubt) -> Settled
        ensures { result ≡ Zoned.nowhere prefix doubt }
    {
        Settled {
            prefix,
            offset: None,
            doubt: Some(doubt),
        }
    }

    // Of two moments at which the clock shows a date the one of which the line says what it has there.
    #[cold]
    #[inline(never)]
    fn chosen(
        zone: &Zone,
        line: &[u8],
        start: usize,
        prefix: Prefix,
        first: i64,
        second: i64,
    ) -> Settled
        requires ends { start + prefix.ends ≤ length line.now }
        requires first { Zoned.ShowsAt zone.now prefix first }
        requires second { Zoned.ShowsAt zone.now prefix second }
        ensures { result ≡ Zoned.chosen prefix first second
            (Zoned.is_said zone.now line.now start (start + prefix.ends) first)
            (Zoned.is_said zone.now line.now start (start + prefix.ends) second) }
    {
        let ends = start + prefix.ends;
        let (is_first, is_second) = (
            is_said(zone, line, start, ends, first),
            is_said(zone, line, start, ends, second),
        );
        match (is_first, is_second) {
            (true, false) => Settled::at(zone, prefix, first, None),
            (false, true) => Settled::at(zone, prefix, second, None),
            (true, true) => Settled::nowhere(prefix, Doubt::Repeated),
            (false, false) => Settled::nowhere(prefix, Doubt::AnotherOffset),
        }
    }

    // A date that takes an offset, on the clock of a zone.
    fn on_clock(zone: &Zone, line: &[u8], start: usize, prefix: Prefix, shown: i64) -> Settled
        requires ends { start + prefix.ends ≤ length line.now }
        requires shown { shown ≡ Zoned.reading prefix.moment }
        requires bound { Steps.IsReading shown }
        ensures { result ≡ Zoned.by_moments zone.now line.now start prefix
            (moments_of zone.now.first zone.now.steps.items (Zoned.reading prefix.moment)) }
    {
        match zone.moments(shown) {
            Moments::One(moment) => {
                let ends = start + prefix.ends;
                Settled::at_only(zone, line, ends, prefix, moment)
            }
            Moments::Repeated(first, second) => {
                Settled::chosen(zone, line, start, prefix, first, second)
            }
            Moments::Skipped => Settled::nowhere(prefix, Doubt::Skipped),
            Moments::Several(_, _, _) => Settled::nowhere(prefix, Doubt::Repeated),
        }
    }

    // A date on the clock of a zone, where it takes an offset: then its day is kept.
    #[inline(never)]
    fn on_zone(
        zone: &Zone,
        source: &DateSource<'_>,
        offset: Option<UtcOffset>,
        kept: &mut KeptDay,
        line: &[u8],
        start: usize,
        prefix: Prefix,
    ) -> Settled
        requires within { start < length line.now }
        requires ends { start + prefix.ends ≤ length line.now }
        requires kept { IsKept (Some zone) kept.old }
        ensures kept { IsKept (Some zone.entry) kept.new }
        ensures is { result ≡ Zoned.settled_by (Some zone.entry) offset
            (Zoned.takes_offset (record_at (grammar_in source.now) (drop start line.now))) line.now start prefix }
    {
        if takes_offset(source, after(line, start)) {
            kept.keep(zone, &prefix.moment);
            let shown = reading(&prefix.moment);
            return Settled::on_clock(zone, line, start, prefix, shown);
        }
        Settled {
            prefix,
            offset,
            doubt: None,
        }
    }

    /// The date of a prefix that a source reads at a place of a line, with the offset that is assumed for it. On a zone's clock its
    /// day is kept for the dates after it.
    #[inline(always)]
    pub(crate) fn of(
        source: &DateSource<'_>,
        given: &Given,
        kept: &mut KeptDay,
        line: &[u8],
        start: usize,
        prefix: Prefix,
    ) -> Settled
        requires within { start < length line.now }
        requires ends { start + prefix.ends ≤ length line.now }
        requires kept { IsKept given.now.zone kept.old }
        ensures kept { IsKept given.now.zone kept.new }
        ensures is { result ≡ Zoned.settled given.now
            (record_at (grammar_in source.now) (drop start line.now)) line.now start prefix }
        ensures within { (b : List ℕ) → IsWithin b prefix → IsWithin b result.prefix }
    {
        let mut prefix = prefix;
        let mut offset = given.offset;
        if let Some(zone) = given.zone {
            if !is_usual(zone, source, kept, line, start, &prefix) {
                return Settled::on_zone(zone, source, given.offset, kept, line, start, prefix);
            }
            prefix.moment = at_kept(&prefix.moment, kept);
            offset = Some(kept.offset);
        }
        Settled {
            prefix,
            offset,
            doubt: None,
        }
    }

    /// The same, where no day is kept.
    pub(crate) fn alone(
        source: &DateSource<'_>,
        given: &Given,
        line: &[u8],
        start: usize,
        prefix: Prefix,
    ) -> Settled
        requires within { start < length line.now }
        requires ends { start + prefix.ends ≤ length line.now }
        ensures is { result ≡ Zoned.settled given.now
            (record_at (grammar_in source.now) (drop start line.now)) line.now start prefix }
        ensures within { (b : List ℕ) → IsWithin b prefix → IsWithin b result.prefix }
    {
        let mut kept = KeptDay::none();
        Settled::of(source, given, &mut kept, line, start, prefix)
    }
}

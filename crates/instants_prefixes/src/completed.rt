//! The moments of records, with what is given in place of what was not read.
ghost use Rattle.std.specs.Prelude.{◌≡◌};
ghost use Rattle.calendar_count.specs.Range.{IsYear};
ghost use Rattle.instants_prefixes.specs.Given as Gift;

use crate::given::{Given, Years};
use calendar::UtcOffset;
use calendar_count::range::GREATEST_YEAR;
use datetime_types::{OffsetDateTime, WallClock};
use parsing_record::Parsed;

const MINUTES_OF_DAY: u16 = 1440;

/// Whether no hour of an offset was read.
pub fn lacks_offset(parsed: &Parsed) -> bool
    ensures { result ≡ Gift.lacks_offset parsed.now }
{
    parsed.offset_hour().is_none()
}

/// Whether no year was read: its last two digits alone are none.
pub fn lacks_year(parsed: &Parsed) -> bool
    ensures { result ≡ Gift.lacks_year parsed.now }
{
    let has_none = parsed.year().is_none() && parsed.year_century().is_none();
    let has_none_of_weeks = parsed.iso_year().is_none() && parsed.iso_year_century().is_none();
    has_none && has_none_of_weeks
}

/// Whether no part of a time of day was read.
pub fn lacks_time(parsed: &Parsed) -> bool
    ensures { result ≡ Gift.lacks_time parsed.now }
{
    let has_no_hour = parsed.hour_24().is_none()
        && parsed.hour_12().is_none()
        && parsed.hour_12_is_pm().is_none();
    let has_no_minute = parsed.minute().is_none()
        && parsed.second().is_none()
        && parsed.subsecond().is_none();
    has_no_hour && has_no_minute
}

// A time of day where none was read; one that no day has is none.
fn give_time(parsed: &mut Parsed, time: Option<u16>)
    ensures { parsed.new ≡ Gift.with_time time parsed.old }
{
    let Some(minutes) = time else {
        return;
    };
    if lacks_time(parsed) && minutes < MINUTES_OF_DAY {
        parsed.set_hour_24((minutes / 60) as u8);
        parsed.set_minute((minutes % 60) as u8);
    }
}

// Of the years with these last two digits the one that is nearest to a year, the earlier of two equally near ones.
fn year_near(year: i32, last_two: u8) -> i32
    requires { IsYear year }
    ensures { result ≡ Gift.year_near year last_two }
{
    let first = year - 50;
    first + (i32::from(last_two) - first).rem_euclid(100)
}

// A year where none was read, or the one nearest to it that has the last two digits which were read; one that the calendar
// does not have is none.
fn give_year(parsed: &mut Parsed, year: Option<i32>)
    ensures { parsed.new ≡ Gift.with_year year parsed.old }
{
    let Some(year) = year else {
        return;
    };
    let is_year = year >= -GREATEST_YEAR && year <= GREATEST_YEAR;
    if !is_year || !lacks_year(parsed) {
        return;
    }
    let _ = match (parsed.year_last_two(), parsed.iso_year_last_two()) {
        (None, None) => parsed.set_year(year),
        (Some(last_two), None) => parsed.set_year(year_near(year, last_two)),
        (None, Some(last_two)) => parsed.set_iso_year(year_near(year, last_two)),
        (Some(_), Some(_)) => None,
    };
}

// An offset where no hour of one was read.
fn give_offset(parsed: &mut Parsed, offset: Option<UtcOffset>)
    ensures { parsed.new ≡ Gift.with_offset offset parsed.old }
{
    let Some(offset) = offset else {
        return;
    };
    if lacks_offset(parsed) {
        parsed.set_offset_hour(offset.whole_hours());
        parsed.set_offset_minute_signed(offset.minutes_past_hour());
    }
}

// The moment of a record, with a year given or none.
#[inline(never)]
#[tactic(auto, using(crate::proofs::Completing::answered))]
fn moment_in(given: &Given, year: Option<i32>, read: &Parsed) -> Option<OffsetDateTime>
    ensures { result ≡ Gift.moment_in given.now year read.now }
{
    let mut parsed = *read;
    give_time(&mut parsed, given.time);
    give_year(&mut parsed, year);
    give_offset(&mut parsed, given.offset);
    parsed.offset_date_time().ok()
}

// How far two moments lie from one another, in nanoseconds.
fn distance(one: OffsetDateTime, other: OffsetDateTime) -> u128
    ensures { result ≡ Gift.distance one other }
{
    one.unix_timestamp_nanos()
        .abs_diff(other.unix_timestamp_nanos())
}

// Of two moments the one that is nearer to another, the first of equals.
fn nearer(
    above: OffsetDateTime,
    one: Option<OffsetDateTime>,
    other: Option<OffsetDateTime>,
) -> Option<OffsetDateTime>
    ensures { result ≡ Gift.nearer above one other }
{
    let (Some(first), Some(second)) = (one, other) else {
        return one.or(other);
    };
    if distance(above, first) <= distance(above, second) {
        Some(first)
    } else {
        Some(second)
    }
}

// Of the three years round that of a moment the one that brings the moment of a record nearest to it.
fn moment_near(given: &Given, above: OffsetDateTime, read: &Parsed) -> Option<OffsetDateTime>
    ensures { result ≡ Gift.moment_of given.now (Gift.Near above) read.now }
{
    let year = above.year();
    let before = moment_in(given, Some(year - 1), read);
    let same = moment_in(given, Some(year), read);
    let after = moment_in(given, Some(year + 1), read);
    nearer(above, nearer(above, before, same), after)
}

/// The moment of a record, with what is given in place of what was not read.
#[tactic(auto, unfolding(crate::specs::Given::moment_of))]
pub(crate) fn moment_of(given: &Given, read: &Parsed) -> Option<OffsetDateTime>
    ensures { result ≡ Gift.moment_of given.now given.now.years read.now }
{
    match given.years {
        Years::Unknown => moment_in(given, None, read),
        Years::In(year) => moment_in(given, Some(year), read),
        Years::Near(above) => moment_near(given, above, read),
    }
}

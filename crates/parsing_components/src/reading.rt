//! What each component reads.
ghost use Rattle.std.specs.Prelude.{◌≡◌, ◌≤◌, false, None, IfNone, IfSome};
ghost use Rattle.std.specs.Option.{MatchOption, IsSomeAnd};
ghost use Rattle.parsing_combinator.specs.FaultOf.{Gives, reading_fault};
ghost use Rattle.parsing_combinator.specs.Pieces.{cut_view};
ghost use Rattle.parsing_components.specs.Put.{Reads, passed, putting};
ghost use Rattle.parsing_components.specs.Record.{IsInRange, IsWithin};
ghost use Rattle.parsing_components.specs.Component as Components;
ghost use Rattle.parsing_components.specs.Component.{IsTwoDigits, is_month_or_year, is_two_digits, is_usual, said_by};

use crate::dates::{month_number, weekday_number};
use crate::fields::Record;
use crate::offsets::{hour_of_offset, ignored, ignored_characters, unix};
use crate::ranged::{full_century, full_year, subsecond, three, two};
use crate::said::Read;
use description_items::Component;
use description_items::modifier::{Padding, TrailingInput};
use parsing_combinator::{
    ParseFromDescription, long_month, long_weekday, period, short_month, short_weekday,
};

// What is said where a value was read.
#[inline(always)]
fn say<T: Copy, F: FnOnce(T) -> Read>(
    found: Option<(T, &[u8])>,
    as_read: F,
) -> Option<(Read, &[u8])>
    requires { F.IsAlwaysCallable as_read }
    ensures { MatchOption found.entry (result ≡ None)
        (λ x. IsSomeAnd result (λ y. F.post as_read x.0 y.0 × (y.1 ≡ x.1))) }
{
    let (value, rest) = found?;
    Some((as_read(value), rest))
}

// What the parts of a time and of an offset, timestamps and passed bytes say that are not usual.
#[tactic(auto, unfolding(crate::specs::Component::time_piece, crate::specs::Component::offset_piece))]
#[inline(always)]
fn time_piece(component: Component, bytes: &[u8]) -> Option<(Read, &[u8])>
    ensures reads { is_usual component ≡ false
        → cut_view result ≡ Components.time_piece component bytes.now }
    ensures range { IfSome result (λ x. IsInRange x.0) }
{
    match component {
        Component::Period(m) => say(
            period(m.is_uppercase, m.case_sensitive, bytes),
            Read::Afternoon,
        ),
        Component::Subsecond(m) => say(subsecond(m.digits, bytes), Read::Subsecond),
        Component::OffsetHour(m) => hour_of_offset(m.padding, m.sign_is_mandatory, bytes),
        Component::UnixTimestampSecond(m) => unix(m.sign_is_mandatory, 14, 1_000_000_000, bytes),
        Component::UnixTimestampMillisecond(m) => unix(m.sign_is_mandatory, 17, 1_000_000, bytes),
        Component::UnixTimestampMicrosecond(m) => unix(m.sign_is_mandatory, 20, 1_000, bytes),
        Component::UnixTimestampNanosecond(m) => unix(m.sign_is_mandatory, 23, 1, bytes),
        Component::Ignore(m) => ignored(m.count, bytes).map(|rest| (Read::Nothing, rest)),
        _ => None,
    }
}

// What centuries and other years say, of which most descriptions have none.
#[tactic(auto, unfolding(crate::specs::Component::year_piece))]
#[inline(always)]
fn year_piece(component: Component, bytes: &[u8]) -> Option<(Read, &[u8])>
    ensures reads { is_usual component ≡ false
        → cut_view result ≡ Components.year_piece component bytes.now }
    ensures range { IfSome result (λ x. IsInRange x.0) }
{
    match component {
        Component::CalendarYearFullExtendedRange(m) => {
            full_year(false, m.padding, m.sign_is_mandatory, true, bytes)
        }
        Component::CalendarYearCenturyExtendedRange(m) => {
            full_century(false, m.padding, m.sign_is_mandatory, true, bytes)
        }
        Component::CalendarYearCenturyStandardRange(m) => {
            full_century(false, m.padding, m.sign_is_mandatory, false, bytes)
        }
        Component::IsoYearFullExtendedRange(m) => {
            full_year(true, m.padding, m.sign_is_mandatory, true, bytes)
        }
        Component::IsoYearFullStandardRange(m) => {
            full_year(true, m.padding, m.sign_is_mandatory, false, bytes)
        }
        Component::IsoYearCenturyExtendedRange(m) => {
            full_century(true, m.padding, m.sign_is_mandatory, true, bytes)
        }
        Component::IsoYearCenturyStandardRange(m) => {
            full_century(true, m.padding, m.sign_is_mandatory, false, bytes)
        }
        other => time_piece(other, bytes),
    }
}

// What a component says that is not usual. A call of its own: what each of its ways keeps is cleared at its start.
#[tactic(auto, unfolding(crate::specs::Component::date_piece))]
#[inline(never)]
fn other_piece(component: Component, bytes: &[u8]) -> Option<(Read, &[u8])>
    ensures reads { is_usual component ≡ false
        → cut_view result ≡ Components.date_piece component bytes.now }
    ensures range { IfSome result (λ x. IsInRange x.0) }
{
    match component {
        Component::MonthShort(m) => say(short_month(m.case_sensitive, bytes), Read::Month),
        Component::MonthLong(m) => say(long_month(m.case_sensitive, bytes), Read::Month),
        Component::Ordinal(m) => say(three(m.padding, 1, 366, bytes), Read::Ordinal),
        Component::WeekdayShort(m) => say(short_weekday(m.case_sensitive, bytes), Read::Weekday),
        Component::WeekdayLong(m) => say(long_weekday(m.case_sensitive, bytes), Read::Weekday),
        Component::WeekdaySunday(m) => say(
            weekday_number(true, m.one_indexed, bytes),
            Read::Weekday,
        ),
        Component::WeekdayMonday(m) => say(
            weekday_number(false, m.one_indexed, bytes),
            Read::Weekday,
        ),
        other => year_piece(other, bytes),
    }
}

// The padding and the range of a number of two digits, if the component is one and no month.
#[inline(always)]
#[tactic(auto, unfolding(crate::specs::Component::date_piece, crate::specs::Component::year_piece, crate::specs::Component::time_piece, crate::specs::Component::offset_piece))]
fn range_of(component: Component) -> Option<(Padding, u8, u8)>
    ensures some { IfSome result (λ x. IsTwoDigits component x.0 x.1 x.2) }
    ensures none { IfNone result (is_two_digits component ≡ false) }
{
    match component {
        Component::Day(m) => Some((m.padding, 1, 31)),
        Component::WeekNumberIso(m) => Some((m.padding, 1, 53)),
        Component::WeekNumberSunday(m) => Some((m.padding, 0, 53)),
        Component::WeekNumberMonday(m) => Some((m.padding, 0, 53)),
        Component::CalendarYearLastTwo(m) => Some((m.padding, 0, 99)),
        Component::IsoYearLastTwo(m) => Some((m.padding, 0, 99)),
        Component::Hour12(m) => Some((m.padding, 1, 12)),
        Component::Hour24(m) => Some((m.padding, 0, 23)),
        Component::Minute(m) => Some((m.padding, 0, 59)),
        Component::Second(m) => Some((m.padding, 0, 60)),
        Component::OffsetMinute(m) => Some((m.padding, 0, 59)),
        Component::OffsetSecond(m) => Some((m.padding, 0, 59)),
        _ => None,
    }
}

// What such a component says by its number.
#[inline(always)]
fn said_by(component: Component, number: u8) -> Read
    ensures { result ≡ said_by component number }
{
    match component {
        Component::Day(_) => Read::Day(number),
        Component::WeekNumberIso(_) => Read::IsoWeek(number),
        Component::WeekNumberSunday(_) => Read::SundayWeek(number),
        Component::WeekNumberMonday(_) => Read::MondayWeek(number),
        Component::CalendarYearLastTwo(_) => Read::YearLastTwo(number),
        Component::IsoYearLastTwo(_) => Read::IsoYearLastTwo(number),
        Component::Hour12(_) => Read::Hour12(number),
        Component::Hour24(_) => Read::Hour24(number),
        Component::Minute(_) => Read::Minute(number),
        Component::Second(_) => Read::Second(number),
        Component::OffsetMinute(_) => Read::OffsetMinute(number),
        _ => Read::OffsetSecond(number),
    }
}

// What a number of two digits says, or a component that is not usual.
#[tactic(auto, using(crate::proofs::Entries::said_between))]
#[inline(always)]
fn number_or_other(component: Component, bytes: &[u8]) -> Option<(Read, &[u8])>
    ensures reads { is_month_or_year component ≡ false
        → cut_view result ≡ Components.date_piece component bytes.now }
    ensures range { IfSome result (λ x. IsInRange x.0) }
{
    let Some((padding, low, high)) = range_of(component) else {
        return other_piece(component, bytes);
    };
    let Some((number, rest)) = two(padding, low, high, bytes) else {
        return None;
    };
    Some((said_by(component, number), rest))
}

/// What a component that is of a newer form, and no end, says at the start of the bytes, and the bytes after it: the longest prefix
/// of its shape, if its number is in range.
#[tactic(auto, unfolding(crate::specs::Component::date_piece, crate::specs::Component::year_piece))]
#[inline(always)]
pub fn read(component: Component, bytes: &[u8]) -> Option<(Read, &[u8])>
    ensures reads { cut_view result ≡ Components.date_piece component bytes.now }
    ensures range { IfSome result (λ x. IsInRange x.0) }
{
    match component {
        Component::MonthNumerical(m) => say(month_number(m.padding, bytes), Read::Month),
        Component::CalendarYearFullStandardRange(m) => {
            full_year(false, m.padding, m.sign_is_mandatory, false, bytes)
        }
        other => number_or_other(other, bytes),
    }
}

/// How many digits below a second the timestamp has that a component is, where it needs no sign.
pub fn unix_digits(component: &Component) -> Option<usize>
    ensures digits { result ≡ Components.unix_digits component.now }
    ensures few { IfSome result (λ digits. digits ≤ 9) }
{
    match component {
        Component::UnixTimestampSecond(m) if !m.sign_is_mandatory => Some(0),
        Component::UnixTimestampMillisecond(m) if !m.sign_is_mandatory => Some(3),
        Component::UnixTimestampMicrosecond(m) if !m.sign_is_mandatory => Some(6),
        Component::UnixTimestampNanosecond(m) if !m.sign_is_mandatory => Some(9),
        _ => None,
    }
}

// The name of a part of a time in a fault, else that of years.
#[tactic(auto, unfolding(crate::specs::Component::time_name))]
fn time_name(component: Component) -> &'static str
    ensures { result.now ≡ Components.time_name component }
{
    match component {
        Component::Hour12(_) | Component::Hour24(_) => "hour",
        Component::Minute(_) => "minute",
        Component::Period(_) => "period",
        Component::Second(_) => "second",
        Component::Subsecond(_) => "subsecond",
        Component::OffsetHour(_) => "offset hour",
        Component::OffsetMinute(_) => "offset minute",
        Component::OffsetSecond(_) => "offset second",
        Component::Ignore(_) => "ignore",
        Component::UnixTimestampSecond(_)
        | Component::UnixTimestampMillisecond(_)
        | Component::UnixTimestampMicrosecond(_)
        | Component::UnixTimestampNanosecond(_) => "unix_timestamp",
        _ => "year",
    }
}

// The name of a component in a fault.
#[cold]
#[tactic(auto, unfolding(crate::specs::Component::component_name))]
fn component_name(component: Component) -> &'static str
    ensures { result.now ≡ Components.component_name component }
{
    match component {
        Component::MonthShort(_) | Component::MonthLong(_) | Component::MonthNumerical(_) =>
            "month",
        Component::Day(_) => "day",
        Component::Ordinal(_) => "ordinal",
        Component::WeekdayShort(_)
        | Component::WeekdayLong(_)
        | Component::WeekdaySunday(_)
        | Component::WeekdayMonday(_) => "weekday",
        Component::WeekNumberIso(_)
        | Component::WeekNumberSunday(_)
        | Component::WeekNumberMonday(_) => "week number",
        other => time_name(other),
    }
}

// The end of the bytes, or all that remains.
#[inline(always)]
fn at_end(trailing: TrailingInput, bytes: &[u8]) -> Result<&[u8], ParseFromDescription>
    ensures { Gives passed reading_fault result (Components.at_end trailing bytes.now) }
{
    match trailing {
        TrailingInput::Discard => Ok(&[]),
        TrailingInput::Prohibit if bytes.is_empty() => Ok(bytes),
        TrailingInput::Prohibit => Err(ParseFromDescription::UnexpectedTrailingCharacters),
    }
}

// What a component of a newer form reads.
#[tactic(auto, unfolding(crate::specs::Component::reads_modern))]
#[inline(always)]
fn read_modern<'a>(
    component: Component,
    bytes: &'a [u8],
    fields: &mut Record,
) -> Result<&'a [u8], ParseFromDescription>
    requires within { IsWithin fields.old }
    ensures reads { Reads result fields.old fields.new
        (putting (Components.reads_modern component) fields.old bytes.now) }
    ensures within { IsWithin fields.new }
{
    if let Component::End(end) = component {
        return at_end(end.trailing_input, bytes);
    }
    match read(component, bytes) {
        Some((said, rest)) => {
            fields.put(said);
            Ok(rest)
        }
        None => Err(ParseFromDescription::InvalidComponent(component_name(component))),
    }
}

/// Sets what the component says at the start of the bytes, and returns the bytes after it.
#[tactic(auto, unfolding(crate::specs::Component::reads_component))]
#[inline(always)]
pub fn read_component<'a>(
    component: Component,
    bytes: &'a [u8],
    fields: &mut Record,
) -> Result<&'a [u8], ParseFromDescription>
    requires within { IsWithin fields.old }
    ensures reads { Reads result fields.old fields.new
        (putting (Components.reads_component component) fields.old bytes.now) }
    ensures within { IsWithin fields.new }
{
    let newer = match component {
        Component::Month(_)
        | Component::Weekday(_)
        | Component::WeekNumber(_)
        | Component::Year(_)
        | Component::Hour(_)
        | Component::UnixTimestamp(_) => component.modern(),
        newer => newer,
    };
    read_modern(newer, bytes, fields)
}

/// Sets what the component says as version 3 reads: no character may go on after ignored bytes.
#[tactic(auto, unfolding(crate::specs::Component::reads_component_v3))]
#[inline(always)]
pub fn read_component_v3<'a>(
    component: Component,
    bytes: &'a [u8],
    fields: &mut Record,
) -> Result<&'a [u8], ParseFromDescription>
    requires within { IsWithin fields.old }
    ensures reads { Reads result fields.old fields.new
        (putting (Components.reads_component_v3 component) fields.old bytes.now) }
    ensures within { IsWithin fields.new }
{
    match component {
        Component::Ignore(ignore) => ignored_characters(ignore.count, bytes).ok_or(
            ParseFromDescription::InvalidComponent("ignore"),
        ),
        other => read_component(other, bytes, fields),
    }
}

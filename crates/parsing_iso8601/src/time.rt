//! The time of day of a text.
ghost use Rattle.std.specs.Prelude.{◌≡◌, ◌≤◌, ◌<◌, IfSome};
ghost use Rattle.parsing_combinator.specs.Pieces.{cut_view};
ghost use Rattle.parsing_iso8601.specs.Ranges.{IsTimeInRange};
ghost use Rattle.parsing_iso8601.specs.ReadView.{digits_view, AreDigits};
ghost use Rattle.parsing_iso8601.specs.Times as Times;

use crate::fraction::{part_of, rounded_part_of};
use crate::kind::{Kind, kind_of_time};
use crate::number::number;
use crate::written::WrittenTime;
use parsing_combinator::byte;

const NANOSECONDS_IN_SECOND: u64 = 1_000_000_000;

const NANOSECONDS_IN_MINUTE: u64 = 60_000_000_000;

const NANOSECONDS_IN_HOUR: u64 = 3_600_000_000_000;

// The time so many nanoseconds after a minute.
#[tactic(auto, unfolding(crate::specs::Times::after_minute))]
#[inline(always)]
fn after_minute(hour: u8, minute: u8, nanos: u64) -> WrittenTime
    requires hour { hour ≤ 23 }
    requires minute { minute ≤ 59 }
    requires nanos { nanos < 60_000_000_000 }
    ensures value { result ≡ Times.after_minute hour minute nanos }
    ensures range { IsTimeInRange result }
{
    WrittenTime {
        hour,
        minute,
        second: (nanos / NANOSECONDS_IN_SECOND) as u8,
        subsecond: (nanos % NANOSECONDS_IN_SECOND) as u32,
    }
}

// The nanoseconds of a fraction of a second, or of none.
#[inline(always)]
fn subsecond(run: Option<&[u8]>) -> u64
    requires { AreDigits run }
    ensures value { result ≡ Times.subsecond_of (digits_view run.entry) }
    ensures bound { result ≤ 1_000_000_000 }
{
    match run {
        None => 0,
        Some(digits) => rounded_part_of(NANOSECONDS_IN_SECOND, digits),
    }
}

// The time to a second that was read.
#[tactic(auto, unfolding(crate::specs::Times::to_second))]
#[inline(always)]
fn to_second<'a>(
    hour: u8,
    minute: u8,
    second: (u8, Option<&[u8]>),
    bytes: &'a [u8],
) -> Option<(WrittenTime, &'a [u8])>
    requires hour { hour ≤ 23 }
    requires minute { minute ≤ 59 }
    requires digits { AreDigits second.1 }
    ensures cut { cut_view result
        ≡ Times.to_second hour minute (second.entry.0, digits_view second.entry.1) bytes.now }
    ensures range { IfSome result (λ x. IsTimeInRange x.0) }
{
    let subsecond = subsecond(second.1);
    if second.0 > 60 || subsecond >= NANOSECONDS_IN_SECOND {
        return None;
    }
    let time = WrittenTime {
        hour,
        minute,
        second: second.0,
        subsecond: subsecond as u32,
    };
    Some((time, bytes))
}

// What follows a whole minute.
#[tactic(auto, unfolding(crate::specs::Times::seconds, crate::specs::Times::basic_seconds, crate::specs::Times::extended_seconds, crate::specs::Times::due_second, crate::specs::Times::after_minute))]
#[inline(always)]
fn seconds(kind: Kind, hour: u8, minute: u8, bytes: &[u8]) -> Option<(WrittenTime, &[u8])>
    requires hour { hour ≤ 23 }
    requires minute { minute ≤ 59 }
    ensures cut { cut_view result ≡ Times.seconds kind hour minute bytes.now }
    ensures range { IfSome result (λ x. IsTimeInRange x.0) }
{
    let read = match kind {
        Kind::Unknown | Kind::Basic => number(bytes),
        Kind::Extended => match byte(b':', bytes) {
            Some(rest) => Some(number(rest)?),
            None => None,
        },
    };
    match read {
        Some((second, rest)) => to_second(hour, minute, second, rest),
        None => Some((after_minute(hour, minute, 0), bytes)),
    }
}

// Minutes and what follows them, where they are there.
#[tactic(auto, unfolding(crate::specs::Times::minutes, crate::specs::Times::from_minute, crate::specs::Times::after_minute))]
#[inline(always)]
fn minutes(kind: Kind, hour: u8, bytes: &[u8]) -> Option<((WrittenTime, Kind), &[u8])>
    requires hour { hour ≤ 23 }
    ensures cut { cut_view result ≡ Times.minutes kind hour bytes.now }
    ensures range { IfSome result (λ x. IsTimeInRange x.0.0) }
{
    let Some(((minute, fraction), rest)) = number(bytes) else {
        return match kind {
            Kind::Unknown | Kind::Basic => Some(((after_minute(hour, 0, 0), kind), bytes)),
            Kind::Extended => None,
        };
    };
    if minute > 59 {
        return None;
    }
    match fraction {
        Some(run) => {
            let time = after_minute(hour, minute, part_of(NANOSECONDS_IN_MINUTE, run));
            Some(((time, kind.settled()), rest))
        }
        None => {
            let (time, rest) = seconds(kind, hour, minute, rest)?;
            Some(((time, kind.settled()), rest))
        }
    }
}

/// The time of day at the start of the bytes, and the kind that it hands on: ISO 8601-1:2019, section 5.3. Its `T`
/// may be missing where no date stands before it. There is no hour 24.
#[tactic(auto, unfolding(crate::specs::Times::time, crate::specs::Times::designator, crate::specs::Times::from_hour, crate::specs::Times::after_hour, crate::specs::Times::after_minute))]
#[inline(always)]
pub fn time(kind: Kind, after_date: bool, bytes: &[u8]) -> Option<((WrittenTime, Kind), &[u8])>
    ensures cut { cut_view result ≡ Times.time kind after_date bytes.now }
    ensures range { IfSome result (λ x. IsTimeInRange x.0.0) }
{
    let rest = match byte(b'T', bytes) {
        Some(rest) => rest,
        None if after_date => return None,
        None => bytes,
    };
    let ((hour, fraction), rest) = number(rest)?;
    if hour > 23 {
        return None;
    }
    match fraction {
        Some(run) => {
            let nanos = part_of(NANOSECONDS_IN_HOUR, run);
            let minute = (nanos / NANOSECONDS_IN_MINUTE) as u8;
            let time = after_minute(hour, minute, nanos % NANOSECONDS_IN_MINUTE);
            Some(((time, kind), rest))
        }
        None => {
            let (kind, rest) = kind_of_time(kind, rest)?;
            minutes(kind, hour, rest)
        }
    }
}

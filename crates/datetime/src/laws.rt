//! Laws that follow from the contracts, each the contract of a function here.
ghost use Rattle.std.specs.Prelude.{◌≡◌, ◌↔◌, ◌∷◌, [], ℕ, ℤ, pos, ◌+ℤ◌, ◌*ℤ◌, Some, IsTrue, IsSome, IfSome, IfOk, ◌<◌};
ghost use Rattle.std.specs.Ordering.{int_cmp};
ghost use Rattle.calendar.specs.Duration.{milli_nanos};
ghost use Rattle.datetime_wall.specs.Wall.{first_wall_clock, last_wall_clock, IsWallClock, instant, shown_at, cut_to, day_nanos};
ghost use Rattle.datetime_calls.specs.Replies.{replies};
ghost use Rattle.datetime_types.specs.Texts.{seconds_text};
ghost use Rattle.datetime.specs.Laws.{IsUnit, IsCut, TimesShowParts, ShowsDay, IsTidy};

use crate::{
    MomentCall, MomentReply, OffsetDateTime, PlainDateTime, Timestamp, UtcDateTime, run_calls,
};
use calendar::{SignedDuration, UtcOffset};
use std::alloc::{AllocError, Global};
use std::cmp::Ordering;

/// The first and the last wall clock of the calendar.
#[tactic(auto, unfolding(datetime_wall::specs::Wall::wall_clock))]
pub fn ends_of_wall_clocks() -> [PlainDateTime; 2]
    ensures { result ≡ first_wall_clock ∷ last_wall_clock ∷ [] }
{
    [PlainDateTime::MIN, PlainDateTime::MAX]
}

/// The first date and time in UTC, the beginning of 1970, and the last one.
#[tactic(auto, unfolding(datetime_wall::specs::Wall::wall_clock))]
pub fn constants_of_utc() -> [UtcDateTime; 3]
    ensures { result ≡ first_wall_clock ∷ pos 0 ∷ last_wall_clock ∷ [] }
{
    [UtcDateTime::MIN, UtcDateTime::UNIX_EPOCH, UtcDateTime::MAX]
}

/// The first instant, the beginning of 1970, and the last one.
#[tactic(auto, unfolding(datetime_types::specs::Unix::unix_nanos))]
pub fn constants_of_timestamps() -> [Timestamp; 3]
    ensures { result ≡ first_wall_clock ∷ pos 0 ∷ last_wall_clock ∷ [] }
{
    [Timestamp::MIN, Timestamp::UNIX_EPOCH, Timestamp::MAX]
}

/// The beginning of 1970, shown at the offset zero.
#[tactic(auto, unfolding(datetime_wall::specs::Wall::wall_clock))]
pub fn epoch_at_offset_zero() -> OffsetDateTime
    ensures { result ≡ record { wall = pos 0; offset = pos 0 } }
{
    OffsetDateTime::UNIX_EPOCH
}

/// Moments are equal exactly where they are one instant, whatever their offsets.
pub fn equal_as_instants(one: OffsetDateTime, other: OffsetDateTime) -> bool
    ensures { IsTrue result ↔ (instant one ≡ instant other) }
{
    one == other
}

/// Moments are in the order of their instants.
pub fn order_of_instants(one: OffsetDateTime, other: OffsetDateTime) -> Ordering
    ensures { result ≡ int_cmp (instant one) (instant other) }
{
    one.cmp(&other)
}

/// A moment shown at its own offset is itself, also where the calendar lacks its date in UTC.
pub fn shown_at_own_offset(moment: OffsetDateTime) -> Option<OffsetDateTime>
    ensures { result ≡ Some moment }
{
    moment.checked_to_offset(moment.offset())
}

/// A moment shown at an offset by way of another one is shown as without it.
pub fn shown_by_way_of(
    moment: OffsetDateTime,
    way: UtcOffset,
    offset: UtcOffset,
) -> Option<Option<OffsetDateTime>>
    ensures some { IsSome result ↔ IsSome (shown_at way (instant moment)) }
    ensures value { IfSome result (λ shown. shown ≡ shown_at offset (instant moment)) }
{
    let Some(shown) = moment.checked_to_offset(way) else {
        return None;
    };
    Some(shown.checked_to_offset(offset))
}

/// A timestamp is that of its date and time in UTC.
pub fn timestamp_and_back(timestamp: Timestamp) -> Timestamp
    ensures { result ≡ timestamp }
{
    UtcDateTime::from(timestamp).into()
}

/// A date and time in UTC is that of its timestamp.
pub fn utc_and_back(utc: UtcDateTime) -> UtcDateTime
    ensures { result ≡ utc }
{
    Timestamp::from(utc).into()
}

/// A duration takes back what it added to a wall clock.
pub fn wall_clock_moved_and_back(
    wall: PlainDateTime,
    duration: SignedDuration,
) -> Option<PlainDateTime>
    ensures some { IsSome result ↔ IsWallClock (wall +ℤ duration) }
    ensures value { IfSome result (λ back. back ≡ wall) }
{
    let Some(moved) = wall.checked_add(duration) else {
        return None;
    };
    moved.checked_sub(duration)
}

/// A duration takes back what it added to a date and time in UTC.
pub fn utc_moved_and_back(utc: UtcDateTime, duration: SignedDuration) -> Option<UtcDateTime>
    ensures some { IsSome result ↔ IsWallClock (utc +ℤ duration) }
    ensures value { IfSome result (λ back. back ≡ utc) }
{
    let Some(moved) = utc.checked_add(duration) else {
        return None;
    };
    moved.checked_sub(duration)
}

/// A duration takes back what it added to a timestamp.
pub fn timestamp_moved_and_back(timestamp: Timestamp, duration: SignedDuration) -> Option<Timestamp>
    ensures some { IsSome result ↔ IsWallClock (timestamp +ℤ duration) }
    ensures value { IfSome result (λ back. back ≡ timestamp) }
{
    let Some(moved) = timestamp.checked_add(duration) else {
        return None;
    };
    moved.checked_sub(duration)
}

/// A duration takes back what it added to a moment, whose offset stays.
pub fn moment_moved_and_back(
    moment: OffsetDateTime,
    duration: SignedDuration,
) -> Option<OffsetDateTime>
    ensures some { IsSome result ↔ IsWallClock (moment.wall +ℤ duration) }
    ensures value { IfSome result (λ back. back ≡ moment) }
{
    let Some(moved) = moment.checked_add(duration) else {
        return None;
    };
    moved.checked_sub(duration)
}

/// The difference of two wall clocks leads from one to the other.
pub fn wall_clock_at_difference(from: PlainDateTime, to: PlainDateTime) -> Option<PlainDateTime>
    ensures { result ≡ Some to }
{
    // their ranges come with these calls
    let _ = (from.date(), to.date());
    from.checked_add(to - from)
}

/// The difference of two dates and times in UTC leads from one to the other.
pub fn utc_at_difference(one: UtcDateTime, other: UtcDateTime) -> Option<UtcDateTime>
    ensures { result ≡ Some other }
{
    // their ranges come with these calls
    let _ = (one.date(), other.date());
    one.checked_add(other - one)
}

/// The difference of two timestamps leads from one to the other.
pub fn timestamp_at_difference(start: Timestamp, end: Timestamp) -> Option<Timestamp>
    ensures { result ≡ Some end }
{
    // their ranges come with these calls
    let _ = (start.date(), end.date());
    start.checked_add(end - start)
}

/// The difference of two moments leads from one to the other as the offset of the first shows it,
/// if the calendar has the date there.
pub fn moment_at_difference(first: OffsetDateTime, other: OffsetDateTime) -> Option<OffsetDateTime>
    ensures { result ≡ shown_at first.offset (instant other) }
{
    // their ranges come with these calls
    let _ = (first.date(), other.date());
    first.checked_add(other - first)
}

/// Whole milliseconds are those of the timestamp that they count to, before 1970 too.
pub fn milliseconds_and_back(milliseconds: i64) -> Option<i64>
    ensures some { IsSome result ↔ IsWallClock (milliseconds *ℤ pos milli_nanos) }
    ensures value { IfSome result (λ back. back ≡ milliseconds) }
{
    let Ok(timestamp) = Timestamp::from_milliseconds(milliseconds) else {
        return None;
    };
    Some(timestamp.as_milliseconds())
}

/// The greatest whole number of days, hours, minutes, seconds, milliseconds or microseconds that is
/// not after a wall clock, and cut again the same.
pub fn cuts()
    ensures { (unit : ℕ) (wall : ℤ) → IsUnit unit → IsCut unit wall (cut_to unit wall) }
{}

/// A time of day that a replacement of a part gives shows the new part and the other ones; what is
/// finer than a new millisecond or microsecond is zero.
pub fn times_show_their_parts()
    ensures { (hour minute second part time : ℕ) → TimesShowParts hour minute second part time }
{}

/// A wall clock shows the day and the time of day that it was made of.
pub fn wall_clocks_show_their_parts()
    ensures { (day time : ℕ) → time < day_nanos → ShowsDay day time }
{}

/// Timestamps of two instants print two texts.
pub fn timestamps_print_apart()
    ensures { (one other : ℤ) → IsWallClock one → IsWallClock other
        → seconds_text one ≡ seconds_text other → one ≡ other }
{}

/// No timestamp prints a zero at the end of its fraction, or a negative zero.
pub fn timestamps_print_tidily()
    ensures { (instant : ℤ) → IsWallClock instant → IsTidy (seconds_text instant) }
{}

/// The same calls answer alike from a timestamp and from its date and time in UTC.
pub fn replies_alike(
    alloc: Global,
    timestamp: Timestamp,
    calls: &[MomentCall],
) -> Result<(Vec<MomentReply>, Vec<MomentReply>), AllocError>
    ensures { IfOk result (λ both. (both.0.items ≡ replies timestamp calls.now)
        × (both.1.items ≡ replies timestamp calls.now)) }
{
    let (_, replies) = run_calls(alloc, timestamp, calls)?;
    let (_, others) = run_calls(alloc, timestamp.to_utc(), calls)?;
    Ok((replies, others))
}

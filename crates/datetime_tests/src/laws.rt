//! The laws at values that are known from outside.
use crate::each_type::{Evenings, evenings};
use crate::rows::{east, evening, leap_day, timestamp_of};
use calendar::{Date, SignedDuration, Time, UtcOffset, Weekday};
use datetime::{
    MomentCall, MomentReply, OffsetDateTime, PlainDateTime, Timestamp, UtcDateTime, laws,
};
use std::alloc::Global;
use std::cmp::Ordering;

fn pins_the_constants() -> bool {
    let first = PlainDateTime::new(Date::MIN, Time::MIDNIGHT);
    let last = PlainDateTime::new(Date::MAX, Time::MAX);
    let epoch = UtcDateTime::from_unix_timestamp(0).unwrap_or(last.as_utc());
    let ends = [first.as_utc(), epoch, last.as_utc()];
    laws::ends_of_wall_clocks() == [first, last]
        && laws::constants_of_utc() == ends
        && laws::constants_of_timestamps() == ends.map(Timestamp::from)
        && laws::epoch_at_offset_zero() == OffsetDateTime::from(epoch)
}

type Moved = (
    Option<PlainDateTime>,
    Option<UtcDateTime>,
    Option<Timestamp>,
    Option<OffsetDateTime>,
);

fn day_and_back((wall, utc, timestamp, moment): Evenings) -> Moved {
    (
        laws::wall_clock_moved_and_back(wall, SignedDuration::DAY),
        laws::utc_moved_and_back(utc, SignedDuration::DAY),
        laws::timestamp_moved_and_back(timestamp, SignedDuration::DAY),
        laws::moment_moved_and_back(moment, SignedDuration::DAY),
    )
}

fn leads_back(evenings: Evenings) -> bool {
    let (wall, utc, timestamp, moment) = evenings;
    day_and_back(evenings) == (Some(wall), Some(utc), Some(timestamp), Some(moment))
        && laws::utc_and_back(utc) == utc
        && laws::timestamp_and_back(timestamp) == timestamp
        && laws::milliseconds_and_back(-1) == Some(-1)
        && laws::milliseconds_and_back(i64::MAX) == None
}

#[test]
fn holds(rt: HostRuntime) {
    laws::cuts();
    laws::times_show_their_parts();
    laws::wall_clocks_show_their_parts();
    laws::timestamps_print_apart();
    laws::timestamps_print_tidily();
    assert!(rt; pins_the_constants() && leads_back(evenings(leap_day())));
}

type Led = (
    Option<PlainDateTime>,
    Option<UtcDateTime>,
    Option<Timestamp>,
);

// From the one to the other, by their difference.
fn led(one: PlainDateTime, other: PlainDateTime) -> Led {
    let (utc, other_utc) = (one.as_utc(), other.as_utc());
    (
        laws::wall_clock_at_difference(one, other),
        laws::utc_at_difference(utc, other_utc),
        laws::timestamp_at_difference(utc.into(), other_utc.into()),
    )
}

fn leads_moments(moment: OffsetDateTime) -> bool {
    let epoch = laws::epoch_at_offset_zero();
    let last = laws::ends_of_wall_clocks()[1].assume_utc();
    let led = [
        laws::moment_at_difference(moment, epoch),
        laws::moment_at_difference(moment, last),
        laws::shown_at_own_offset(moment),
    ];
    let shown = laws::shown_by_way_of(moment, UtcOffset::UTC, moment.offset());
    led == [Some(epoch), None, Some(moment)] && shown == Some(Some(moment))
}

fn leads_by_differences() -> bool {
    let [first, last] = laws::ends_of_wall_clocks();
    led(last, first) == (Some(first), Some(first.as_utc()), Some(Timestamp::MIN))
        && led(first, last) == (Some(last), Some(last.as_utc()), Some(Timestamp::MAX))
}

fn orders_moments(moment: OffsetDateTime, utc: OffsetDateTime) -> bool {
    laws::equal_as_instants(moment, moment)
        && !laws::equal_as_instants(moment, utc)
        && laws::order_of_instants(moment, utc) == Ordering::Less
}

const CALLS: [MomentCall; 2] = [MomentCall::Weekday, MomentCall::InstantNanos];

const REPLIES: [MomentReply; 2] = [
    MomentReply::Weekday(Weekday::Thursday),
    MomentReply::InstantNanos(1_709_251_198_000_000_000),
];

// Whether both answer so. That memory runs out fails the test.
fn both_reply(alloc: Global, start: Timestamp) -> bool {
    match laws::replies_alike(alloc, start, &CALLS) {
        Ok(both) => {
            let wanted = REPLIES.as_slice();
            (both.0.as_slice(), both.1.as_slice()) == (wanted, wanted)
        }
        Err(_) => false,
    }
}

#[test]
fn leads_orders_and_answers(rt: HostRuntime) {
    let wall = PlainDateTime::new(leap_day(), evening());
    let moment = wall.assume_offset(east());
    assert!(rt;
        leads_by_differences()
            && leads_moments(moment)
            && orders_moments(moment, wall.assume_utc())
            && both_reply(rt.alloc(), timestamp_of(1_709_251_198, 0))
    );
}

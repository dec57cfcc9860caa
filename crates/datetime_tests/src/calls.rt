//! Runs at values that are known from outside, alike for both kinds of moment.
use crate::kinds::{parts, shown};
use crate::rows::{Parts, date_of, offset_of, timestamp_of};
use calendar::{Month, SignedDuration, Time, UtcOffset, Weekday};
use datetime::{Moment, MomentCall, MomentReply, OffsetDateTime, Timestamp, run_calls};
use std::alloc::Global;

// Whether the calls from a moment on have these replies, and lead to so many nanoseconds, or `None` where memory runs out.
pub fn answers<M: Moment>(
    alloc: Global,
    start: M,
    calls: &[MomentCall],
    replies: &[MomentReply],
    last: i128,
) -> Option<bool> {
    match run_calls(alloc, start, calls) {
        Ok(answer) => Some(answer.1.as_slice() == replies && answer.0.instant_nanos() == last),
        Err(_) => None,
    }
}

// From one instant, by both calendars. That memory runs out fails the test.
fn both_answer(
    alloc: Global,
    start: Timestamp,
    calls: &[MomentCall],
    replies: &[MomentReply],
    last: i128,
) -> bool {
    let by_timestamp = answers(alloc, start, calls, replies, last);
    let by_utc = answers(alloc, start.to_utc(), calls, replies, last);
    [by_timestamp, by_utc] == [Some(true); 2]
}

// A start, calls from there on, their replies, and to how many nanoseconds they lead.
type Run = (Timestamp, [MomentCall; 3], [MomentReply; 3], i128);

// A refused call is answered, and the run goes on from where it was.
const RUNS: [Run; 3] = [
    (
        Timestamp::UNIX_EPOCH,
        [
            MomentCall::CheckedSub(SignedDuration::NANOSECOND),
            MomentCall::AsHmsNano,
            MomentCall::Weekday,
        ],
        [
            MomentReply::CheckedSub(Some(-1)),
            MomentReply::AsHmsNano(23, 59, 59, 999_999_999),
            MomentReply::Weekday(Weekday::Wednesday),
        ],
        -1,
    ),
    (
        Timestamp::MAX,
        [
            MomentCall::CheckedAdd(SignedDuration::NANOSECOND),
            MomentCall::ToCalendarDate,
            MomentCall::AsHmsNano,
        ],
        [
            MomentReply::CheckedAdd(None),
            MomentReply::ToCalendarDate(999_999, Month::December, 31),
            MomentReply::AsHmsNano(23, 59, 59, 999_999_999),
        ],
        31_494_784_780_799_999_999_999,
    ),
    (
        Timestamp::MIN,
        [
            MomentCall::CheckedSub(SignedDuration::NANOSECOND),
            MomentCall::ToOrdinalDate,
            MomentCall::Weekday,
        ],
        [
            MomentReply::CheckedSub(None),
            MomentReply::ToOrdinalDate(-999_999, 1),
            MomentReply::Weekday(Weekday::Monday),
        ],
        -31_619_087_596_800_000_000_000,
    ),
];

// A run of no calls stays where it starts.
fn answers_runs(alloc: Global) -> bool {
    for run in &RUNS {
        if !both_answer(alloc, run.0, &run.1, &run.2, run.3) {
            return false;
        }
    }
    both_answer(alloc, Timestamp::UNIX_EPOCH, &[], &[], 0)
}

fn every_call() -> [MomentCall; 12] {
    let noon = Time::from_hms_milli(12, 30, 0, 500).unwrap_or(Time::MIDNIGHT);
    [
        MomentCall::InstantNanos,
        MomentCall::ToCalendarDate,
        MomentCall::ToOrdinalDate,
        MomentCall::ToIsoWeekDate,
        MomentCall::Weekday,
        MomentCall::AsHmsNano,
        MomentCall::ReplaceTime(noon),
        MomentCall::ReplaceDate(date_of(1970, Month::January, 1)),
        MomentCall::CheckedToOffset(offset_of(-13, 0, 0)),
        MomentCall::CheckedSub(SignedDuration::new(45_000, 500_000_000)),
        MomentCall::CheckedAdd(SignedDuration::MAX),
        MomentCall::CheckedAdd(SignedDuration::SECOND),
    ]
}

// To these, from 29 February 2000 on.
fn every_reply() -> [MomentReply; 12] {
    let shown = OffsetDateTime::from_unix_timestamp_nanos(45_000_500_000_000).ok();
    [
        MomentReply::InstantNanos(951_782_400_000_000_000),
        MomentReply::ToCalendarDate(2000, Month::February, 29),
        MomentReply::ToOrdinalDate(2000, 60),
        MomentReply::ToIsoWeekDate(2000, 9, Weekday::Tuesday),
        MomentReply::Weekday(Weekday::Tuesday),
        MomentReply::AsHmsNano(0, 0, 0, 0),
        MomentReply::ReplaceTime(951_827_400_500_000_000),
        MomentReply::ReplaceDate(45_000_500_000_000),
        MomentReply::CheckedToOffset(shown),
        MomentReply::CheckedSub(Some(0)),
        MomentReply::CheckedAdd(None),
        MomentReply::CheckedAdd(Some(1_000_000_000)),
    ]
}

fn answers_every_call(alloc: Global) -> bool {
    let (calls, replies) = (every_call(), every_reply());
    let start = timestamp_of(951_782_400, 0);
    both_answer(alloc, start, &calls, &replies, 1_000_000_000)
}

static SHOWN: [(i64, u32, Parts); 5] = [
    (-62_167_219_200, 0, ((0, Month::January, 1), (0, 0, 0, 0))),
    (
        -1,
        999_999_999,
        ((1969, Month::December, 31), (23, 59, 59, 999_999_999)),
    ),
    (951_782_400, 0, ((2000, Month::February, 29), (0, 0, 0, 0))),
    (
        1_709_251_198,
        0,
        ((2024, Month::February, 29), (23, 59, 58, 0)),
    ),
    (
        253_402_300_799,
        999_999_999,
        ((9999, Month::December, 31), (23, 59, 59, 999_999_999)),
    ),
];

fn shows_dates_by_both_calendars() -> bool {
    for row in &SHOWN {
        let start = timestamp_of(row.0, row.1);
        if [parts(start), parts(start.to_utc())] != [row.2; 2] {
            return false;
        }
    }
    true
}

// What the moment in the reply to a lone call shows.
fn shown_in(alloc: Global, calls: &[MomentCall]) -> Option<(Parts, UtcOffset)> {
    match run_calls(alloc, Timestamp::UNIX_EPOCH, calls) {
        Ok((_, replies)) => match replies.as_slice() {
            [MomentReply::CheckedToOffset(Some(moment))] => Some(shown(*moment)),
            _ => None,
        },
        Err(_) => None,
    }
}

fn shows_at_the_offset(alloc: Global) -> bool {
    let west = offset_of(-13, 0, 0);
    let given = shown_in(alloc, &[MomentCall::CheckedToOffset(west)]);
    given == Some((((1969, Month::December, 31), (11, 0, 0, 0)), west))
}

#[test]
fn answers_calls(rt: HostRuntime) {
    let alloc = rt.alloc();
    assert!(rt;
        answers_runs(alloc)
            && answers_every_call(alloc)
            && shows_dates_by_both_calendars()
            && shows_at_the_offset(alloc)
    );
}

//! Times of day by their parts, replaced, cut and moved.
use calendar::{ComponentRange, DateAdjustment, SignedDuration, Time};

// 23:20:50.123456789
fn sample() -> Time {
    Time::from_seconds_nanoseconds(84_050, 123_456_789)
}

// The parts of a time: more and more of them, and one by one.
type Parts = (
    (u8, u8, u8),
    (u8, u8, u8, u16),
    (u8, u8, u8, u32),
    (u8, u8, u8, u32),
    (u8, u8, u8, u16, u32, u32, u32, u64),
);

fn parts(time: Time) -> Parts {
    (
        time.as_hms(),
        time.as_hms_milli(),
        time.as_hms_micro(),
        time.as_hms_nano(),
        (
            time.hour(),
            time.minute(),
            time.second(),
            time.millisecond(),
            time.microsecond(),
            time.nanosecond(),
            time.second_of_day(),
            time.nanosecond_of_day(),
        ),
    )
}

static PARTS: Parts = (
    (23, 20, 50),
    (23, 20, 50, 123),
    (23, 20, 50, 123_456),
    (23, 20, 50, 123_456_789),
    (
        23,
        20,
        50,
        123,
        123_456,
        123_456_789,
        84_050,
        84_050_123_456_789,
    ),
);

// The nanosecond of the day of an answer: that of no time for a refusal.
fn answered(answer: Result<Time, ComponentRange>) -> u64 {
    match answer {
        Ok(time) => time.nanosecond_of_day(),
        Err(_) => u64::MAX,
    }
}

// Times by their parts, and the sample with a part replaced.
fn made() -> [u64; 11] {
    let sample = sample();
    [
        answered(Time::from_hms_nano(23, 59, 59, 999_999_999)),
        answered(Time::from_hms_nano(23, 20, 50, 520_000_000)),
        answered(Time::from_hms_micro(23, 20, 50, 123_456)),
        answered(Time::from_hms_milli(23, 20, 50, 123)),
        answered(Time::from_hms(0, 0, 0)),
        answered(sample.replace_hour(1)),
        answered(sample.replace_minute(1)),
        answered(sample.replace_second(1)),
        answered(sample.replace_millisecond(1)),
        answered(sample.replace_microsecond(1)),
        answered(sample.replace_nanosecond(1)),
    ]
}

static MADE: [u64; 11] = [
    86_399_999_999_999,
    84_050_520_000_000,
    84_050_123_456_000,
    84_050_123_000_000,
    0,
    4_850_123_456_789,
    82_910_123_456_789,
    84_001_123_456_789,
    84_050_001_000_000,
    84_050_000_001_000,
    84_050_000_000_001,
];

// The ends of the day, and the sample cut to an hour, a minute, a second, a millisecond and a microsecond.
fn cut() -> [u64; 7] {
    let sample = sample();
    [
        Time::MIDNIGHT.nanosecond_of_day(),
        Time::MAX.nanosecond_of_day(),
        sample.truncate_to_hour().nanosecond_of_day(),
        sample.truncate_to_minute().nanosecond_of_day(),
        sample.truncate_to_second().nanosecond_of_day(),
        sample.truncate_to_millisecond().nanosecond_of_day(),
        sample.truncate_to_microsecond().nanosecond_of_day(),
    ]
}

static CUT: [u64; 7] = [
    0,
    86_399_999_999_999,
    82_800_000_000_000,
    84_000_000_000_000,
    84_050_000_000_000,
    84_050_123_000_000,
    84_050_123_456_000,
];

#[test]
fn tells_makes_and_cuts(rt: HostRuntime) {
    let sample = sample();
    assert!(rt; parts(sample) == PARTS && sample < Time::MAX && made() == MADE && cut() == CUT);
}

// Moved by an hour, and a day, where the last one is the sample's. Then the seconds between both, on and back, and over
// midnight.
fn moved() -> ([Time; 5], [i64; 4]) {
    let (sample, later) = (sample(), Time::from_seconds_nanoseconds(1250, 123_456_789));
    let (mut on, mut back) = (sample, later);
    on += SignedDuration::HOUR;
    back -= SignedDuration::HOUR;
    (
        [
            sample + SignedDuration::HOUR,
            on,
            later - SignedDuration::HOUR,
            back,
            sample + SignedDuration::DAY,
        ],
        [
            sample.duration_until(later).whole_seconds(),
            later.duration_since(sample).whole_seconds(),
            later.duration_until(sample).whole_seconds(),
            (later - sample).whole_seconds(),
        ],
    )
}

fn goes_round_the_clock(sample: Time, later: Time) -> bool {
    let seconds = [3600, 3600, 82_800, -82_800];
    moved() == ([later, later, sample, sample, sample], seconds)
}

fn moves_over_midnight(first: Time, last: Time) -> bool {
    last.adjusting_add(SignedDuration::NANOSECOND) == (DateAdjustment::Next, first)
        && first.adjusting_sub(SignedDuration::NANOSECOND) == (DateAdjustment::Previous, last)
}

#[test]
fn moves(rt: HostRuntime) {
    let later = Time::from_seconds_nanoseconds(1250, 123_456_789);
    assert!(rt;
        goes_round_the_clock(sample(), later) && moves_over_midnight(Time::MIDNIGHT, Time::MAX)
    );
}

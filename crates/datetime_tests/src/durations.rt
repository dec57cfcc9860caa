//! Durations in units, their signs, their sums, and those of std.
use calendar::{ConversionRange, SignedDuration};
use datetime::{signed_from_std, std_from_signed};
use std::time::Duration;

const NANOSECOND: SignedDuration = SignedDuration::NANOSECOND;

// -1 day 2 h 3 min 4 s 5 ms and 1 ns.
pub fn sample() -> SignedDuration {
    SignedDuration::nanoseconds(-93_784_005_000_001)
}

// The seconds of a week and of a day in each unit, in the end from a second more with nanoseconds that lead back. Then the
// whole weeks, days, hours, minutes and seconds of the sample.
fn seconds() -> [i64; 16] {
    let sample = sample();
    [
        SignedDuration::weeks(1).whole_seconds(),
        SignedDuration::days(1).whole_seconds(),
        SignedDuration::hours(24).whole_seconds(),
        SignedDuration::minutes(1440).whole_seconds(),
        SignedDuration::seconds(86_400).whole_seconds(),
        SignedDuration::default().whole_seconds(),
        SignedDuration::milliseconds(86_400_000).whole_seconds(),
        SignedDuration::microseconds(86_400_000_000).whole_seconds(),
        SignedDuration::nanoseconds(86_400_000_000_000).whole_seconds(),
        SignedDuration::nanoseconds_i128(86_400_000_000_000).whole_seconds(),
        SignedDuration::new(86_401, -1_000_000_000).whole_seconds(),
        sample.whole_weeks(),
        sample.whole_days(),
        sample.whole_hours(),
        sample.whole_minutes(),
        sample.whole_seconds(),
    ]
}

static SECONDS: [i64; 16] = [
    604_800, 86_400, 86_400, 86_400, 86_400, 0, 86_400, 86_400, 86_400, 86_400, 86_400, 0, -1, -26,
    -1563, -93_784,
];

// The whole milliseconds, microseconds and nanoseconds of the sample, and those past its whole seconds. Then its length.
fn fine() -> [i128; 9] {
    let sample = sample();
    let length = sample.unsigned_abs();
    [
        sample.whole_milliseconds(),
        sample.whole_microseconds(),
        sample.whole_nanoseconds(),
        i128::from(sample.subsec_milliseconds()),
        i128::from(sample.subsec_microseconds()),
        i128::from(sample.subsec_nanoseconds()),
        sample.abs().whole_nanoseconds(),
        i128::from(length.as_secs()),
        i128::from(length.subsec_nanos()),
    ]
}

static FINE: [i128; 9] = [
    -93_784_005,
    -93_784_005_000,
    -93_784_005_000_001,
    -5,
    -5000,
    -5_000_001,
    93_784_005_000_001,
    93_784,
    5_000_001,
];

// The nanoseconds, where there is a duration.
fn counted(answer: Option<SignedDuration>) -> Option<i128> {
    Some(answer?.whole_nanoseconds())
}

// From a second, by a second and a half back, and at the ends.
fn checked() -> [Option<i128>; 7] {
    let (second, back) = (
        SignedDuration::seconds(1),
        SignedDuration::milliseconds(-1500),
    );
    [
        counted(second.checked_add(back)),
        counted(back.checked_sub(second)),
        counted(second.checked_neg()),
        counted(back.checked_mul(2)),
        counted(back.checked_div(-3)),
        counted(SignedDuration::MAX.checked_add(NANOSECOND)),
        counted(SignedDuration::try_sum([back, second, back].iter().copied())),
    ]
}

static CHECKED: [Option<i128>; 7] = [
    Some(-500_000_000),
    Some(-2_500_000_000),
    Some(-1_000_000_000),
    Some(-3_000_000_000),
    Some(500_000_000),
    None,
    Some(-2_000_000_000),
];

// What a second and a half back comes to with a second, by each operator, and where sums end.
fn added() -> [i128; 8] {
    let (second, back) = (
        SignedDuration::seconds(1),
        SignedDuration::milliseconds(-1500),
    );
    let (mut sum, mut difference) = (second, second);
    sum += back;
    difference -= back;
    [
        (second + back).whole_milliseconds(),
        (second - back).whole_milliseconds(),
        sum.whole_milliseconds(),
        difference.whole_milliseconds(),
        (-back).whole_milliseconds(),
        SignedDuration::MAX
            .saturating_add(NANOSECOND)
            .whole_nanoseconds(),
        SignedDuration::MIN
            .saturating_sub(NANOSECOND)
            .whole_nanoseconds(),
        SignedDuration::MAX.saturating_mul(-2).whole_nanoseconds(),
    ]
}

static ADDED: [i128; 8] = [
    -500,
    2500,
    -500,
    2500,
    1500,
    9_223_372_036_854_775_807_999_999_999,
    -9_223_372_036_854_775_808_999_999_999,
    -9_223_372_036_854_775_808_999_999_999,
];

fn has_a_sign(sample: SignedDuration) -> bool {
    sample.is_negative()
        && !sample.is_positive()
        && !sample.is_zero()
        && SignedDuration::MIN < sample
}

fn converts(one: Duration, other: SignedDuration) -> bool {
    let signed = [
        signed_from_std(one),
        signed_from_std(Duration::from_secs(9_223_372_036_854_775_807)),
        signed_from_std(Duration::from_secs(9_223_372_036_854_775_808)),
    ];
    let given = [
        std_from_signed(other),
        std_from_signed(SignedDuration::ZERO),
        std_from_signed(SignedDuration::nanoseconds(-1)),
    ];
    let longest = SignedDuration::seconds(i64::MAX);
    signed == [Ok(other), Ok(longest), Err(ConversionRange)]
        && given == [Ok(one), Ok(Duration::ZERO), Err(ConversionRange)]
}

#[test]
fn counts_adds_and_converts(rt: HostRuntime) {
    assert!(rt; seconds() == SECONDS && fine() == FINE && checked() == CHECKED && added() == ADDED);
    assert!(rt; has_a_sign(sample()));
    assert!(rt; converts(Duration::new(1, 500), SignedDuration::new(1, 500)));
}

//! Offsets from UTC.
use calendar::UtcOffset;

// The parts, the whole hours and minutes, what is past them, whether it is ahead of UTC, after it,
// or UTC itself, and the seconds there and of the offset turned round.
type Told = (
    (i8, i8, i8),
    (i8, i16, i8, i8),
    (bool, bool, bool),
    (i32, i32),
);

fn told(offset: UtcOffset) -> Told {
    (
        offset.as_hms(),
        (
            offset.whole_hours(),
            offset.whole_minutes(),
            offset.minutes_past_hour(),
            offset.seconds_past_minute(),
        ),
        (offset.is_positive(), offset.is_negative(), offset.is_utc()),
        (offset.whole_seconds(), (-offset).whole_seconds()),
    )
}

static TOLD: [Told; 2] = [
    (
        (-1, -30, -5),
        (-1, -90, -30, -5),
        (false, true, false),
        (-5405, 5405),
    ),
    (
        (0, 30, 0),
        (0, 30, 30, 0),
        (true, false, false),
        (1800, -1800),
    ),
];

// The parts take the sign of the first that has one.
#[test]
fn tells_offsets(rt: HostRuntime) {
    let west = UtcOffset::from_hms(-1, 30, 5).unwrap_or(UtcOffset::UTC);
    let east = UtcOffset::from_whole_seconds(1800).unwrap_or(UtcOffset::UTC);
    assert!(rt; [told(west), told(east)] == TOLD && west < east);
}

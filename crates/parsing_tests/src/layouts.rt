//! Layouts of fixed widths, and what is read by them.

ghost use Rattle.std.specs.Prelude.{◌≡◌, true, false};
ghost use Rattle.parsing_places.specs.Windows.{spares_two};

use datetime_types::WallClock;
use parsing_layout::{Field, Part, month_name_at, weekday_name_at};
use parsing_places::{LANES, Moves, Window, Windows};
use parsing_shapes::{
    Front, Numbers, Shape, Sums, last_bytes_of, read_long_moment, read_long_numbers, read_moment,
    read_named_moment, read_numbers, read_small_moment, split_sums_of, sums_of,
};
use parsing_values::Fields;

// `20210102T030405`.
fn basic() -> Shape
    ensures tail { result.has_tail ≡ true }
{
    Shape {
        windows: Windows {
            prefix: Window {
                low: *b"00000000T000000\x00",
                high: [9, 9, 9, 9, 1, 9, 3, 9, 0, 2, 9, 5, 9, 5, 9, 255],
                taken: Moves {
                    lanes: [
                        4, 5, 6, 7, 9, 10, 11, 12, 128, 128, 128, 128, 128, 128, 13, 14,
                    ],
                },
            },
            back: Window {
                low: [0; 16],
                high: [255; 16],
                taken: Moves { lanes: [128; 16] },
            },
            back_at: 0,
        },
        length: 15,
        has_tail: true,
        year: 0,
    }
}

// The second since 1970 of the moment of fields, and its nanosecond.
fn instant(fields: Option<Fields>) -> Option<(i64, u32)> {
    let moment = fields?.moment();
    Some((moment.unix_timestamp(), moment.nanosecond()))
}

// 2021-01-02T02:04:05.5Z.
const HALF: Option<(i64, u32)> = Some((1_609_553_045, 500_000_000));

fn parts_at_once() -> bool {
    let basic = basic();
    let instants = [
        instant(read_moment(&basic, false, b"20210102T030405.5+0100")),
        instant(read_small_moment(&basic, b"20210102T020405.5z")),
        instant(read_long_moment(&basic, true, b"20210102T030405.50000000099+01:00")),
        instant(read_moment(&basic, true, b"20210132T030405Z")),
    ];
    instants == [HALF, HALF, HALF, None]
}

// `02/Jan/2021:03:04:05 +0100`, as web servers write it.
fn logged() -> Shape
    ensures whole { result.has_tail ≡ false }
    ensures spared { spares_two result.windows 0 ≡ true }
    ensures long { result.length ≡ 26 }
{
    Shape {
        windows: Windows {
            prefix: Window {
                low: *b"00/\0\0\0/0000:00:0",
                high: [3, 9, 0, 255, 255, 255, 0, 9, 9, 9, 9, 0, 2, 9, 0, 5],
                taken: Moves {
                    lanes: [
                        128, 128, 0, 1, 128, 128, 128, 128, 128, 128, 128, 128, 128, 128, 128, 128,
                    ],
                },
            },
            back: Window {
                low: *b"0:00:00:00 +0000",
                high: [9, 0, 2, 9, 0, 5, 9, 0, 5, 9, 0, 2, 1, 9, 5, 9],
                taken: Moves {
                    lanes: [
                        128, 128, 128, 128, 2, 3, 5, 6, 12, 13, 14, 15, 128, 11, 8, 9,
                    ],
                },
            },
            back_at: 10,
        },
        length: 26,
        has_tail: false,
        year: 7,
    }
}

fn parts_beside_a_name() -> bool {
    let logged = logged();
    let instants = [
        instant(read_named_moment(&logged, 12, b"31/Dec/1999:23:59:59 -0330")),
        instant(read_named_moment(&logged, 11, b"31/Nov/1999:23:59:59 -0330")),
    ];
    instants == [Some((946_697_399, 0)), None]
}

// The moment on the day of a month that two numbers name.
fn on_day(numbers: Option<Numbers>) -> Option<(i64, u32)> {
    let numbers = numbers?;
    instant(numbers.on_day(numbers.high, numbers.low))
}

fn numbers_at_once() -> bool {
    let basic = basic();
    let days = [
        on_day(read_numbers(&basic, false, true, b"20210102T030405.5+0100")),
        on_day(read_long_numbers(&basic, true, b"20210102T030405.50000000099+01:00")),
        on_day(read_numbers(&basic, true, true, b"20210132T030405Z")),
        on_day(read_numbers(&basic, true, false, b"20210102T030405.5Z")),
    ];
    days == [HALF, HALF, None, None]
}

#[test]
fn moments_by_shapes(rt: HostRuntime) {
    assert!(rt; parts_at_once() && parts_beside_a_name() && numbers_at_once());
}

// `2021-01-02 03:04:05`.
static STAMP: [Part; 11] = [
    Part::Digits(Field::Year, 4),
    Part::Byte(b'-'),
    Part::Digits(Field::Month, 2),
    Part::Byte(b'-'),
    Part::Digits(Field::Day, 2),
    Part::Byte(b' '),
    Part::Digits(Field::Hour, 2),
    Part::Byte(b':'),
    Part::Digits(Field::Minute, 2),
    Part::Byte(b':'),
    Part::Digits(Field::Second, 2),
];

// The sums of a text with these parts.
fn stamped(text: &[u8]) -> Option<Sums> {
    let front = Front::of_parts(&STAMP, false, false)?;
    if text.len() < front.shape.length {
        return None;
    }
    sums_of(&front.shape, text)
}

// Those of a text that goes on with three digits and `Z`, and the fraction.
fn split(text: &[u8]) -> Option<(Sums, u32)> {
    let front = Front::of_parts(&STAMP, true, false)?;
    let last = last_bytes_of(&[Part::Byte(b'Z')], false)?;
    if text.len() < front.shape.length || text.len() < LANES {
        return None;
    }
    if last.length > LANES - 3 {
        return None;
    }
    let (sums, fraction) = split_sums_of(&front.shape, &last, text, text.len(), 3)?;
    Some((sums, fraction.nanosecond()))
}

fn shapes_are_made() -> bool {
    stamped(b"2021-01-02 03:04:05") == Some((129, 184, 0, 320))
        && stamped(b"2021-01-02 03:04-05") == None
        && split(b"2021-01-02 03:04:05250Z") == Some(((129, 184, 0, 320), 250_000_000))
        && split(b"2021-01-02 03:04:05250z") == None
}

// What has no shape.
fn no_shapes_are_made() -> bool {
    Front::of_parts(&[Part::Bare(Field::Hour)], false, false).is_none()
        && last_bytes_of(&[Part::Digits(Field::OffsetHour, 2)], true).is_none()
}

fn names_at_places() -> [Option<u8>; 4] {
    [
        month_name_at(b"02/Dec/2021", 3),
        month_name_at(b"02/dec/2021", 3),
        weekday_name_at(b"Sun Jan", 0),
        weekday_name_at(b"Son Jan", 0),
    ]
}

#[test]
fn shapes_and_names(rt: HostRuntime) {
    assert!(rt;
        shapes_are_made()
            && no_shapes_are_made()
            && names_at_places() == [Some(12), None, Some(7), None]
    );
}

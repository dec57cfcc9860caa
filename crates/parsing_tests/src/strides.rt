//! Lists of parts, and what is read by them.

use parsing_layout::{Field, Item, Names, Part, are_apart, field_of, number_at, place_of, say};
use parsing_strides::{Found, Strides};

// A date in words, after which anything may follow.
static DATE: [Item; 6] = [
    Item::Part(Part::Name(Names::ShortWeekday, true)),
    Item::Part(Part::Byte(b' ')),
    Item::Part(Part::Spaced(Field::Day)),
    Item::Part(Part::Any),
    Item::Part(Part::Name(Names::LongMonth, false)),
    Item::Part(Part::Run(Field::Year, 6)),
];

// A time of day with a fraction of three digits, and the hours of an offset.
static CLOCK: [Item; 6] = [
    Item::Part(Part::Bare(Field::Hour)),
    Item::Part(Part::Byte(b':')),
    Item::Part(Part::Digits(Field::Minute, 2)),
    Item::Part(Part::Fraction(3)),
    Item::Part(Part::Sign),
    Item::Part(Part::Digits(Field::OffsetHour, 2)),
];

// A date and a time of day, with an offset.
static STAMP: [Item; 14] = [
    Item::Part(Part::Digits(Field::Year, 4)),
    Item::Part(Part::Byte(b'-')),
    Item::Part(Part::Digits(Field::Month, 2)),
    Item::Part(Part::Byte(b'-')),
    Item::Part(Part::Digits(Field::Day, 2)),
    Item::Part(Part::Any),
    Item::Part(Part::Digits(Field::Hour, 2)),
    Item::Part(Part::Byte(b':')),
    Item::Part(Part::Digits(Field::Minute, 2)),
    Item::Part(Part::Byte(b':')),
    Item::Part(Part::Digits(Field::Second, 2)),
    Item::Part(Part::Sign),
    Item::Part(Part::Digits(Field::OffsetHour, 2)),
    Item::Part(Part::Digits(Field::OffsetMinute, 2)),
];

// A week and its day, and then Unix time.
static WEEK: [Item; 6] = [
    Item::Part(Part::Byte(b'W')),
    Item::Part(Part::Digits(Field::IsoWeek, 2)),
    Item::Part(Part::Byte(b'-')),
    Item::Part(Part::Digits(Field::Weekday, 1)),
    Item::Part(Part::Byte(b' ')),
    Item::Part(Part::Run(Field::Unix, 14)),
];

// A date and an hour, in fewer bytes than a stride reads at a time.
static HOUR: [Item; 4] = [
    Item::Part(Part::Digits(Field::Year, 4)),
    Item::Part(Part::Digits(Field::Month, 2)),
    Item::Part(Part::Digits(Field::Day, 2)),
    Item::Part(Part::Digits(Field::Hour, 2)),
];

// A minute, and a second that may be missing.
static OPTIONAL: [Item; 2] = [
    Item::Part(Part::Digits(Field::Minute, 2)),
    Item::Optional(b':', Part::Digits(Field::Second, 2)),
];

// What is found in a text: small numbers, each 0 where there is none, a greater one, and how many bytes are left.
type Told = Option<([u8; 8], u64, usize)>;

// What items find in a text, and how many bytes are left.
fn found(items: &[Item], text: &[u8], mut found: Found) -> Option<(Found, usize)> {
    let rest = Strides::of_items(items)?.read(text, &mut found)?;
    Some((found, rest.len()))
}

// The weekday, the day, the month and the year.
fn date(text: &[u8]) -> Told {
    let (found, rest) = found(&DATE, text, Found::usual())?;
    let day = found.get(Field::Day);
    let (weekday, month) = (found.get(Field::Weekday), found.get(Field::Month));
    let numbers = [weekday, day, month, 0, 0, 0, 0, 0];
    Some((numbers, u64::from(found.year().number()), rest))
}

// The hour, the minute, the offset's sign and hours, and the nanosecond.
fn clock(text: &[u8]) -> Told {
    let (found, rest) = found(&CLOCK, text, Found::usual())?;
    let (hour, minute) = (found.get(Field::Hour), found.get(Field::Minute));
    let (sign, offset) = (found.get(Field::Sign), found.get(Field::OffsetHour));
    let numbers = [hour, minute, sign, offset, 0, 0, 0, 0];
    Some((numbers, u64::from(found.fraction().nanosecond()), rest))
}

// The week, its day and the Unix time.
fn week(text: &[u8]) -> Told {
    let (found, rest) = found(&WEEK, text, Found::usual())?;
    let (week, day) = (found.get(Field::IsoWeek), found.get(Field::Weekday));
    Some(([week, day, 0, 0, 0, 0, 0, 0], found.unix(), rest))
}

// The month, the day, the hour and the year.
fn hour(text: &[u8]) -> Told {
    let (found, rest) = found(&HOUR, text, Found::usual())?;
    let (month, day) = (found.get(Field::Month), found.get(Field::Day));
    let numbers = [month, day, found.get(Field::Hour), 0, 0, 0, 0, 0];
    Some((numbers, u64::from(found.year().number()), rest))
}

// The minute and the second.
fn with_second(text: &[u8]) -> Told {
    let (found, rest) = found(&OPTIONAL, text, Found::unread(false, false, false))?;
    let (minute, second) = (found.get(Field::Minute), found.get(Field::Second));
    Some(([minute, second, 0, 0, 0, 0, 0, 0], 0, rest))
}

fn told() -> [Told; 11] {
    [
        date(b"Sat  2 jANUARY2021Z"),
        date(b"Sat  2 jANUARY20210"),
        clock(b"3:04250+01"),
        clock(b"3:0425+01"),
        week(b"W53-7 1700000000"),
        hour(b"2021020304"),
        hour(b"202102030"),
        with_second(b"23:45"),
        with_second(b"23"),
        with_second(b"23.45"),
        with_second(b"23:4"),
    ]
}

static TOLD: [Told; 11] = [
    Some(([6, 2, 1, 0, 0, 0, 0, 0], 2021, 1)),
    None,
    Some(([3, 4, b'+', 1, 0, 0, 0, 0], 250_000_000, 0)),
    None,
    Some(([53, 7, 0, 0, 0, 0, 0, 0], 1_700_000_000, 0)),
    Some(([2, 3, 4, 0, 0, 0, 0, 0], 2021, 0)),
    None,
    Some(([23, 45, 0, 0, 0, 0, 0, 0], 0, 0)),
    Some(([23, 0, 0, 0, 0, 0, 0, 0], 0, 0)),
    Some(([23, 0, 0, 0, 0, 0, 0, 0], 0, 3)),
    None,
];

// The month, the day, the time of day, the offset's sign, hours and minutes, and the year, or 0 where a number is out of range.
fn stamp(text: &[u8]) -> Told {
    let (found, rest) = found(&STAMP, text, Found::usual())?;
    let numbers = [
        found.get(Field::Month),
        found.get(Field::Day),
        found.get(Field::Hour),
        found.get(Field::Minute),
        found.get(Field::Second),
        found.get(Field::Sign),
        found.get(Field::OffsetHour),
        found.get(Field::OffsetMinute),
    ];
    let year = if found.is_in_range() {
        found.year().number()
    } else {
        0
    };
    Some((numbers, u64::from(year), rest))
}

static STAMPS: [(&[u8], Told); 7] = [
    (
        b"1999-12-31T23:59:58-0330",
        Some(([12, 31, 23, 59, 58, b'-', 3, 30], 1999, 0)),
    ),
    (
        b"1999-12-31 23:59:58-0330, and more of a line",
        Some(([12, 31, 23, 59, 58, b'-', 3, 30], 1999, 20)),
    ),
    (
        b"2000-13-01x24:60:60+2660",
        Some(([13, 1, 24, 60, 60, b'+', 26, 60], 0, 0)),
    ),
    (b"1999-12-31T23:59:58,0330", None),
    (b"1999-12-31T23:59:58-033", None),
    (b"1999-12-31T23:5:58-03300", None),
    (b"1999/12-31T23:59:58-0330", None),
];

// Sixteen bytes at a time.
fn stamps_are_read() -> bool {
    for row in &STAMPS {
        if stamp(row.0) != row.1 {
            return false;
        }
    }
    true
}

// What a part reads at the start of a text, and how many bytes are left.
fn number(part: Part, text: &[u8]) -> Option<(u64, usize)> {
    let (number, rest) = number_at(part, text)?;
    Some((number, rest.len()))
}

const DAY: Part = Part::Digits(Field::Day, 2);

const MONTH: Part = Part::Name(Names::LongMonth, false);

fn parts_have_numbers() -> bool {
    number(Part::OpenFraction, b"0123456789Z") == Some((12_345_678, 1))
        && number(Part::Name(Names::HalfOfDay, false), b"pm") == Some((1, 0))
}

fn parts_have_fields() -> bool {
    say(&[MONTH, DAY], Field::Day)
        && !say(&[MONTH, DAY], Field::Hour)
        && are_apart(&[MONTH, DAY])
        && !are_apart(&[DAY, DAY])
        && field_of(Part::Sign) == Some(Field::Sign)
        && place_of(Field::Unix) == 16
}

#[test]
fn lists_of_parts(rt: HostRuntime) {
    assert!(rt; told() == TOLD && stamps_are_read());
    assert!(rt; Strides::of_items(&[Item::Part(Part::OpenFraction); 17]).is_none());
    assert!(rt; parts_have_numbers() && parts_have_fields());
}

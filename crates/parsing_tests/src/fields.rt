//! The fields of date-times, what finds them in a text, and what they name.

use calendar::UtcOffset;
use datetime_types::WallClock;
use description::{
    BorrowedFormatItem, Description, DescriptionVersion, parse_borrowed, parse_strftime_borrowed,
};
use parsing_combinator::{above_zeros, digit_chunk, long_number, number};
use parsing_components::assumed_minutes;
use parsing_item_parts::{Listed, Minutes};
use parsing_places::{Moves, Window, Windows};
use parsing_plan::{Plan, PlanAt};
use parsing_values::{Fields, Fraction, Year, digit_pair, minute_of_day};
use std::alloc::Global;

// The seconds since 1970 of the moment of fields, and its nanosecond.
fn instant(fields: Option<Fields>) -> Option<(i64, u32)> {
    let moment = fields?.moment();
    Some((moment.unix_timestamp(), moment.nanosecond()))
}

// 2021-01-02T02:04:05.5Z.
const HALF: Option<(i64, u32)> = Some((1_609_553_045, 500_000_000));
// 2021-01-02T02:04:05Z.
const WHOLE: Option<(i64, u32)> = Some((1_609_553_045, 0));

fn moments() -> [Option<(i64, u32)>; 3] {
    let (year, half) = (Year::new(2021), Fraction::new(500_000_000));
    [
        instant(Fields::new(year, 1, 2, 184, 5, half, 60)),
        instant(Fields::on_day(year, 1, 2, 184, 5, half, 60)),
        instant(Fields::on_day(year, 2, 29, 184, 5, half, 60)),
    ]
}

fn are_years_and_minutes(year: Year) -> bool {
    minute_of_day(23, 59) == Some(1439)
        && digit_pair(42) == (b'4', b'2')
        && year.digits() == *b"2023"
        && year.number() == 2023
        && year.is_before(Year::new(2024))
        && parsing_rfc3339::begins_with_year(b"2021-01")
        && parsing_rfc3339::is_like_whole(b"1985-04-12T23:20:50.520000000Z")
}

// The nine digits, the nanosecond, and how many bytes are left.
fn read_fraction(text: &[u8]) -> Option<([u8; 9], u32, usize)> {
    match Fraction::read(text) {
        Some((fraction, rest)) => Some((fraction.digits(), fraction.nanosecond(), rest.len())),
        None => None,
    }
}

#[test]
#[tactic(auto, unfolding(parsing_values::specs::Digits::nine_digits))]
fn digits(rt: HostRuntime) {
    // `12345678` and `9` in ASCII, the first digit lowest.
    let nine = Fraction::of_nine(0x3837_3635_3433_3231, 0x39);
    let above = above_zeros(u64::from_le_bytes(*b"12345678"));
    let chunk = u64::from_le_bytes(*b"12300000");
    assert!(rt;
        nine.nanosecond() == 123_456_789
            && nine.padded_digits() == *b"123456789\0\0\0\0\0\0\0"
            && read_fraction(b"5Z") == Some((*b"500000000", 500_000_000, 1))
            && digit_chunk(b"123Z") == Some((chunk, 3))
            && above == Some(u64::from_le_bytes([1, 2, 3, 4, 5, 6, 7, 8]))
            && number(b"123456789") == 123_456_789
            && long_number(b"1234567890123456789") == 1_234_567_890_123_456_789
    );
}

// Formats, and then the shapes that nearly all texts of a format have, and its others.
fn formats() -> [Option<(i64, u32)>; 11] {
    [
        instant(parsing_rfc3339::read_fields(b"2021-01-02T03:04:05.5+01:00")),
        instant(parsing_iso8601_shapes::read_fields(b"2021-01-02T03:04:05.5+01:00")),
        instant(parsing_iso8601_shapes::read_fields(b"20210102T030405.5+0100")),
        instant(parsing_rfc3339::read_usual_fields(b"2021-01-02T03:04:05.5+01:00")),
        instant(parsing_rfc3339::read_rare_fields(b"2021-01-02T02:04:05.5z")),
        instant(parsing_iso8601_shapes::read_usual_fields(b"20210102T030405.5+0100")),
        instant(parsing_iso8601_shapes::read_rare_fields(b"2021002T030405.49999999950+0100")),
        instant(parsing_iso8601_shapes::read_fields_to_minute(b"2021-01-02T03:04+01:00")),
        instant(parsing_rfc2822_shapes::read_fields(b"Sat, 02 Jan 2021 03:04:05 +0100")),
        instant(parsing_rfc2822_shapes::read_usual_fields(b"Sat, 02 Jan 2021 03:04:05 +0100")),
        instant(parsing_rfc2822_shapes::read_other_fields(b"Sat, 02 Jan 2021 02:04:05 GMT")),
    ]
}

// 2021-01-02T02:04:00Z.
const MINUTE: Option<(i64, u32)> = Some((1_609_553_040, 0));

static FORMATS: [Option<(i64, u32)>; 11] = [
    HALF, HALF, HALF, HALF, HALF, HALF, HALF, MINUTE, WHOLE, WHOLE, WHOLE,
];

// The first sixteen bytes of `20210102T030405` and one byte more.
fn basic() -> Window {
    Window {
        low: *b"00000000T000000\x00",
        high: [9, 9, 9, 9, 1, 9, 3, 9, 0, 2, 9, 5, 9, 5, 9, 255],
        taken: Moves {
            lanes: [
                4, 5, 6, 7, 9, 10, 11, 12, 128, 128, 128, 128, 128, 128, 13, 14,
            ],
        },
    }
}

// Bytes of any kind.
fn any() -> Window {
    Window {
        low: [0; 16],
        high: [255; 16],
        taken: Moves { lanes: [128; 16] },
    }
}

// What they take.
fn windows_take_digits() -> bool {
    let windows = Windows {
        prefix: basic(),
        back: any(),
        back_at: 0,
    };
    Moves::checked([16; 16]).is_none()
        && Moves::checked([15; 16]).is_some()
        && windows.digits_of(b"20210102T030405Z").0
}

#[test]
fn fields_and_what_finds_them(rt: HostRuntime) {
    assert!(rt;
        moments() == [HALF, HALF, None]
            && are_years_and_minutes(Year::new(2023))
            && formats() == FORMATS
            && windows_take_digits()
    );
}

// What the plan of a list of items reads of a line.
fn planned_by_items(items: &[BorrowedFormatItem<'_>], line: &[u8]) -> Option<(i64, u32)> {
    instant(Plan::of_items(items)?.read(line, None))
}

// The same by its way, but for those that are read by strides.
fn planned_alone(plan: &Plan, line: &[u8]) -> Option<(i64, u32)> {
    match plan.at(Some(UtcOffset::UTC)) {
        PlanAt::Plain(places) => instant(places.read_plain(line)),
        PlanAt::Whole(whole) => instant(whole.read(line)),
        PlanAt::Split(split) => instant(split.read(line)),
        PlanAt::Unix(unix) => instant(unix.read_within(line)),
        PlanAt::Listed(list) => instant(list.read(line)),
        PlanAt::Other(_) => None,
    }
}

fn planned_by_way(items: &[BorrowedFormatItem<'_>], line: &[u8]) -> Option<(i64, u32)> {
    planned_alone(&Plan::of_items(items)?, line)
}

// Both, by the letters of `strftime`.
fn planned_by_letters(alloc: Global, text: &str, line: &[u8]) -> [Option<(i64, u32)>; 2] {
    match parse_strftime_borrowed(alloc, text) {
        Ok(items) => [planned_by_items(&items, line), planned_by_way(&items, line)],
        Err(_) => [None, None],
    }
}

static LETTERS: [(&str, &[u8]); 3] = [
    ("%d/%b/%Y:%H:%M:%S %z", b"02/Jan/2021:03:04:05 +0100"),
    ("%Y-%m-%d %H:%M:%S %z", b"2021-01-02 03:04:05 +0100"),
    ("%s", b"1609553045"),
];

fn letters_are_planned(alloc: Global) -> bool {
    for row in &LETTERS {
        if planned_by_letters(alloc, row.0, row.1) != [WHOLE; 2] {
            return false;
        }
    }
    true
}

fn offsets_are_assumed(behind: UtcOffset) -> bool {
    minutes_of(Some(behind)) == Some(-90)
        && minutes_of(None) == None
        && assumed_minutes(behind) == -90
}

// The minutes that count for lines without an offset.
fn minutes_of(assumed: Option<UtcOffset>) -> Option<i16> {
    let minutes = Minutes::assumed(false, assumed)?;
    Some(minutes.number)
}

// The parts of a strftime description.
fn listed_of(alloc: Global, text: &str) -> Option<Listed> {
    let items = parse_strftime_borrowed(alloc, text).ok()?;
    Listed::of_nodes(items.as_slice())
}

// What is read by parts of a line, and of the start of a longer one.
fn by_parts(alloc: Global, line: &[u8], longer: &[u8]) -> [Option<(i64, u32)>; 2] {
    let Some(listed) = listed_of(alloc, "%d %B %Y %I:%M:%S %p") else {
        return [None, None];
    };
    let of_prefix = match listed.read_prefix(longer, Some(UtcOffset::UTC)) {
        Some((fields, b" and more")) => Some(fields),
        _ => None,
    };
    [
        instant(listed.read(line, Some(UtcOffset::UTC))),
        instant(of_prefix),
    ]
}

// A number without zeros, and a fraction that may be missing.
const OPTIONAL: &str =
    "[day padding:none].[month padding:none].[year] [hour]:[minute]:[second][optional [.[subsecond]]]";

const UNIX: &str = "[unix_timestamp].[subsecond]";

// A date and a time of day as in ISO 8601, and a fraction that may be missing.
const STAMP: &str =
    "[year]-[month]-[day]T[hour]:[minute]:[second][optional [.[subsecond]]][offset_hour sign:mandatory]:[offset_minute]";

const SPACED_STAMP: &str =
    "[weekday], [year]-[month]-[day] [hour]:[minute]:[second][optional [,[subsecond]]]";

// With places.
const PLACED: &str = "[year]-[month]-[day] [hour]:[minute]:[second] UTC";

// With a fraction among them.
const SPLIT: &str = "[year]-[month]-[day] [hour]:[minute]:[second].[subsecond] UTC";

// What the plan of a description of version 3 reads of a line.
fn planned_by_tree(description: &Description<'_>, line: &[u8]) -> Option<(i64, u32)> {
    let Description::V3(tree) = description else {
        return None;
    };
    let plan = Plan::of_description(tree)?;
    let fields = plan.read(line, Some(UtcOffset::UTC));
    match plan.at(Some(UtcOffset::UTC)) {
        PlanAt::Other(_) => instant(fields),
        _ => planned_alone(&plan, line),
    }
}

fn planned(alloc: Global, text: &str, line: &[u8]) -> Option<(i64, u32)> {
    match parse_borrowed(alloc, DescriptionVersion::Three, text) {
        Ok(description) => planned_by_tree(&description, line),
        Err(_) => None,
    }
}

// A description, a line, and the moment that is read.
static PLANNED: [(&str, &str, Option<(i64, u32)>); 30] = [
    (STAMP, "2021-01-02T03:04:05+01:00", WHOLE),
    (STAMP, "2021-01-02T02:04:05.5+00:00", HALF),
    (STAMP, "2021-01-02 02:04:05+00:00", None),
    (STAMP, "202:-01-02T02:04:05+00:00", None),
    (STAMP, "2021-00-02T02:04:05+00:00", None),
    (STAMP, "2021-13-02T02:04:05+00:00", None),
    (STAMP, "2021-01-00T02:04:05+00:00", None),
    (STAMP, "2021-01-32T02:04:05+00:00", None),
    (STAMP, "2021-01-02T24:04:05+00:00", None),
    (STAMP, "2021-01-02T02:60:05+00:00", None),
    (STAMP, "2021-01-02T02:04:60+00:00", None),
    (STAMP, "2021-01-02T02:04-05+00:00", None),
    (STAMP, "2021/01-02T02:04:05+00:00", None),
    (SPACED_STAMP, "Saturday, 2021-01-02 02:04:05", WHOLE),
    (SPACED_STAMP, "Saturday, 2021-01-02 02:04:05,5", HALF),
    (OPTIONAL, "2.1.2021 02:04:05", WHOLE),
    (OPTIONAL, "2.1.2021 02:04:05.5", HALF),
    (OPTIONAL, "2.1.2021 00:00:00", Some((1_609_545_600, 0))),
    (OPTIONAL, "2.1.2021 23:59:59", Some((1_609_631_999, 0))),
    (OPTIONAL, "2.1.2021 24:00:00", None),
    (OPTIONAL, "2.1.2021 02:60:00", None),
    (OPTIONAL, "2.1.2021 02:00:60", None),
    (OPTIONAL, "2.1.2021 02.00:00", None),
    (OPTIONAL, "2.1.2021 02:00.00", None),
    (OPTIONAL, "2.1.2021 0/:00:00", None),
    (OPTIONAL, "2.1.2021 02:0::00", None),
    (OPTIONAL, "2.1.2o21 02:00:00", None),
    (PLACED, "2021-01-02 02:04:05 UTC", WHOLE),
    (SPLIT, "2021-01-02 02:04:05.50 UTC", HALF),
    (UNIX, "1609553045.5", HALF),
];

fn descriptions_are_planned(alloc: Global) -> bool {
    for row in &PLANNED {
        if planned(alloc, row.0, row.1.as_bytes()) != row.2 {
            return false;
        }
    }
    true
}

// Months by their long names, and clocks in halves of the day.
static NAMED: [(&str, Option<(i64, u32)>); 19] = [
    ("01 January 1970 12:00:01 PM", Some((43_201, 0))),
    ("01 January 2021 12:00:00 AM", Some((1_609_459_200, 0))),
    ("01 February 2021 12:00:00 AM", Some((1_612_137_600, 0))),
    ("01 March 2021 12:00:00 AM", Some((1_614_556_800, 0))),
    ("01 April 2021 12:00:00 AM", Some((1_617_235_200, 0))),
    ("01 May 2021 12:00:00 AM", Some((1_619_827_200, 0))),
    ("01 June 2021 12:00:00 AM", Some((1_622_505_600, 0))),
    ("01 July 2021 12:00:00 AM", Some((1_625_097_600, 0))),
    ("01 August 2021 12:00:00 AM", Some((1_627_776_000, 0))),
    ("01 September 2021 12:00:00 AM", Some((1_630_454_400, 0))),
    ("01 October 2021 12:00:00 AM", Some((1_633_046_400, 0))),
    ("01 November 2021 12:00:00 AM", Some((1_635_724_800, 0))),
    ("01 December 2021 12:00:00 AM", Some((1_638_316_800, 0))),
    ("01 Mayday 2021 12:00:00 AM", None),
    ("02 January 2021 00:04:05 AM", None),
    ("02 January 2021 13:04:05 AM", None),
    ("02 January 2021 02:04:60 AM", None),
    ("02 January 2021 02:04:05_AM", None),
    ("02 January 2021 02:04:05 MM", None),
];

fn names_are_read(alloc: Global) -> bool {
    for row in &NAMED {
        if by_parts(alloc, row.0.as_bytes(), b"02 January 2021 02:04:05") != [row.1, None] {
            return false;
        }
    }
    let night = by_parts(
        alloc,
        b"02 January 2021 02:04:05 AM",
        b"02 January 2021 02:04:05 AM and more",
    );
    night == [WHOLE; 2]
}

fn pieces_of_rfc2822_are_read() -> bool {
    parsing_rfc2822::past_spacing(b" (UTC) Tue") == b"Tue".as_slice()
        && parsing_rfc2822::zone_of(b"EST") == Some(5)
        && parsing_rfc2822::is_plain_comment(b" (UTC)")
}

#[test]
fn plans_and_pieces(rt: HostRuntime) {
    let alloc = rt.alloc();
    let behind = UtcOffset::from_hms(-1, -30, 0).unwrap_or(UtcOffset::UTC);
    assert!(rt;
        letters_are_planned(alloc)
            && offsets_are_assumed(behind)
            && descriptions_are_planned(alloc)
            && names_are_read(alloc)
            && pieces_of_rfc2822_are_read()
    );
}

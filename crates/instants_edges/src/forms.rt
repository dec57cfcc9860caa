//! The forms of words that stand beside a date: a digit stands for each digit up to it, `+` for a plus or a hyphen, and a
//! small letter for the capital one too.

// The signs of an offset: a plus or a hyphen, the minus of Unicode, and both as JSON may escape them.
pub(crate) static SIGNS: [&[u8]; 4] = [b"+", b"\xe2\x88\x92", b"\\u002b", b"\\u002d"];

// Hours and minutes of an offset.
pub(crate) static HOURS_AND_MINUTES: [&[u8]; 3] = [b"19:59", b"9:59", b"1959"];

// Hours and minutes of an offset, or hours alone.
pub(crate) static NUMBERS: [&[u8]; 5] = [b"19:59", b"9:59", b"1959", b"19", b"9"];

// Two digits of hours.
pub(crate) static TWO_DIGITS: [&[u8]; 1] = [b"19"];

// The names of UTC.
pub(crate) static NAMES_OF_UTC: [&[u8]; 4] = [b"utc", b"gmt", b"ut", b"z"];

// The names of UTC that are looked for inside of a date.
pub(crate) static NAMES_INSIDE: [&[u8]; 3] = [b"utc", b"gmt", b"z"];

// The names of UTC, and those of other zones.
pub(crate) static NAMES: [&[u8]; 27] = [
    b"utc", b"gmt", b"ut", b"z", b"cet", b"cest", b"eet", b"eest", b"wet", b"west", b"bst", b"ist",
    b"msk", b"est", b"edt", b"cst", b"cdt", b"mst", b"mdt", b"pst", b"pdt", b"jst", b"kst",
    b"aest", b"aedt", b"nzst", b"nzdt",
];

// Spaces that do not break, U+00A0 and U+202F.
pub(crate) static WIDE_SPACES: [&[u8]; 2] = [b"\xc2\xa0", b"\xe2\x80\xaf"];

// The halves of the day.
pub(crate) static HALVES: [&[u8]; 8] = [
    b"am",
    b"pm",
    b"a.m",
    b"p.m",
    b"a. m",
    b"p. m",
    b"a.\xc2\xa0m",
    b"p.\xc2\xa0m",
];

// Times of day.
pub(crate) static CLOCKS: [&[u8]; 14] = [
    b"29:59",
    b"9:59",
    b"29h59",
    b"9h59",
    b"29.59.59",
    b"29-59-59",
    b"19am",
    b"19pm",
    b"9am",
    b"9pm",
    b"19 am",
    b"19 pm",
    b"9 am",
    b"9 pm",
];

// Four digits.
pub(crate) static FOUR_DIGITS: [&[u8]; 1] = [b"9999"];

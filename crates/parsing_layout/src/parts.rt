//! The parts that layouts are made of.

/// What a number of a text means.
#[derive(Clone, Copy, PartialEq)]
pub enum Field {
    Month,
    Day,
    /// 1 on Monday to 7 on Sunday.
    Weekday,
    Hour,
    /// An hour of half a day.
    HourOfHalf,
    /// 1 for the later half of the day, 0 for the earlier one.
    Half,
    Minute,
    Second,
    /// The byte that an offset begins with.
    Sign,
    OffsetHour,
    OffsetMinute,
    /// A week of a year of weeks.
    IsoWeek,
    /// A day of a year without its last digit, and that digit.
    OrdinalTens,
    OrdinalOnes,
    Year,
    Nanosecond,
    /// Units of time since 1970.
    Unix,
}

/// Names that a text may have for a number.
#[derive(Clone, Copy, PartialEq)]
pub enum Names {
    /// `Jan` to `Dec`.
    ShortMonth,
    /// `January` to `December`.
    LongMonth,
    /// `Mon` to `Sun`.
    ShortWeekday,
    /// `Monday` to `Sunday`.
    LongWeekday,
    /// `AM` or `PM`.
    HalfOfDay,
}

/// One part of a layout. What it reads at the start of a text is a piece of `parsing_combinator`.
#[derive(Clone, Copy, PartialEq)]
pub enum Part {
    /// This byte.
    Byte(u8),
    /// Any one byte.
    Any,
    /// A number of so many digits.
    Digits(Field, usize),
    /// A number of one digit or two.
    Bare(Field),
    /// A number of two digits, the first of which may be a space.
    Spaced(Field),
    /// The longest name, and whether its case counts.
    Name(Names, bool),
    /// `+` or `-`.
    Sign,
    /// So many digits of a fraction of a second.
    Fraction(usize),
    /// All digits of a fraction of a second, at most 32.
    OpenFraction,
    /// All digits of a number, at most so many.
    Run(Field, usize),
}

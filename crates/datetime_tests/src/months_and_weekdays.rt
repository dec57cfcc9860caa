//! Months and days of the week, and endless walks over them.
use calendar::{
    InvalidVariant, Month, MonthIter, RevMonthIter, RevWeekdayIter, Weekday, WeekdayIter,
};

// The numbers of months that others lead to, and the days from Monday of such weekdays. Then those of Sunday.
fn numbers() -> [u8; 15] {
    let sunday = Weekday::Sunday;
    [
        Month::December.next().number(),
        Month::January.previous().number(),
        Month::March.nth_next(255).number(),
        Month::June.nth_prev(255).number(),
        u8::from(Month::September),
        Month::February.length(2024),
        Weekday::from_number(2).number_days_from_monday(),
        sunday.next().number_days_from_monday(),
        Weekday::Monday.previous().number_days_from_monday(),
        Weekday::Tuesday.nth_next(255).number_days_from_monday(),
        Weekday::Friday.nth_prev(255).number_days_from_monday(),
        sunday.number_from_monday(),
        sunday.number_days_from_monday(),
        sunday.number_from_sunday(),
        sunday.number_days_from_sunday(),
    ]
}

static NUMBERS: [u8; 15] = [1, 12, 6, 3, 9, 29, 2, 0, 6, 4, 1, 7, 6, 1, 0];

fn months_are_numbered() -> bool {
    Month::try_from(2) == Ok(Month::February) && Month::April < Month::August
}

type Named = (
    Result<Month, InvalidVariant>,
    Result<Weekday, InvalidVariant>,
);

// The month and the day of the week that a text names.
fn named(text: &str) -> Named {
    (text.parse::<Month>(), text.parse::<Weekday>())
}

const NEITHER: Named = (Err(InvalidVariant), Err(InvalidVariant));

static NAMES: [(&str, Named); 4] = [
    ("September", (Ok(Month::September), Err(InvalidVariant))),
    ("Wednesday", (Err(InvalidVariant), Ok(Weekday::Wednesday))),
    ("may", NEITHER),
    ("Mondays", NEITHER),
];

fn are_named() -> bool {
    for row in &NAMES {
        if named(row.0) != row.1 {
            return false;
        }
    }
    true
}

#[test]
fn numbers_and_names(rt: HostRuntime) {
    assert!(rt; numbers() == NUMBERS && months_are_numbered() && are_named());
}

// On from November and back from April, and the ends of all months.
fn walked_months() -> [Option<Month>; 10] {
    let mut months = Month::iter_from(Month::November);
    let mut back = RevMonthIter::new(Month::April);
    [
        months.next(),
        months.nth(25),
        months.rev().next(),
        back.next(),
        back.nth(3),
        back.rev().next(),
        MonthIter::new(Month::June).min(),
        RevMonthIter::new(Month::June).min(),
        MonthIter::new(Month::June).max(),
        RevMonthIter::new(Month::June).max(),
    ]
}

static WALKED_MONTHS: [Option<Month>; 10] = [
    Some(Month::November),
    Some(Month::January),
    Some(Month::February),
    Some(Month::April),
    Some(Month::December),
    Some(Month::November),
    Some(Month::January),
    Some(Month::January),
    Some(Month::December),
    Some(Month::December),
];

// On from Saturday, to a Sunday, and back from Tuesday.
fn walked_weekdays() -> [Option<Weekday>; 7] {
    let mut weekdays = Weekday::iter_from(Weekday::Saturday);
    let mut back = RevWeekdayIter::new(Weekday::Tuesday);
    [
        weekdays.next(),
        weekdays.nth(8),
        weekdays.rev().next(),
        WeekdayIter::new(Weekday::Monday).nth(6),
        back.next(),
        back.nth(1),
        back.rev().next(),
    ]
}

static WALKED_WEEKDAYS: [Option<Weekday>; 7] = [
    Some(Weekday::Saturday),
    Some(Weekday::Monday),
    Some(Weekday::Tuesday),
    Some(Weekday::Sunday),
    Some(Weekday::Tuesday),
    Some(Weekday::Sunday),
    Some(Weekday::Saturday),
];

#[test]
fn walks(rt: HostRuntime) {
    assert!(rt;
        walked_months() == WALKED_MONTHS
            && walked_weekdays() == WALKED_WEEKDAYS
            && !MonthIter::new(Month::January).is_sorted()
            && !RevMonthIter::new(Month::December).is_sorted()
    );
}

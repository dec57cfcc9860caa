//! The components that letters stand for.

ghost use Rattle.std.specs.Prelude.{◌≡◌, ◌<◌, IfSome};
ghost use Rattle.description_strftime.specs.Letters.{day_number, year_number, time_number, unpadded, component_of};

use description_items::Component;
use description_items::modifier::{
    CalendarYearCenturyExtendedRange, CalendarYearFullExtendedRange, CalendarYearLastTwo, Day,
    Hour12, Hour24, IsoYearFullExtendedRange, IsoYearLastTwo, Minute, MonthLong, MonthNumerical,
    MonthShort, Ordinal, Padding, Period, Second, UnixTimestampSecond, WeekNumberIso,
    WeekNumberMonday, WeekNumberSunday, WeekdayLong, WeekdayMonday, WeekdayShort, WeekdaySunday,
};

// Days and weeks.
#[tactic(auto, unfolding(crate::specs::Letters::day_number))]
fn day_number(flag: Option<Padding>, letter: u8) -> Option<Component>
    ensures value { result ≡ day_number flag letter }
    ensures ascii { IfSome result (λ _. letter < 128) }
{
    let padding = flag.unwrap_or(Padding::Zero);
    match letter {
        b'd' => Some(Component::Day(Day { padding })),
        b'e' => Some(Component::Day(Day {
            padding: flag.unwrap_or(Padding::Space),
        })),
        b'j' => Some(Component::Ordinal(Ordinal { padding })),
        b'm' => Some(Component::MonthNumerical(MonthNumerical { padding })),
        b'U' => Some(Component::WeekNumberSunday(WeekNumberSunday { padding })),
        b'V' => Some(Component::WeekNumberIso(WeekNumberIso { padding })),
        b'W' => Some(Component::WeekNumberMonday(WeekNumberMonday { padding })),
        _ => None,
    }
}

// Years.
#[tactic(auto, unfolding(crate::specs::Letters::year_number))]
fn year_number(flag: Option<Padding>, letter: u8) -> Option<Component>
    ensures value { result ≡ year_number flag letter }
    ensures ascii { IfSome result (λ _. letter < 128) }
{
    let padding = flag.unwrap_or(Padding::Zero);
    let sign_is_mandatory = false;
    match letter {
        b'C' => Some(Component::CalendarYearCenturyExtendedRange(
            CalendarYearCenturyExtendedRange {
                padding,
                sign_is_mandatory,
            },
        )),
        b'g' => Some(Component::IsoYearLastTwo(IsoYearLastTwo { padding })),
        b'G' => Some(Component::IsoYearFullExtendedRange(IsoYearFullExtendedRange {
            padding,
            sign_is_mandatory,
        })),
        b'y' => Some(Component::CalendarYearLastTwo(CalendarYearLastTwo { padding })),
        b'Y' => Some(Component::CalendarYearFullExtendedRange(CalendarYearFullExtendedRange {
            padding,
            sign_is_mandatory,
        })),
        _ => None,
    }
}

// Times of day.
#[tactic(auto, unfolding(crate::specs::Letters::time_number))]
fn time_number(flag: Option<Padding>, letter: u8) -> Option<Component>
    ensures value { result ≡ time_number flag letter }
    ensures ascii { IfSome result (λ _. letter < 128) }
{
    let padding = flag.unwrap_or(Padding::Zero);
    let spaced = flag.unwrap_or(Padding::Space);
    match letter {
        b'H' => Some(Component::Hour24(Hour24 { padding })),
        b'I' => Some(Component::Hour12(Hour12 { padding })),
        b'k' => Some(Component::Hour24(Hour24 { padding: spaced })),
        b'l' => Some(Component::Hour12(Hour12 { padding: spaced })),
        b'M' => Some(Component::Minute(Minute { padding })),
        b'S' => Some(Component::Second(Second { padding })),
        _ => None,
    }
}

// What no flag changes.
#[tactic(auto, unfolding(crate::specs::Letters::unpadded))]
fn unpadded(letter: u8) -> Option<Component>
    ensures value { result ≡ unpadded letter }
    ensures ascii { IfSome result (λ _. letter < 128) }
{
    let case_sensitive = true;
    match letter {
        b'a' => Some(Component::WeekdayShort(WeekdayShort { case_sensitive })),
        b'A' => Some(Component::WeekdayLong(WeekdayLong { case_sensitive })),
        b'b' | b'h' => Some(Component::MonthShort(MonthShort { case_sensitive })),
        b'B' => Some(Component::MonthLong(MonthLong { case_sensitive })),
        b'p' => Some(Component::Period(Period {
            is_uppercase: true,
            case_sensitive,
        })),
        b'P' => Some(Component::Period(Period {
            is_uppercase: false,
            case_sensitive,
        })),
        b's' => Some(Component::UnixTimestampSecond(UnixTimestampSecond {
            sign_is_mandatory: false,
        })),
        b'u' => Some(Component::WeekdayMonday(WeekdayMonday { one_indexed: true })),
        b'w' => Some(Component::WeekdaySunday(WeekdaySunday { one_indexed: false })),
        _ => None,
    }
}

/// The component that a letter stands for under a flag.
#[tactic(auto, unfolding(crate::specs::Letters::component_of))]
pub fn component_of(flag: Option<Padding>, letter: u8) -> Option<Component>
    ensures value { result ≡ component_of flag letter }
    ensures ascii { IfSome result (λ _. letter < 128) }
{
    day_number(flag, letter)
        .or(year_number(flag, letter))
        .or(time_number(flag, letter))
        .or(unpadded(letter))
}

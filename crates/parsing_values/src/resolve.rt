//! The values that numbers name: the first number out of range is refused.
ghost use Rattle.std.specs.Prelude.{◌≡◌, ◌<◌};
ghost use Rattle.parsing_values.specs.Resolution.{date_of, permitted_time_of, leap_time_of, signed_offset_of};

use calendar::{ComponentRange, Date, Month, Time, UtcOffset};

/// The date with this year, month and day of the month. Refused are, in this order, a year that the calendar does not
/// have, a month that is not 1 to 12, and a day that the month does not have.
#[tactic(auto, unfolding(crate::specs::Resolution::date_of))]
#[inline(always)]
pub fn date(year: i32, month: u8, day: u8) -> Result<Date, ComponentRange>
    ensures { result ≡ date_of year month day }
{
    match Month::try_from(month) {
        Ok(month) => Date::from_calendar_date(year, month, day),
        Err(refused) => {
            // A year that the calendar does not have is refused before the month.
            Date::from_calendar_date(year, Month::January, 1)?;
            Err(refused)
        }
    }
}

/// The time of day with these parts: where it is permitted, second 60 stands for the last nanosecond of its minute.
#[tactic(auto, unfolding(crate::specs::Resolution::permitted_time_of))]
#[inline(always)]
pub fn permitted_time(
    leap_second_is_permitted: bool,
    hour: u8,
    minute: u8,
    second: u8,
    nanosecond: u32,
) -> Result<Time, ComponentRange>
    ensures { result ≡ permitted_time_of leap_second_is_permitted hour minute second nanosecond }
{
    let (second, nanosecond) = if leap_second_is_permitted && second == 60 {
        (59, 999_999_999)
    } else {
        (second, nanosecond)
    };
    Time::from_hms_nano(hour, minute, second, nanosecond)
}

/// The time of day with these parts, where second 60 is permitted: it stands for the last nanosecond of its minute.
#[inline(always)]
pub fn leap_time(hour: u8, minute: u8, second: u8, nanosecond: u32) -> Result<Time, ComponentRange>
    ensures { result ≡ leap_time_of hour minute second nanosecond }
{
    permitted_time(true, hour, minute, second, nanosecond)
}

/// The offset of hours and minutes under one sign; hours over 25 and minutes over 59 are refused.
#[tactic(auto, unfolding(crate::specs::Resolution::signed_offset_of))]
#[inline(always)]
pub fn signed_offset(is_negative: bool, hours: u8, minutes: u8) -> Result<UtcOffset, ComponentRange>
    requires hours { hours < 100 }
    requires minutes { minutes < 100 }
    ensures { result ≡ signed_offset_of is_negative hours minutes }
{
    let (hours, minutes) = (hours as i8, minutes as i8);
    if is_negative {
        UtcOffset::from_hms(-hours, -minutes, 0)
    } else {
        UtcOffset::from_hms(hours, minutes, 0)
    }
}

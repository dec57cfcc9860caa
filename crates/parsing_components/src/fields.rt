//! What was read of a moment.
ghost use Rattle.std.specs.Prelude.{◌≡◌};

use crate::said::Read;
use calendar_count::{Month, Weekday};

/// The components that were read, each at most once.
#[derive(Clone, Copy, Debug, Default)]
pub struct Record {
    pub year: Option<i32>,
    pub year_century: Option<i16>,
    /// Whether the century is after a minus, which -0 has too.
    pub year_century_is_negative: bool,
    pub year_last_two: Option<u8>,
    /// The year that ISO 8601's weeks belong to.
    pub iso_year: Option<i32>,
    pub iso_year_century: Option<i16>,
    /// Whether the century is after a minus, which -0 has too.
    pub iso_year_century_is_negative: bool,
    pub iso_year_last_two: Option<u8>,
    pub month: Option<Month>,
    pub sunday_week_number: Option<u8>,
    pub monday_week_number: Option<u8>,
    pub iso_week_number: Option<u8>,
    pub weekday: Option<Weekday>,
    pub ordinal: Option<u16>,
    pub day: Option<u8>,
    pub hour_24: Option<u8>,
    pub hour_12: Option<u8>,
    /// Whether it is the later half of the day.
    pub hour_12_is_pm: Option<bool>,
    pub minute: Option<u8>,
    pub second: Option<u8>,
    /// In nanoseconds.
    pub subsecond: Option<u32>,
    pub offset_hour: Option<i8>,
    /// The offset's minutes and seconds as they were set.
    pub offset_minute: Option<i8>,
    pub offset_second: Option<i8>,
    /// The nanoseconds since 1970 began in UTC.
    pub unix_timestamp_nanos: Option<i128>,
    /// Whether the offset's minutes and seconds count against it, as an hour after a minus says.
    pub offset_is_negative: bool,
    /// Whether second 60 stands for the last nanosecond before it.
    pub leap_second_is_permitted: bool,
}

impl Record {
    ghost use Rattle.parsing_components.specs.Put.{put};
    ghost use Rattle.parsing_components.specs.Record.{IsWithin, IsInRange};

    /// Puts what a component says into its field, in place of what was there.
    #[inline(always)]
    pub fn put(&mut self, said: Read)
        requires possible { IsInRange said }
        requires within { IsWithin self.old }
        ensures value { self.new ≡ put said self.old }
        ensures within { IsWithin self.new }
    {
        match said {
            Read::Year(year) => self.year = Some(year),
            Read::YearCentury(century, is_negative) => {
                self.year_century = Some(century);
                self.year_century_is_negative = is_negative;
            }
            Read::YearLastTwo(number) => self.year_last_two = Some(number),
            Read::IsoYear(year) => self.iso_year = Some(year),
            Read::IsoYearCentury(century, is_negative) => {
                self.iso_year_century = Some(century);
                self.iso_year_century_is_negative = is_negative;
            }
            Read::IsoYearLastTwo(number) => self.iso_year_last_two = Some(number),
            Read::Month(month) => self.month = Some(month),
            Read::SundayWeek(week) => self.sunday_week_number = Some(week),
            Read::MondayWeek(week) => self.monday_week_number = Some(week),
            Read::IsoWeek(week) => self.iso_week_number = Some(week),
            Read::Weekday(weekday) => self.weekday = Some(weekday),
            Read::Ordinal(ordinal) => self.ordinal = Some(ordinal),
            Read::Day(day) => self.day = Some(day),
            Read::Hour24(hour) => self.hour_24 = Some(hour),
            Read::Hour12(hour) => self.hour_12 = Some(hour),
            Read::Afternoon(is_later) => self.hour_12_is_pm = Some(is_later),
            Read::Minute(minute) => self.minute = Some(minute),
            Read::Second(second) => self.second = Some(second),
            Read::Subsecond(nanosecond) => self.subsecond = Some(nanosecond),
            Read::OffsetHour(hour, is_negative) => {
                self.offset_hour = Some(hour);
                self.offset_is_negative = is_negative;
            }
            Read::OffsetMinute(minute) => self.offset_minute = Some(minute as i8),
            Read::OffsetSecond(second) => self.offset_second = Some(second as i8),
            Read::Unix(nanoseconds) => self.unix_timestamp_nanos = Some(nanoseconds),
            Read::Nothing => {}
        }
    }
}

//! The fields of a date-time.
ghost use Rattle.std.specs.Prelude.{◌≡◌, ◌+◌, ◌*◌, ◌<◌, ◌≤◌, ◌↔◌, pos, unsigned_abs, IsSome, IsTrue, IfSome};
ghost use Rattle.std.specs.Int.{IsInRange};
ghost use Rattle.calendar_count.specs.Calendar.{IsDay, days_in_month};
ghost use Rattle.datetime_wall.specs.Wall.{second_nanos};

use crate::OffsetDateTime;
use crate::four_digits::Year;
use crate::fraction::Fraction;
use calendar::{Date, Time, UtcOffset};
use calendar_count::{closed, march};
use datetime_wall::{count_of_seconds, day_of_count, second_of_day};

/// The fields of a date-time in a year of four digits: a day of the calendar, a time of day, and an offset of whole minutes,
/// at most 25:59. No second is a leap second.
#[derive(Clone, Copy)]
pub struct Fields {
    /// 0 to 9999.
    pub year: Year,
    /// 1 to 12.
    pub month: u8,
    /// Of the month, from 1 on.
    pub day: u8,
    /// Of the day, from 0 on.
    pub minute: u16,
    /// In minutes, above 0 where local time is ahead of UTC.
    pub offset: i32,
    /// Of the minute, 0 to 59. (Four bytes, as the offset, so that there is no padding, which each move would copy.)
    pub second: u32,
    /// Of the second.
    pub fraction: Fraction,
    ghost day_is_there: { IsDay (pos year) month day },
    ghost four_digits: { year ≤ 9999 },
    ghost within_a_day: { minute < 1440 },
    ghost within_a_minute: { second < 60 },
    ghost is_offset: { unsigned_abs offset ≤ 1559 },
}

// The days that each month has in every year, by its number.
static SHORTEST: [u8; 13] = [0, 31, 28, 31, 30, 31, 30, 31, 31, 30, 31, 30, 31];

/// Whether a month of a year, by its number of at most 12, has the day, counted from 1.
///
/// Only for 29 February, and for days that are not there, more than a table is asked.
#[inline(always)]
#[tactic(auto, using(std::proofs::lemmas::Int::ints, crate::proofs::MonthLengths::shortest_month))]
pub fn has_day(year: Year, month: u8, day: u8) -> bool
    requires { month ≤ 12 }
    ensures { IsTrue result ↔ IsInRange 1 (days_in_month (pos year) month) day }
{
    // (counted from 0 on, a day 0 is past all)
    if day.wrapping_sub(1) < SHORTEST[month as usize] {
        return true;
    }
    closed::has_day(i32::from(year.number()), month, day)
}

impl Fields {
    ghost use Rattle.parsing_values.specs.Moment.{moment_of};
    ghost use Rattle.parsing_values.specs.Numbers.{NameFields, HaveNumbers};

    /// The fields with these numbers, where there are such fields.
    #[inline(always)]
    #[tactic(auto, using(std::proofs::lemmas::Int::ints))]
    pub fn new(
        year: Year,
        month: u8,
        day: u8,
        minute: u16,
        second: u8,
        fraction: Fraction,
        offset: i16,
    ) -> Option<Fields>
        ensures some { IsSome result ↔ NameFields year month day minute second offset }
        ensures numbers { IfSome result
            (λ f. HaveNumbers f year month day minute second fraction offset) }
    {
        // (that a year has four digits is told by its number, which leaves no code)
        let _ = year.number();
        if minute >= 1440 || offset.unsigned_abs() > 1559 {
            return None;
        }
        Fields::on_day(year, month, day, minute, second, fraction, offset)
    }

    /// The same, where only the day and the second can be out of range.
    #[inline(always)]
    pub fn on_day(
        year: Year,
        month: u8,
        day: u8,
        minute: u16,
        second: u8,
        fraction: Fraction,
        offset: i16,
    ) -> Option<Fields>
        requires year { year ≤ 9999 }
        requires minute { minute < 1440 }
        requires offset { unsigned_abs offset ≤ 1559 }
        ensures some { IsSome result ↔ NameFields year month day minute second offset }
        ensures numbers { IfSome result
            (λ f. HaveNumbers f year month day minute second fraction offset) }
    {
        if month < 1 || month > 12 || !has_day(year, month, day) || second >= 60 {
            return None;
        }
        Some(Fields::of_numbers(year, month, day, minute, second, fraction, offset))
    }

    /// The fields with these numbers, which name fields: `new` is the test.
    #[inline(always)]
    pub fn of_numbers(
        year: Year,
        month: u8,
        day: u8,
        minute: u16,
        second: u8,
        fraction: Fraction,
        offset: i16,
    ) -> Fields
        requires { NameFields year month day minute second offset }
        ensures { HaveNumbers result year month day minute second fraction offset }
    {
        Fields {
            year,
            month,
            day,
            minute,
            offset: i32::from(offset),
            second: u32::from(second),
            fraction,
        }
    }

    /// The fields in UTC of a second of Unix time, from 1970 on, and a fraction of it: `None` says nothing.
    #[inline(always)]
    pub fn of_unix(second: u64, fraction: Fraction) -> Option<Fields>
        requires { second < 10_000_000_000 }
        ensures { IfSome result (λ f. moment_of f
            ≡ record { wall = pos (second * second_nanos + fraction); offset = pos 0 }) }
    {
        let instant = second as i64;
        let (year, month, day) = day_of_count(count_of_seconds(instant));
        if year < 0 || year > 9999 {
            return None;
        }
        let second = second_of_day(instant);
        let minute = second / 60;
        Some(Fields::of_numbers(
            Year::new(year as u16),
            month,
            day,
            minute as u16,
            (second - 60 * minute) as u8,
            fraction,
            0,
        ))
    }

    /// The moment that they name.
    #[inline(always)]
    pub fn moment(self) -> OffsetDateTime
        ensures { result ≡ moment_of self }
    {
        let count = march::count_of_day(i32::from(self.year.number()), self.month, self.day);
        let second_of_day = u32::from(self.minute) * 60 + self.second;
        let time = Time::from_seconds_nanoseconds(second_of_day, self.fraction.nanosecond());
        let offset = match UtcOffset::from_whole_seconds(self.offset * 60) {
            Ok(offset) => offset,
            Err(_) => unreachable!(),
        };
        OffsetDateTime::new_in_offset(Date::from_count(count), time, offset)
    }
}
